//! The machine that reads Go: pieces (expressions, types, signatures, parameters and type parameters),
//! and whole files.
//!
//! `reader` reads a piece token by token, `texts` a file, `counting` counts heights, `cursor` is the
//! place in the text. A machine with an explicit stack does the reading: `machine` makes one step,
//! `settle` all steps up to a token, `finish` those where no token is left, over the productions as
//! flat tables (`lines`). The grammar is a definition of go_tree, what a file is one of go_text. Where a piece is read, the block of a
//! function literal is read by the caller and handed in (`giving`).
#![tactic(auto)]

// What a call reads, and what it answers.
mod counting;
mod cursor;
mod giving;
mod parsed;
mod pending;
mod progress;
mod reader;
mod reading;
mod texts;

// The machine.
mod acts;
mod closing;
mod finish;
mod heights;
mod machine;
mod opened;
mod prediction;
mod seen;
mod settle;
mod type_tree;

// The grammar as tables.
mod declaration_lines;
mod expression_lines;
mod file_lines;
mod firsts;
mod kind_sets;
mod line;
mod line_words;
mod lines;
mod place;
mod shape;
mod start_sets;
mod statement_lines;
mod type_lines;

pub use closing::next_number;
pub use cursor::Cursor;
pub use go_text::ParseFault;
pub use parsed::Parsed;
pub use pending::Pending;
pub use reader::parse_expr;
pub use reading::Reading;
pub use texts::parse_text;
