//! The scanner: the next token of a text, or why there is none, and what literals stand for.
//!
//! `next_token` inserts semicolons and names what is wrong, `gap` passes over white space and comments,
//! `token` finds the longest token by what begins it: `words` and `keywords`, `numbers`, `quoted`
//! and `marks`. `literals` says what a literal stands for, `string_texts` for which string any text
//! stands. What the tokens of a text are is defined in go_tree.
#![tactic(auto)]

mod characters;
mod comments;
mod digits;
mod escapes;
mod floats;
mod gap;
mod keywords;
mod laws;
mod literals;
mod marks;
mod next_token;
mod numbers;
mod quoted;
mod reading;
mod rules;
mod runs;
mod string_texts;
mod token;
mod token_list;
mod values;
mod words;

pub use go_tree::{Lex, Token, TokenKind};
pub use laws::{one_next, one_scan, string_of_literal};
pub use literals::{int_lit_value, int_value, literal_text};
pub use next_token::next;
pub use rules::{FORBIDDEN_BYTE, MISSING_TOKEN};
pub use string_texts::string_of;
pub use token_list::{ScanFault, tokens};
