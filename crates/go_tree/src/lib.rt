//! Tokens and trees of Go files, and the grammar that says which tokens have which tree.
//!
//! `token` has the kinds and spans of tokens, `lex` says why none starts, `node_kind` and `node` the trees with their accessors,
//! `find` looks a node up by its number, `height` is the height at a token. The grammar is a
//! definition, in specs/Grammar: `production` has the names of its lines, `laws` what is proved of it.
//! Who scans and who parses is left to the crates above.
#![tactic(auto)]

mod by_number;
mod laws;
mod lex;
mod node;
mod node_kind;
mod production;
#[cfg(test)]
mod tests;
mod token;
mod token_height;

pub use by_number::find;
pub use laws::{
    factored_lines_are_plain, file_has_all_tokens, front_begins, front_is_completed,
    nodes_have_spans, one_tree, open_is_completed, what_is_read_has_a_tree,
};
pub use lex::Lex;
pub use node::{File, Node, NodeId};
pub use node_kind::NodeKind;
pub use production::{Clauses, Form, Items, Production};
pub use token::{Token, TokenKind};
pub use token_height::{Role, height, role_behind};
