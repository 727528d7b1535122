//! Values of constants: arithmetic on 128 bits, comparisons, texts of limited length, and how a value reads.
//!
//! `value` has what a constant can be; `arithmetic`, `bits`, `unary`, `shifts` and `comparisons` the operators,
//! `ranges` the integer types; `text` the operators on strings and the string of a rune; `value_texts` how a value
//! reads. Which types represent a value that is no integer is left out.
#![tactic(auto)]

mod arithmetic;
mod bits;
mod comparisons;
mod ranges;
mod shifts;
mod text;
mod unary;
mod value;
mod value_texts;

pub use arithmetic::{IntOp, NumFault, int_binary};
pub use comparisons::{CmpOp, int_compare, text_compare};
pub use ranges::{IntType, fits};
pub use shifts::int_shift;
pub use text::{MOST_TEXT, TextFault, join, rune_text};
pub use unary::{UnOp, int_unary};
pub use value::{NumKind, Value};
pub use value_texts::{put_quoted, value_text};

#[cfg(test)]
mod int_tests;
#[cfg(test)]
mod tests;
