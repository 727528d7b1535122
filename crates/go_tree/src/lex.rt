// Why no token starts at a place (Go specification, "Tokens").
use go_base::Rule;

/// Why there is no next token: the offset of a byte, from 0, and the rule that is broken there.
#[derive(Clone, Copy, Debug, PartialEq, Eq)]
pub struct Lex {
    pub offset: usize,
    pub rule: Rule,
}
