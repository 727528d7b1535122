// Sets of kinds of tokens, with one bit for each kind.
ghost use Rattle.std.specs.Prelude.{◌≡◌};
ghost use Rattle.go_tree.specs.Grammar.Tables.TokenKinds.{code, same_kind};
ghost use Rattle.go_parse_x.specs.Tables.KindSets.{has_kind};

use go_tree::TokenKind;

/// The set of these kinds.
macro_rules! kinds {
    ($($kind:ident)*) => { 0 $(| 1 << (TokenKind::$kind as u8))* };
}

pub(crate) use kinds;

/// Whether the set has that kind.
pub fn has(set: u128, kind: TokenKind) -> bool
    ensures { result ≡ has_kind set kind }
{
    set >> place_of(kind) & 1 == 1
}

/// Whether two kinds are the same.
pub fn same(a: TokenKind, b: TokenKind) -> bool
    ensures { result ≡ same_kind a b }
{
    place_of(a) == place_of(b)
}

// The bit of a kind.
fn place_of(kind: TokenKind) -> u8
    ensures { result ≡ code kind }
{
    kind as u8
}
