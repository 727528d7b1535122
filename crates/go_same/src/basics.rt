// Basic types and directions by their places.
ghost use Rattle.std.specs.Prelude.{◌≡◌};
ghost use Rattle.go_judge.specs.Types.Heads.{basic_number, dir_number};

use go_term::{Basic, Dir};

/// The place of a basic type among all.
pub(crate) fn basic_number(b: Basic) -> u8
    ensures { result ≡ basic_number b }
{
    b as u8
}

/// The place of a direction among all.
pub(crate) fn dir_number(d: Dir) -> u8
    ensures { result ≡ dir_number d }
{
    d as u8
}
