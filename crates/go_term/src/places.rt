// Where a type parameter stands among others.
ghost use Rattle.std.specs.Prelude.{◌≡◌, position};
ghost use Rattle.go_term.specs.Substitution.{is_param};

use go_base::ObjId;

/// The place of the first of these type parameters that is that of the declaration `d` at the place `i`, if any.
pub fn place_of(from: &[(ObjId, usize)], d: ObjId, i: usize) -> Option<usize>
    ensures { result ≡ position (is_param d i) from.now }
{
    from.iter().position(|p| p.0.0 == d.0 && p.1 == i)
}
