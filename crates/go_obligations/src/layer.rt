// What stands at one layer of a type (Go specification, "Interface types", "Type parameter declarations").
ghost use Rattle.std.specs.Prelude.{◌≡◌};
ghost use Rattle.go_obligations.specs.EmbeddedShapes.{embeds_shape, is_interface_basic, is_interface_shape, is_parameter_shape, name_alone, name_in};

use go_module::ObjId;
use go_term::{Basic, Shape, Ty};

/// Whether the type with this layer is a type parameter.
pub(crate) fn is_parameter(shape: &Shape) -> bool
    ensures { result ≡ is_parameter_shape shape.now }
{
    matches!(shape, Shape::Param(_, _))
}

/// Whether the type with this layer is an interface: a literal, or one that is predeclared.
pub(crate) fn is_interface(shape: &Shape) -> bool
    ensures { result ≡ is_interface_shape shape.now }
{
    match shape {
        Shape::Interface(_) => true,
        Shape::Basic(b) => is_interface_basic(b),
        _ => false,
    }
}

fn is_interface_basic(b: &Basic) -> bool
    ensures { result ≡ is_interface_basic b.now }
{
    matches!(b, Basic::Error | Basic::Comparable)
}

/// The object of a named type without type arguments, None exactly where the type with this layer is none.
pub(crate) fn name_in(shape: &Shape) -> Option<ObjId>
    ensures { result ≡ name_in shape.now }
{
    match shape {
        Shape::Named(d, arguments) => name_alone(*d, arguments),
        _ => None,
    }
}

fn name_alone(d: ObjId, arguments: &[Ty]) -> Option<ObjId>
    ensures { result ≡ name_alone d arguments.now }
{
    if arguments.is_empty() { Some(d) } else { None }
}

/// Whether a type whose underlying type has this layer may be embedded, behind a `*` or not.
pub(crate) fn embeds(starred: bool, shape: &Shape) -> bool
    ensures { result ≡ embeds_shape starred shape.now }
{
    match shape {
        Shape::Pointer(_) => false,
        _ => !(starred && is_interface(shape)),
    }
}
