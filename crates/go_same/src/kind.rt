// What stands at a type, as far as its type set goes by it, and whether it is a name or a type parameter (Go
// specification, "Interface types", "Type identity").
ghost use Rattle.std.specs.Prelude.{◌≡◌};
ghost use Rattle.go_same.specs.Collect as spec;

use go_term::{Basic, ElemShape, Shape};

/// An interface literal by its elements, a predeclared interface, a name or a type parameter, or any other type.
#[derive(Debug, Drop)]
pub(crate) enum TypeKind {
    Literal(Vec<ElemShape>),
    Error,
    Comparable,
    Name,
    Other,
}

/// What stands at the type of this form.
pub(crate) fn kind_of(shape: Shape) -> TypeKind
    ensures { result ≡ spec.kind_of shape }
{
    match shape {
        Shape::Interface(elems) => TypeKind::Literal(elems),
        Shape::Basic(b) => basic_kind(b),
        Shape::Named(_, _) => TypeKind::Name,
        Shape::Param(_, _) => TypeKind::Name,
        Shape::Pointer(_) => TypeKind::Other,
        Shape::Slice(_) => TypeKind::Other,
        Shape::Array(_, _) => TypeKind::Other,
        Shape::Map(_, _) => TypeKind::Other,
        Shape::Chan(_, _) => TypeKind::Other,
        Shape::Func(_) => TypeKind::Other,
        Shape::Struct(_) => TypeKind::Other,
        Shape::Tuple(_) => TypeKind::Other,
        Shape::Bound(_) => TypeKind::Other,
    }
}

fn basic_kind(b: Basic) -> TypeKind
    ensures { result ≡ spec.basic_kind b }
{
    match b {
        Basic::Error => TypeKind::Error,
        Basic::Comparable => TypeKind::Comparable,
        _ => TypeKind::Other,
    }
}

/// Whether the type of this form is an interface.
pub(crate) fn is_interface(shape: Shape) -> bool
    ensures { result ≡ spec.is_interface_kind (spec.kind_of shape) }
{
    match kind_of(shape) {
        TypeKind::Literal(_) => true,
        TypeKind::Error => true,
        TypeKind::Comparable => true,
        TypeKind::Name => false,
        TypeKind::Other => false,
    }
}

/// Whether the type of this form is a type parameter.
pub(crate) fn is_param(shape: &Shape) -> bool
    ensures { result ≡ spec.is_param_shape shape.now }
{
    matches!(shape, Shape::Param(_, _))
}

/// Whether the type of this form is a name or a type parameter.
pub(crate) fn is_name(shape: &Shape) -> bool
    ensures { result ≡ spec.is_name_shape shape.now }
{
    matches!(shape, Shape::Named(_, _) | Shape::Param(_, _))
}
