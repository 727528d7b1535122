// What an interface has, with all that it embeds (Go specification, "Interface types").
ghost use Rattle.std.specs.Prelude.{◌≡◌};
ghost use Rattle.go_same.specs.Sets as spec;

use go_base::Name;
use go_module::ObjId;
use go_term::{FuncShape, Ty};

/// A method: its name, the path of its package where the name is not exported, its parameters and results, and how many
/// names were opened on the way to it.
#[derive(Debug, Drop)]
pub(crate) struct Method {
    pub name: Name,
    pub home: Name,
    pub signature: FuncShape,
    pub opened: u32,
}

/// A term of a union, and how many names were opened on the way to it.
#[derive(Debug, Drop)]
pub(crate) struct UnionPart {
    pub tilde: bool,
    pub ty: Ty,
    pub opened: u32,
}

/// The types that have these methods, lie in one term of each of these unions, and are comparable if that is so.
#[derive(Debug, Drop)]
pub(crate) struct TypeSet {
    pub methods: Vec<Method>,
    pub unions: Vec<Vec<UnionPart>>,
    pub comparable: bool,
}

/// What is found of a type set: the set; Absent where too many names would have to be opened or one has no underlying
/// type; Unknown with the first header that is lacking.
#[derive(Debug, Drop)]
pub(crate) enum FoundSet {
    Is(TypeSet),
    Absent,
    Unknown(ObjId),
}

/// Whether it is a set.
pub(crate) fn is_set(found: &FoundSet) -> bool
    ensures { result ≡ spec.is_set found.now }
{
    match found {
        FoundSet::Is(_) => true,
        _ => false,
    }
}
