// Which parts nodes have.
use crate::role::Role;

/// Which parts a node has where it is built, and what these stand for. With other parts it is not built.
#[derive(Clone, Copy)]
pub enum Parts {
    /// whatever its parts are, it is not built
    NotBuilt,
    /// whatever its parts are, it is built with all that stands in it
    AnyParts,
    /// none
    NoParts,
    /// one
    One(Role),
    /// two
    Two(Role, Role),
    /// three
    Three(Role, Role, Role),
    /// any number, each of which stands for that
    Each(Role),
    /// one, and any number behind it
    OneAndEach(Role, Role),
    /// one or more names, a type, and perhaps a tag
    NamesAndType,
    /// a type and type arguments, which are not built
    TypeArguments,
}
