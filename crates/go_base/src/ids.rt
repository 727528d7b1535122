// Numbers of objects.

/// The number of an object (Go specification, "Declarations and scope"). Universe names have 0 to 43, the
/// method of `error` has 44, and any other object has the number of the node that declares it.
#[derive(Clone, Copy, Debug, PartialEq, Eq, Hash)]
pub struct ObjId(pub usize);
