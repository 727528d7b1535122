// Objects: what names denote (Go specification, "Declarations and scope").
use go_base::{Name, ObjId};
use go_tree::NodeId;

/// What an object is.
#[derive(Clone, Copy, Debug, PartialEq, Eq)]
pub enum ObjKind {
    /// a constant ("Constant declarations")
    Const,
    /// a type with a name of its own ("Type definitions", "Predeclared identifiers")
    Defined,
    /// another name of a type ("Alias declarations")
    Alias,
    /// a variable ("Variable declarations")
    Var,
    /// a package, by the name of an import ("Import declarations")
    Package,
    /// a built-in function ("Built-in functions")
    Builtin,
    /// the predeclared `nil`
    Nil,
}

/// An object: its name, what it is, the node that declares it, the place of its package in the module,
/// and how many type parameters it has. A universe name has its own number in the place of a node, and 0
/// in the place of a package.
#[derive(Debug, Drop)]
pub struct Object {
    pub name: Name,
    pub kind: ObjKind,
    pub at: NodeId,
    pub package: usize,
    pub params: usize,
}

/// A method of a type: its object, its name, the path of its package, and whether its receiver is a
/// pointer (Go specification, "Method declarations").
#[derive(Debug, Drop)]
pub struct Method {
    pub object: ObjId,
    pub name: Name,
    pub package: Name,
    pub pointer: bool,
}
