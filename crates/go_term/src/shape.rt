// Shapes: one layer of a type.
use crate::basic::Basic;
use crate::term::{Dir, Ty};
use go_base::{Bytes, Name, ObjId};

/// The outer form of a type: as a term, but with types for its parts.
#[derive(Debug, Drop)]
pub enum Shape {
    Basic(Basic),
    Pointer(Ty),
    Slice(Ty),
    Array(u64, Ty),
    Map(Ty, Ty),
    Chan(Dir, Ty),
    Func(FuncShape),
    Struct(Vec<FieldShape>),
    Interface(Vec<ElemShape>),
    Tuple(Vec<Ty>),
    Named(ObjId, Vec<Ty>),
    Param(ObjId, usize),
    Bound(usize),
}

/// The parameters and results of a function. A variadic one has a parameter at least.
#[derive(Debug, Drop)]
pub struct FuncShape {
    pub params: Vec<Ty>,
    pub variadic: bool,
    pub results: Vec<Ty>,
}

/// A field of a struct.
#[derive(Debug, Drop)]
pub struct FieldShape {
    pub object: ObjId,
    pub name: Name,
    pub package: Name,
    pub embedded: bool,
    pub ty: Ty,
    pub tag: Bytes,
}

/// An element of an interface.
#[derive(Debug, Drop)]
pub enum ElemShape {
    Method(ObjId, Name, Name, FuncShape),
    Union(Vec<UnionShape>),
}

/// A term of a union.
#[derive(Debug, Drop)]
pub struct UnionShape {
    pub tilde: bool,
    pub ty: Ty,
}
