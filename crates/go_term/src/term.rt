// Terms: what a type is made of.
use crate::basic::Basic;
use go_base::{Bytes, Name, ObjId};

/// In which directions a channel can be used (Go specification, "Channel types").
#[derive(Clone, Copy, Debug, PartialEq, Eq)]
pub enum Dir {
    Both,
    Receive,
    Send,
}

/// A type (Go specification, "Types").
#[derive(Debug, Drop)]
#[cycle(term)]
pub enum Term {
    /// a predeclared type that is no alias, or the kind of an untyped constant
    Basic(Basic),
    /// `*T`
    Pointer(Box<Term>),
    /// `[]T`
    Slice(Box<Term>),
    /// `[n]T`
    Array(u64, Box<Term>),
    /// `map[K]V`
    Map(Box<Term>, Box<Term>),
    /// `chan T`, `<-chan T` or `chan<- T`
    Chan(Dir, Box<Term>),
    /// `func(A, ...B) R`
    Func(FuncTerm),
    /// `struct{ a T; E }`
    Struct(Vec<FieldTerm>),
    /// `interface{ M(A) R; ~int | string }`
    Interface(Vec<ElemTerm>),
    /// the values of a call of a function with several results, or with none
    Tuple(Vec<Term>),
    /// the type that a type declaration defines, with its type arguments ("Type definitions", "Instantiations")
    Named(ObjId, Vec<Term>),
    /// a type parameter, by the declaration that has it and its place there, from 0 ("Type parameter declarations")
    Param(ObjId, usize),
    /// a type parameter of the one inference that is under way, by its place, from 0 ("Type inference")
    Bound(usize),
}

/// The parameters and results of a function ("Function types"). A variadic one has a parameter at least: the last,
/// whose type is that of one of its arguments.
#[derive(Debug, Drop)]
#[cycle(term)]
pub struct FuncTerm {
    pub params: Vec<Term>,
    pub variadic: bool,
    pub results: Vec<Term>,
}

/// A field of a struct ("Struct types"): the object that is declared, its name and the path of the package where it
/// stands, whether it is embedded, its type, and what its tag stands for.
#[derive(Debug, Drop)]
#[cycle(term)]
pub struct FieldTerm {
    pub object: ObjId,
    pub name: Name,
    pub package: Name,
    pub embedded: bool,
    pub ty: Term,
    pub tag: Bytes,
}

/// An element of an interface ("Interface types"): a method, by the object that is declared, its name, the path of its
/// package and its signature; or a union. An embedded type is a union of one term.
#[derive(Debug, Drop)]
#[cycle(term)]
pub enum ElemTerm {
    Method(ObjId, Name, Name, FuncTerm),
    Union(Vec<UnionTerm>),
}

/// A term of a union: `T`, or `~T` ("General interfaces").
#[derive(Debug, Drop)]
#[cycle(term)]
pub struct UnionTerm {
    pub tilde: bool,
    pub ty: Term,
}

/// A type, as the calls on types take it.
pub type Ty = Term;
