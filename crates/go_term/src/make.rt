// The term of a shape.
ghost use Rattle.std.specs.Prelude.{◌≡◌, IfOk, IfErr, None, map};
ghost use Rattle.go_term.specs.Shapes.{IsCause, elem_tree, field_tree, func_parts, shape_tree, union_tree};
ghost use Rattle.go_term.specs.Size.{size_fault};
ghost use Rattle.go_term.specs.View.{elem_of, field_of, signature_of, type_of, union_term_of};

use crate::fault::TermFault;
use crate::shape::{ElemShape, FieldShape, FuncShape, Shape, UnionShape};
use crate::term::{ElemTerm, FieldTerm, FuncTerm, Term, UnionTerm};
use go_base::NoMemory;
use std::alloc::Global;

impl Shape {
    /// The type of this form: Deep where it is deeper than 256, else Large where it has more than 65,536 nodes.
    pub fn make(self, alloc: Global) -> Result<Term, TermFault>
        ensures made { IfOk result (λ term. type_of term ≡ shape_tree type_of self) }
        ensures fits { IfOk result (λ term. size_fault (shape_tree type_of self) ≡ None) }
        ensures cause { IfErr result (λ fault. IsCause fault (shape_tree type_of self)) }
    {
        let term = term_of(alloc, self)?;
        term.size().check()?;
        Ok(term)
    }
}

// The type of this form, whatever its size.
fn term_of(alloc: Global, shape: Shape) -> Result<Term, NoMemory>
    ensures { IfOk result (λ term. type_of term ≡ shape_tree type_of shape) }
{
    Ok(match shape {
        Shape::Basic(b) => Term::Basic(b),
        Shape::Pointer(t) => Term::Pointer(Box::new(alloc, t)?),
        Shape::Slice(t) => Term::Slice(Box::new(alloc, t)?),
        Shape::Array(n, t) => Term::Array(n, Box::new(alloc, t)?),
        Shape::Map(k, v) => Term::Map(Box::new(alloc, k)?, Box::new(alloc, v)?),
        Shape::Chan(d, t) => Term::Chan(d, Box::new(alloc, t)?),
        Shape::Func(f) => Term::Func(func_term(f)),
        Shape::Struct(fs) => Term::Struct(field_terms(alloc, fs)?),
        Shape::Interface(es) => Term::Interface(elem_terms(alloc, es)?),
        Shape::Tuple(ts) => Term::Tuple(ts),
        Shape::Named(d, ts) => Term::Named(d, ts),
        Shape::Param(d, i) => Term::Param(d, i),
        Shape::Bound(k) => Term::Bound(k),
    })
}

fn func_term(f: FuncShape) -> FuncTerm
    ensures variadic { (signature_of result).variadic ≡ f.variadic }
    ensures parts { (signature_of result).parts ≡ func_parts type_of f }
{
    FuncTerm {
        params: f.params,
        variadic: f.variadic,
        results: f.results,
    }
}

fn field_terms(alloc: Global, shapes: Vec<FieldShape>) -> Result<Vec<FieldTerm>, NoMemory>
    ensures { IfOk result (λ fields. map field_of fields.items ≡ map (field_tree type_of) shapes.items) }
{
    let mut all = Vec::new(alloc);
    for f in shapes {
        all.push(field_term(f))?;
    }
    Ok(all)
}

fn field_term(f: FieldShape) -> FieldTerm
    ensures { field_of result ≡ field_tree type_of f }
{
    FieldTerm {
        object: f.object,
        name: f.name,
        package: f.package,
        embedded: f.embedded,
        ty: f.ty,
        tag: f.tag,
    }
}

fn elem_terms(alloc: Global, shapes: Vec<ElemShape>) -> Result<Vec<ElemTerm>, NoMemory>
    ensures { IfOk result (λ elems. map elem_of elems.items ≡ map (elem_tree type_of) shapes.items) }
{
    let mut all = Vec::new(alloc);
    for e in shapes {
        all.push(elem_term(alloc, e)?)?;
    }
    Ok(all)
}

fn elem_term(alloc: Global, shape: ElemShape) -> Result<ElemTerm, NoMemory>
    ensures { IfOk result (λ elem. elem_of elem ≡ elem_tree type_of shape) }
{
    match shape {
        ElemShape::Method(d, name, package, f) => {
            Ok(ElemTerm::Method(d, name, package, func_term(f)))
        }
        ElemShape::Union(us) => Ok(ElemTerm::Union(union_terms(alloc, us)?)),
    }
}

fn union_terms(alloc: Global, shapes: Vec<UnionShape>) -> Result<Vec<UnionTerm>, NoMemory>
    ensures { IfOk result (λ terms. map union_term_of terms.items ≡ map (union_tree type_of) shapes.items) }
{
    let mut all = Vec::new(alloc);
    for u in shapes {
        all.push(union_part(u))?;
    }
    Ok(all)
}

fn union_part(u: UnionShape) -> UnionTerm
    ensures { union_term_of result ≡ union_tree type_of u }
{
    UnionTerm {
        tilde: u.tilde,
        ty: u.ty,
    }
}
