// The shape of a term.
ghost use Rattle.std.specs.Prelude.{◌≡◌, IfOk, map};
ghost use Rattle.go_term.specs.Shapes.{elem_tree, field_tree, func_parts, shape_tree, union_tree};
ghost use Rattle.go_term.specs.View.{elem_of, field_of, signature_of, type_of, union_term_of};

use crate::shape::{ElemShape, FieldShape, FuncShape, Shape, UnionShape};
use crate::term::{ElemTerm, FieldTerm, FuncTerm, Term, UnionTerm};
use go_base::NoMemory;
use std::alloc::Global;

impl Term {
    /// The outer form of the type. An error is want of memory.
    pub fn shape(&self, alloc: Global) -> Result<Shape, NoMemory>
        ensures { IfOk result (λ shape. shape_tree type_of shape ≡ type_of self.now) }
    {
        Ok(match self {
            Term::Basic(b) => Shape::Basic(*b),
            Term::Pointer(t) => Shape::Pointer(t.as_ref().clone()?),
            Term::Slice(t) => Shape::Slice(t.as_ref().clone()?),
            Term::Array(n, t) => Shape::Array(*n, t.as_ref().clone()?),
            Term::Map(k, v) => Shape::Map(k.as_ref().clone()?, v.as_ref().clone()?),
            Term::Chan(d, t) => Shape::Chan(*d, t.as_ref().clone()?),
            Term::Func(f) => Shape::Func(func_shape(alloc, f)?),
            Term::Struct(fs) => Shape::Struct(field_shapes(alloc, fs)?),
            Term::Interface(es) => Shape::Interface(elem_shapes(alloc, es)?),
            Term::Tuple(ts) => Shape::Tuple(copies(alloc, ts)?),
            Term::Named(d, ts) => Shape::Named(*d, copies(alloc, ts)?),
            Term::Param(d, i) => Shape::Param(*d, *i),
            Term::Bound(k) => Shape::Bound(*k),
        })
    }
}

// Terms of their own that stand for the same types. An error is want of memory.
fn copies(alloc: Global, terms: &[Term]) -> Result<Vec<Term>, NoMemory>
    ensures { IfOk result (λ copies. map type_of copies.items ≡ map type_of terms.now) }
{
    let mut all = Vec::new(alloc);
    for t in terms {
        all.push(t.clone()?)?;
    }
    Ok(all)
}

fn func_shape(alloc: Global, f: &FuncTerm) -> Result<FuncShape, NoMemory>
    ensures variadic { IfOk result (λ shape. shape.variadic ≡ (signature_of f.now).variadic) }
    ensures parts { IfOk result (λ shape. func_parts type_of shape ≡ (signature_of f.now).parts) }
{
    Ok(FuncShape {
        params: copies(alloc, &f.params)?,
        variadic: f.variadic,
        results: copies(alloc, &f.results)?,
    })
}

fn field_shapes(alloc: Global, fields: &[FieldTerm]) -> Result<Vec<FieldShape>, NoMemory>
    ensures { IfOk result (λ shapes. map (field_tree type_of) shapes.items ≡ map field_of fields.now) }
{
    let mut all = Vec::new(alloc);
    for f in fields {
        all.push(field_shape(alloc, f)?)?;
    }
    Ok(all)
}

fn field_shape(alloc: Global, f: &FieldTerm) -> Result<FieldShape, NoMemory>
    ensures { IfOk result (λ shape. field_tree type_of shape ≡ field_of f.now) }
{
    Ok(FieldShape {
        object: f.object,
        name: f.name.clone()?,
        package: f.package.clone()?,
        embedded: f.embedded,
        ty: f.ty.clone()?,
        tag: f.tag.clone()?,
    })
}

fn elem_shapes(alloc: Global, elems: &[ElemTerm]) -> Result<Vec<ElemShape>, NoMemory>
    ensures { IfOk result (λ shapes. map (elem_tree type_of) shapes.items ≡ map elem_of elems.now) }
{
    let mut all = Vec::new(alloc);
    for e in elems {
        all.push(elem_shape(alloc, e)?)?;
    }
    Ok(all)
}

fn elem_shape(alloc: Global, elem: &ElemTerm) -> Result<ElemShape, NoMemory>
    ensures { IfOk result (λ shape. elem_tree type_of shape ≡ elem_of elem.now) }
{
    match elem {
        ElemTerm::Method(d, name, package, f) => Ok(ElemShape::Method(
            *d,
            name.clone()?,
            package.clone()?,
            func_shape(alloc, f)?,
        )),
        ElemTerm::Union(us) => Ok(ElemShape::Union(union_shapes(alloc, us)?)),
    }
}

fn union_shapes(alloc: Global, terms: &[UnionTerm]) -> Result<Vec<UnionShape>, NoMemory>
    ensures { IfOk result (λ shapes. map (union_tree type_of) shapes.items ≡ map union_term_of terms.now) }
{
    let mut all = Vec::new(alloc);
    for u in terms {
        all.push(union_shape(alloc, u)?)?;
    }
    Ok(all)
}

fn union_shape(alloc: Global, u: &UnionTerm) -> Result<UnionShape, NoMemory>
    ensures { IfOk result (λ shape. union_tree type_of shape ≡ union_term_of u.now) }
{
    Ok(UnionShape {
        tilde: u.tilde,
        ty: u.ty.clone()?,
    })
}
