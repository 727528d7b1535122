// Copies of terms.
ghost use Rattle.std.specs.Prelude.{◌≡◌, IfOk, map};
ghost use Rattle.go_term.specs.View.{elem_of, field_of, signature_of, type_of, union_term_of};

use crate::term::{ElemTerm, FieldTerm, FuncTerm, Term, UnionTerm};
use std::alloc::AllocError;

impl Clone for Term {
    ghost is_clone = { λ term copy. type_of copy ≡ type_of term };

    /// A term of its own that stands for the same type. An error is want of memory.
    fn clone(&self) -> Result<Term, AllocError> {
        copy_of(self)
    }
}

#[cycle(copy)]
fn copy_of(term: &Term) -> Result<Term, AllocError>
    ensures { IfOk result (λ copy. type_of copy ≡ type_of term.now) }
{
    match term {
        Term::Basic(b) => Ok(Term::Basic(*b)),
        Term::Pointer(t) => Ok(Term::Pointer(copy_box(t)?)),
        Term::Slice(t) => Ok(Term::Slice(copy_box(t)?)),
        Term::Array(n, t) => Ok(Term::Array(*n, copy_box(t)?)),
        Term::Map(k, v) => Ok(Term::Map(copy_box(k)?, copy_box(v)?)),
        Term::Chan(d, t) => Ok(Term::Chan(*d, copy_box(t)?)),
        Term::Func(f) => Ok(Term::Func(copy_func(f)?)),
        Term::Struct(fs) => Ok(Term::Struct(copy_fields(fs)?)),
        Term::Interface(es) => Ok(Term::Interface(copy_elems(es)?)),
        Term::Tuple(ts) => Ok(Term::Tuple(copy_list(ts)?)),
        Term::Named(d, ts) => Ok(Term::Named(*d, copy_list(ts)?)),
        Term::Param(d, i) => Ok(Term::Param(*d, *i)),
        Term::Bound(k) => Ok(Term::Bound(*k)),
    }
}

#[cycle(copy)]
fn copy_box(term: &Box<Term>) -> Result<Box<Term>, AllocError>
    ensures { IfOk result (λ copy. type_of copy.value ≡ type_of term.now.value) }
{
    let alloc = *Box::allocator(term);
    Ok(Box::new(alloc, copy_of(term)?)?)
}

#[cycle(copy)]
fn copy_func(f: &FuncTerm) -> Result<FuncTerm, AllocError>
    ensures { IfOk result (λ copy. signature_of copy ≡ signature_of f.now) }
{
    Ok(FuncTerm {
        params: copy_list(&f.params)?,
        variadic: f.variadic,
        results: copy_list(&f.results)?,
    })
}

#[cycle(copy)]
fn copy_list(terms: &Vec<Term>) -> Result<Vec<Term>, AllocError>
    ensures { IfOk result (λ copy. map type_of copy.items ≡ map type_of terms.now.items) }
{
    let mut all = Vec::new(*terms.allocator());
    for t in terms {
        all.push(copy_of(t)?)?;
    }
    Ok(all)
}

#[cycle(copy)]
fn copy_fields(fields: &Vec<FieldTerm>) -> Result<Vec<FieldTerm>, AllocError>
    ensures { IfOk result (λ copy. map field_of copy.items ≡ map field_of fields.now.items) }
{
    let mut all = Vec::new(*fields.allocator());
    for f in fields {
        all.push(copy_field(f)?)?;
    }
    Ok(all)
}

#[cycle(copy)]
fn copy_field(f: &FieldTerm) -> Result<FieldTerm, AllocError>
    ensures { IfOk result (λ copy. field_of copy ≡ field_of f.now) }
{
    Ok(FieldTerm {
        object: f.object,
        name: f.name.clone()?,
        package: f.package.clone()?,
        embedded: f.embedded,
        ty: copy_of(&f.ty)?,
        tag: f.tag.clone()?,
    })
}

#[cycle(copy)]
fn copy_elems(elems: &Vec<ElemTerm>) -> Result<Vec<ElemTerm>, AllocError>
    ensures { IfOk result (λ copy. map elem_of copy.items ≡ map elem_of elems.now.items) }
{
    let mut all = Vec::new(*elems.allocator());
    for e in elems {
        all.push(copy_elem(e)?)?;
    }
    Ok(all)
}

#[cycle(copy)]
fn copy_elem(elem: &ElemTerm) -> Result<ElemTerm, AllocError>
    ensures { IfOk result (λ copy. elem_of copy ≡ elem_of elem.now) }
{
    match elem {
        ElemTerm::Method(d, name, package, f) => Ok(ElemTerm::Method(
            *d,
            name.clone()?,
            package.clone()?,
            copy_func(f)?,
        )),
        ElemTerm::Union(us) => Ok(ElemTerm::Union(copy_unions(us)?)),
    }
}

#[cycle(copy)]
fn copy_unions(terms: &Vec<UnionTerm>) -> Result<Vec<UnionTerm>, AllocError>
    ensures { IfOk result (λ copy. map union_term_of copy.items ≡ map union_term_of terms.now.items) }
{
    let mut all = Vec::new(*terms.allocator());
    for u in terms {
        all.push(copy_union(u)?)?;
    }
    Ok(all)
}

#[cycle(copy)]
fn copy_union(u: &UnionTerm) -> Result<UnionTerm, AllocError>
    ensures { IfOk result (λ copy. union_term_of copy ≡ union_term_of u.now) }
{
    Ok(UnionTerm {
        tilde: u.tilde,
        ty: copy_of(&u.ty)?,
    })
}
