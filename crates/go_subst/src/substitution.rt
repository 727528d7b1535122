// Types with arguments in the place of type parameters (Go specification, "Instantiations").
ghost use Rattle.std.specs.Prelude.{◌≡◌, IfErr, IfOk, None, length, map, slice_get, unwrap_or};
ghost use Rattle.go_term.specs.Shapes.{IsCause};
ghost use Rattle.go_term.specs.Size.{size_fault};
ghost use Rattle.go_term.specs.Sizes.{param_type, size_of};
ghost use Rattle.go_term.specs.Substitution.{subst, subst_all};
ghost use Rattle.go_term.specs.View.{elem_of, field_of, signature_of, type_of, union_term_of};

use go_base::{NoMemory, ObjId};
use go_term::{
    Arguments, ElemTerm, FieldTerm, FuncTerm, Term, TermFault, TermSize, Ty, UnionTerm, place_of,
};
use std::alloc::Global;

/// The type with arguments in the place of type parameters, each known by its declaration and its place there. Deep
/// where it is deeper than 256, else Large where it has more than 65,536 nodes; it is measured before it is made.
pub fn subst(alloc: Global, t: &Ty, from: &[(ObjId, usize)], to: &[Ty]) -> Result<Ty, TermFault>
    requires { length from.now ≡ length to.now }
    ensures made { IfOk result (λ made. type_of made ≡ subst from.now (map type_of to.now) (type_of t.now)) }
    ensures fits { IfOk result (λ made. size_fault (subst from.now (map type_of to.now) (type_of t.now)) ≡ None) }
    ensures cause { IfErr result (λ fault. IsCause fault (subst from.now (map type_of to.now) (type_of t.now))) }
{
    let sizes = sizes_of(alloc, to)?;
    let with = Arguments {
        from,
        to,
        sizes: &sizes,
    };
    t.size_with(&with).check()?;
    Ok(put_in(alloc, t, &with)?)
}

// The sizes of these types.
fn sizes_of(alloc: Global, terms: &[Term]) -> Result<Vec<TermSize>, NoMemory>
    ensures { IfOk result (λ sizes. sizes.items ≡ map (λ t. size_of (type_of t)) terms.now) }
{
    let mut sizes = Vec::new(alloc);
    for t in terms {
        sizes.push(t.size())?;
    }
    Ok(sizes)
}

#[cycle(put)]
fn put_in(alloc: Global, term: &Term, with: &Arguments) -> Result<Term, NoMemory>
    ensures { IfOk result (λ made. type_of made
        ≡ subst with.now.from.now (map type_of with.now.to.now) (type_of term.now)) }
{
    match term {
        Term::Basic(b) => Ok(Term::Basic(*b)),
        Term::Pointer(t) => Ok(Term::Pointer(put_box(alloc, t, with)?)),
        Term::Slice(t) => Ok(Term::Slice(put_box(alloc, t, with)?)),
        Term::Array(n, t) => Ok(Term::Array(*n, put_box(alloc, t, with)?)),
        Term::Map(k, v) => Ok(Term::Map(put_box(alloc, k, with)?, put_box(alloc, v, with)?)),
        Term::Chan(d, t) => Ok(Term::Chan(*d, put_box(alloc, t, with)?)),
        Term::Func(f) => Ok(Term::Func(put_func(alloc, f, with)?)),
        Term::Struct(fs) => Ok(Term::Struct(put_fields(alloc, fs, with)?)),
        Term::Interface(es) => Ok(Term::Interface(put_elems(alloc, es, with)?)),
        Term::Tuple(ts) => Ok(Term::Tuple(put_list(alloc, ts, with)?)),
        Term::Named(d, ts) => Ok(Term::Named(*d, put_list(alloc, ts, with)?)),
        Term::Param(d, i) => argument(*d, *i, with),
        Term::Bound(k) => Ok(Term::Bound(*k)),
    }
}

#[cycle(put)]
fn put_box(alloc: Global, term: &Term, with: &Arguments) -> Result<Box<Term>, NoMemory>
    ensures { IfOk result (λ made. type_of made.value
        ≡ subst with.now.from.now (map type_of with.now.to.now) (type_of term.now)) }
{
    Ok(Box::new(alloc, put_in(alloc, term, with)?)?)
}

#[cycle(put)]
fn put_func(alloc: Global, f: &FuncTerm, with: &Arguments) -> Result<FuncTerm, NoMemory>
    ensures variadic { IfOk result (λ made. (signature_of made).variadic ≡ (signature_of f.now).variadic) }
    ensures parts { IfOk result (λ made. (signature_of made).parts
        ≡ subst_all with.now.from.now (map type_of with.now.to.now) (signature_of f.now).parts) }
{
    Ok(FuncTerm {
        params: put_list(alloc, &f.params, with)?,
        variadic: f.variadic,
        results: put_list(alloc, &f.results, with)?,
    })
}

#[cycle(put)]
fn put_list(alloc: Global, terms: &[Term], with: &Arguments) -> Result<Vec<Term>, NoMemory>
    ensures { IfOk result (λ made. map type_of made.items
        ≡ map (λ x. subst with.now.from.now (map type_of with.now.to.now) (type_of x)) terms.now) }
{
    let mut all = Vec::new(alloc);
    for t in terms {
        all.push(put_in(alloc, t, with)?)?;
    }
    Ok(all)
}

#[cycle(put)]
fn put_fields(
    alloc: Global,
    fields: &[FieldTerm],
    with: &Arguments,
) -> Result<Vec<FieldTerm>, NoMemory>
    ensures { IfOk result (λ made. map field_of made.items
        ≡ map (λ x. subst with.now.from.now (map type_of with.now.to.now) (field_of x)) fields.now) }
{
    let mut all = Vec::new(alloc);
    for f in fields {
        all.push(put_field(alloc, f, with)?)?;
    }
    Ok(all)
}

#[cycle(put)]
fn put_field(alloc: Global, f: &FieldTerm, with: &Arguments) -> Result<FieldTerm, NoMemory>
    ensures { IfOk result (λ made. field_of made
        ≡ subst with.now.from.now (map type_of with.now.to.now) (field_of f.now)) }
{
    Ok(FieldTerm {
        object: f.object,
        name: f.name.clone()?,
        package: f.package.clone()?,
        embedded: f.embedded,
        ty: put_in(alloc, &f.ty, with)?,
        tag: f.tag.clone()?,
    })
}

#[cycle(put)]
fn put_elems(alloc: Global, elems: &[ElemTerm], with: &Arguments) -> Result<Vec<ElemTerm>, NoMemory>
    ensures { IfOk result (λ made. map elem_of made.items
        ≡ map (λ x. subst with.now.from.now (map type_of with.now.to.now) (elem_of x)) elems.now) }
{
    let mut all = Vec::new(alloc);
    for e in elems {
        all.push(put_elem(alloc, e, with)?)?;
    }
    Ok(all)
}

#[cycle(put)]
fn put_elem(alloc: Global, elem: &ElemTerm, with: &Arguments) -> Result<ElemTerm, NoMemory>
    ensures { IfOk result (λ made. elem_of made
        ≡ subst with.now.from.now (map type_of with.now.to.now) (elem_of elem.now)) }
{
    match elem {
        ElemTerm::Method(d, name, package, f) => Ok(ElemTerm::Method(
            *d,
            name.clone()?,
            package.clone()?,
            put_func(alloc, f, with)?,
        )),
        ElemTerm::Union(us) => Ok(ElemTerm::Union(put_unions(alloc, us, with)?)),
    }
}

#[cycle(put)]
fn put_unions(
    alloc: Global,
    terms: &[UnionTerm],
    with: &Arguments,
) -> Result<Vec<UnionTerm>, NoMemory>
    ensures { IfOk result (λ made. map union_term_of made.items
        ≡ map (λ x. subst with.now.from.now (map type_of with.now.to.now) (union_term_of x)) terms.now) }
{
    let mut all = Vec::new(alloc);
    for u in terms {
        all.push(put_union(alloc, u, with)?)?;
    }
    Ok(all)
}

#[cycle(put)]
fn put_union(alloc: Global, u: &UnionTerm, with: &Arguments) -> Result<UnionTerm, NoMemory>
    ensures { IfOk result (λ made. union_term_of made
        ≡ subst with.now.from.now (map type_of with.now.to.now) (union_term_of u.now)) }
{
    Ok(UnionTerm {
        tilde: u.tilde,
        ty: put_in(alloc, &u.ty, with)?,
    })
}

// The argument for a type parameter, or the parameter itself.
fn argument(d: ObjId, i: usize, with: &Arguments) -> Result<Term, NoMemory>
    ensures { IfOk result (λ made. type_of made
        ≡ subst with.now.from.now (map type_of with.now.to.now) (param_type d i)) }
{
    match place_of(with.from, d, i) {
        Some(place) => argument_at(with.to, place, d, i),
        None => Ok(Term::Param(d, i)),
    }
}

// The argument at a place, or the parameter where there is none.
fn argument_at(to: &[Term], place: usize, d: ObjId, i: usize) -> Result<Term, NoMemory>
    ensures { IfOk result (λ made. type_of made
        ≡ unwrap_or (slice_get (map type_of to.now) place) (param_type d i)) }
{
    match to.get(place) {
        Some(term) => Ok(term.clone()?),
        None => Ok(Term::Param(d, i)),
    }
}
