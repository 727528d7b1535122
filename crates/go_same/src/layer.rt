// Layers of types: what stands at a type, but for the types in it (Go specification, "Type identity").
ghost use Rattle.std.specs.Prelude.{◌≡◌, ◌++◌, ◌&&◌, [], ◌∷◌, IfOk, OnOk, map};
ghost use Rattle.std.specs.List.{flat_map, list_all, zip};
ghost use Rattle.go_term.specs.Shapes.{elem_tree, field_tree, func_parts, union_tree};
ghost use Rattle.go_term.specs.Types.{parts_of};
ghost use Rattle.go_judge.specs.Types.Heads.{same_name, same_truth};
ghost use Rattle.go_judge.specs.Types.TypeSets.{home_of};
ghost use Rattle.go_same.specs.Layers as spec;

use crate::basics::{basic_number, dir_number};
use go_base::{Name, NoMemory};
use go_names::is_exported;
use go_term::{ElemShape, FieldShape, FuncShape, Shape, Ty, UnionShape};
use std::alloc::Global;

/// Of which names of fields and methods the path of the package counts: of each, or of those that are not exported.
#[derive(Clone, Copy, Debug)]
pub(crate) enum Homes {
    Each,
    Unexported,
}

/// Whether two layers have the same form, with as many types at each place: the same names, paths that count, tags,
/// and numbers, but for the objects of fields and methods.
pub(crate) fn same_layer(homes: Homes, x: &Shape, y: &Shape) -> bool
    ensures { result ≡ spec.same_layer homes x.now y.now }
{
    match (x, y) {
        (Shape::Basic(a), Shape::Basic(b)) => basic_number(*a) == basic_number(*b),
        (Shape::Pointer(_), Shape::Pointer(_)) => true,
        (Shape::Slice(_), Shape::Slice(_)) => true,
        (Shape::Array(m, _), Shape::Array(n, _)) => *m == *n,
        (Shape::Map(_, _), Shape::Map(_, _)) => true,
        (Shape::Chan(d, _), Shape::Chan(e, _)) => dir_number(*d) == dir_number(*e),
        (Shape::Func(f), Shape::Func(g)) => same_func(homes, f, g),
        (Shape::Struct(fs), Shape::Struct(gs)) => same_fields(homes, fs, gs),
        (Shape::Interface(es), Shape::Interface(fs)) => same_elems(homes, es, fs),
        (Shape::Tuple(ts), Shape::Tuple(us)) => same_count(homes, ts, us),
        (Shape::Named(d, ts), Shape::Named(e, us)) => d.0 == e.0 && same_count(homes, ts, us),
        (Shape::Param(d, i), Shape::Param(e, j)) => d.0 == e.0 && *i == *j,
        (Shape::Bound(i), Shape::Bound(j)) => *i == *j,
        _ => false,
    }
}

/// Whether both layers are those of interface literals.
pub(crate) fn both_interfaces(x: &Shape, y: &Shape) -> bool
    ensures { result ≡ spec.both_interfaces x.now y.now }
{
    matches!((x, y), (Shape::Interface(_), Shape::Interface(_)))
}

// Whether there are as many types.
fn same_count(homes: Homes, ts: &[Ty], us: &[Ty]) -> bool
    ensures { result ≡ spec.all_same_heads homes (parts_of (map spec.hole ts.now)) (parts_of (map spec.hole us.now)) }
{
    ts.len() == us.len()
}

/// Whether two signatures have as many parameters and results, both variadic or neither.
pub(crate) fn same_func(homes: Homes, f: &FuncShape, g: &FuncShape) -> bool
    ensures { result ≡ (same_truth f.now.variadic g.now.variadic
        && spec.all_same_heads homes (func_parts spec.hole f.now) (func_parts spec.hole g.now)) }
{
    same_bools(f.variadic, g.variadic)
        && same_count(homes, &f.params, &g.params)
        && same_count(homes, &f.results, &g.results)
}

fn same_bools(a: bool, b: bool) -> bool
    ensures { result ≡ same_truth a b }
{
    if a { b } else { !b }
}

fn same_fields(homes: Homes, fs: &[FieldShape], gs: &[FieldShape]) -> bool
    ensures { result ≡ spec.all_same_heads homes (parts_of (map (field_tree spec.hole) fs.now))
        (parts_of (map (field_tree spec.hole) gs.now)) }
{
    fs.len() == gs.len() && all_fields(homes, fs, gs)
}

fn all_fields(homes: Homes, fs: &[FieldShape], gs: &[FieldShape]) -> bool
    ensures { result ≡ list_all (λ p. spec.same_heads homes (field_tree spec.hole p.0) (field_tree spec.hole p.1))
        (zip fs.now gs.now) }
{
    fs.iter().zip(gs).all(|(f, g)| same_field(homes, f, g))
}

fn same_field(homes: Homes, f: &FieldShape, g: &FieldShape) -> bool
    ensures { result ≡ spec.same_heads homes (field_tree spec.hole f.now) (field_tree spec.hole g.now) }
{
    same_name(homes, &f.name, &f.package, &g.name, &g.package)
        && same_bools(f.embedded, g.embedded)
        && f.tag.as_slice() == g.tag.as_slice()
}

// Whether two names, declared in the packages p and q, are the same.
fn same_name(homes: Homes, a: &Name, p: &Name, b: &Name, q: &Name) -> bool
    ensures { result ≡ same_name (spec.home_by homes) a.now p.now b.now q.now }
{
    a.as_bytes() == b.as_bytes() && home(homes, a, p) == home(homes, b, q)
}

// The path that counts of a name that is declared in a package.
fn home<'a>(homes: Homes, name: &Name, path: &'a Name) -> &'a [u8]
    ensures { result.now ≡ spec.home_by homes name.now path.now }
{
    match homes {
        Homes::Each => path.as_bytes(),
        Homes::Unexported => home_of(name, path),
    }
}

fn home_of<'a>(name: &Name, path: &'a Name) -> &'a [u8]
    ensures { result.now ≡ home_of name.now path.now }
{
    if is_exported(name) {
        &[]
    } else {
        path.as_bytes()
    }
}

fn same_elems(homes: Homes, es: &[ElemShape], fs: &[ElemShape]) -> bool
    ensures { result ≡ spec.all_same_heads homes (parts_of (map (elem_tree spec.hole) es.now))
        (parts_of (map (elem_tree spec.hole) fs.now)) }
{
    es.len() == fs.len() && all_elems(homes, es, fs)
}

fn all_elems(homes: Homes, es: &[ElemShape], fs: &[ElemShape]) -> bool
    ensures { result ≡ list_all (λ p. spec.same_heads homes (elem_tree spec.hole p.0) (elem_tree spec.hole p.1))
        (zip es.now fs.now) }
{
    es.iter().zip(fs).all(|(e, f)| same_elem(homes, e, f))
}

fn same_elem(homes: Homes, e: &ElemShape, f: &ElemShape) -> bool
    ensures { result ≡ spec.same_heads homes (elem_tree spec.hole e.now) (elem_tree spec.hole f.now) }
{
    match (e, f) {
        (ElemShape::Method(_, a, p, f), ElemShape::Method(_, b, q, g)) => {
            same_name(homes, a, p, b, q) && same_func(homes, f, g)
        }
        (ElemShape::Union(us), ElemShape::Union(vs)) => same_unions(homes, us, vs),
        _ => false,
    }
}

fn same_unions(homes: Homes, us: &[UnionShape], vs: &[UnionShape]) -> bool
    ensures { result ≡ spec.all_same_heads homes (parts_of (map (union_tree spec.hole) us.now))
        (parts_of (map (union_tree spec.hole) vs.now)) }
{
    us.len() == vs.len() && all_unions(homes, us, vs)
}

fn all_unions(homes: Homes, us: &[UnionShape], vs: &[UnionShape]) -> bool
    ensures { result ≡ list_all (λ p. spec.same_heads homes (union_tree spec.hole p.0) (union_tree spec.hole p.1))
        (zip us.now vs.now) }
{
    us.iter().zip(vs).all(|(u, v)| same_bools(u.tilde, v.tilde))
}

/// The types in a layer, in order. An error is want of memory.
pub(crate) fn types_in<'a>(alloc: Global, x: &'a Shape) -> Result<Vec<&'a Ty>, NoMemory>
    ensures { IfOk result (λ ts. spec.lent ts.items ≡ spec.types_in x.now) }
{
    let mut all = Vec::new(alloc);
    push_types(x, &mut all)?;
    Ok(all)
}

fn push_types<'a>(x: &'a Shape, all: &mut Vec<&'a Ty>) -> Result<(), NoMemory>
    ensures { OnOk result (spec.lent all.new.items ≡ spec.lent all.old.items ++ spec.types_in x.now) }
{
    match x {
        Shape::Basic(_) => Ok(()),
        Shape::Pointer(t) => push_one(t, all),
        Shape::Slice(t) => push_one(t, all),
        Shape::Array(_, t) => push_one(t, all),
        Shape::Map(k, v) => push_two(k, v, all),
        Shape::Chan(_, t) => push_one(t, all),
        Shape::Func(f) => push_func(f, all),
        Shape::Struct(fields) => push_fields(fields, all),
        Shape::Interface(elems) => push_elems(elems, all),
        Shape::Tuple(ts) => push_all(ts, all),
        Shape::Named(_, ts) => push_all(ts, all),
        Shape::Param(_, _) => Ok(()),
        Shape::Bound(_) => Ok(()),
    }
}

fn push_one<'a>(t: &'a Ty, all: &mut Vec<&'a Ty>) -> Result<(), NoMemory>
    ensures { OnOk result (spec.lent all.new.items ≡ spec.lent all.old.items ++ (t.now ∷ [])) }
{
    all.push(t)?;
    Ok(())
}

fn push_two<'a>(k: &'a Ty, v: &'a Ty, all: &mut Vec<&'a Ty>) -> Result<(), NoMemory>
    ensures { OnOk result (spec.lent all.new.items ≡ spec.lent all.old.items ++ (k.now ∷ v.now ∷ [])) }
{
    all.push(k)?;
    all.push(v)?;
    Ok(())
}

/// The types of the parameters and those of the results. An error is want of memory.
pub(crate) fn types_in_func<'a>(alloc: Global, f: &'a FuncShape) -> Result<Vec<&'a Ty>, NoMemory>
    ensures { IfOk result (λ ts. spec.lent ts.items ≡ spec.types_in_func f.now) }
{
    let mut all = Vec::new(alloc);
    push_func(f, &mut all)?;
    Ok(all)
}

fn push_func<'a>(f: &'a FuncShape, all: &mut Vec<&'a Ty>) -> Result<(), NoMemory>
    ensures { OnOk result (spec.lent all.new.items ≡ spec.lent all.old.items ++ spec.types_in_func f.now) }
{
    push_all(&f.params, all)?;
    push_all(&f.results, all)
}

fn push_all<'a>(ts: &'a [Ty], all: &mut Vec<&'a Ty>) -> Result<(), NoMemory>
    ensures { OnOk result (spec.lent all.new.items ≡ spec.lent all.old.items ++ ts.now) }
{
    for t in ts {
        all.push(t)?;
    }
    Ok(())
}

fn push_fields<'a>(fields: &'a [FieldShape], all: &mut Vec<&'a Ty>) -> Result<(), NoMemory>
    ensures { OnOk result (spec.lent all.new.items ≡ spec.lent all.old.items ++ map (λ f. f.ty) fields.now) }
{
    for f in fields {
        all.push(&f.ty)?;
    }
    Ok(())
}

fn push_elems<'a>(elems: &'a [ElemShape], all: &mut Vec<&'a Ty>) -> Result<(), NoMemory>
    ensures { OnOk result (spec.lent all.new.items
        ≡ spec.lent all.old.items ++ flat_map spec.types_in_elem elems.now) }
{
    for e in elems {
        push_elem(e, all)?;
    }
    Ok(())
}

fn push_elem<'a>(elem: &'a ElemShape, all: &mut Vec<&'a Ty>) -> Result<(), NoMemory>
    ensures { OnOk result (spec.lent all.new.items ≡ spec.lent all.old.items ++ spec.types_in_elem elem.now) }
{
    match elem {
        ElemShape::Method(_, _, _, f) => push_func(f, all),
        ElemShape::Union(us) => push_unions(us, all),
    }
}

fn push_unions<'a>(us: &'a [UnionShape], all: &mut Vec<&'a Ty>) -> Result<(), NoMemory>
    ensures { OnOk result (spec.lent all.new.items ≡ spec.lent all.old.items ++ map (λ u. u.ty) us.now) }
{
    for u in us {
        all.push(&u.ty)?;
    }
    Ok(())
}
