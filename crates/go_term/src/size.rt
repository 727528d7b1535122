// How deep a term is, and how many nodes it has (own: "Limits").
ghost use Rattle.std.specs.Prelude.{◌≡◌, ◌+◌, ◌≤◌, map, max, slice_get, unwrap_or};
ghost use Rattle.go_term.specs.Sizes as spec;
ghost use Rattle.go_term.specs.Substitution.{subst, subst_all};
ghost use Rattle.go_term.specs.Types.{parts_of};
ghost use Rattle.go_term.specs.View.{elem_of, field_of, signature_of, type_of, union_term_of};

use crate::fault::TermFault;
use crate::places::place_of;
use crate::term::{ElemTerm, FieldTerm, FuncTerm, Term, UnionTerm};
use go_base::ObjId;

const MOST_DEPTH: usize = 256;

const MOST_NODES: usize = 65_536;

/// How deep a type is, and how many nodes it has as a tree: at most 257 and 65,537, which stand for more too.
#[derive(Clone, Copy, Debug, PartialEq, Eq)]
pub struct TermSize {
    pub depth: usize,
    pub nodes: usize,
}

/// Arguments for type parameters, each known by its declaration and its place there, with the arguments' sizes.
#[derive(Clone, Copy)]
pub struct Arguments<'a> {
    pub from: &'a [(ObjId, usize)],
    pub to: &'a [Term],
    pub sizes: &'a [TermSize],
}

impl TermSize {
    /// Deep where a type of this size is too deep, else Large where it has too many nodes.
    pub fn check(self) -> Result<(), TermFault>
        ensures { result ≡ spec.check_of self }
    {
        if self.depth > MOST_DEPTH {
            Err(TermFault::Deep)
        } else if self.nodes > MOST_NODES {
            Err(TermFault::Large)
        } else {
            Ok(())
        }
    }

    // That of a type with parts of this size.
    fn over(self) -> TermSize
        requires depth { self.depth ≤ 257 }
        requires nodes { self.nodes ≤ 65537 }
        ensures { result ≡ spec.size_by (1 + self.depth) (1 + self.nodes) }
    {
        TermSize {
            depth: (1 + self.depth).min(MOST_DEPTH + 1),
            nodes: (1 + self.nodes).min(MOST_NODES + 1),
        }
    }

    // That of parts of both sizes.
    fn beside(self, other: TermSize) -> TermSize
        requires nodes { self.nodes ≤ 65537 }
        requires other { other.nodes ≤ 65537 }
        ensures { result ≡ spec.size_by (max self.depth other.depth) (self.nodes + other.nodes) }
    {
        TermSize {
            depth: self.depth.max(other.depth).min(MOST_DEPTH + 1),
            nodes: (self.nodes + other.nodes).min(MOST_NODES + 1),
        }
    }
}

impl Term {
    /// How deep the type is, and how many nodes it has.
    pub fn size(&self) -> TermSize
        ensures { result ≡ spec.size_of (type_of self.now) }
    {
        let none = Arguments {
            from: &[],
            to: &[],
            sizes: &[],
        };
        size_of(self, &none)
    }

    /// The same of the type that it becomes with these arguments, which is not made.
    pub fn size_with(&self, arguments: &Arguments) -> TermSize
        requires { spec.AreSized arguments.now }
        ensures { result
            ≡ spec.size_of (subst arguments.now.from.now (map type_of arguments.now.to.now) (type_of self.now)) }
    {
        size_of(self, arguments)
    }
}

// A type without parts.
fn leaf() -> TermSize
    ensures { result ≡ spec.size_by 1 1 }
{
    TermSize { depth: 1, nodes: 1 }
}

// No type.
fn nothing() -> TermSize
    ensures { result ≡ spec.size_by 0 0 }
{
    TermSize { depth: 0, nodes: 0 }
}

#[cycle(size)]
fn size_of(term: &Term, with: &Arguments) -> TermSize
    requires { spec.AreSized with.now }
    ensures { result ≡ spec.size_of (subst with.now.from.now (map type_of with.now.to.now) (type_of term.now)) }
{
    match term {
        Term::Basic(_) => leaf(),
        Term::Pointer(t) => size_of(t, with).over(),
        Term::Slice(t) => size_of(t, with).over(),
        Term::Array(_, t) => size_of(t, with).over(),
        Term::Map(k, v) => size_of(k, with).beside(size_of(v, with)).over(),
        Term::Chan(_, t) => size_of(t, with).over(),
        Term::Func(f) => size_of_func(f, with).over(),
        Term::Struct(fs) => size_of_fields(fs, with).over(),
        Term::Interface(es) => size_of_elems(es, with).over(),
        Term::Tuple(ts) => size_of_list(ts, with).over(),
        Term::Named(_, ts) => size_of_list(ts, with).over(),
        Term::Param(d, i) => size_of_param(*d, *i, with),
        Term::Bound(_) => leaf(),
    }
}

// The size of the argument for a parameter, or of the parameter itself.
fn size_of_param(d: ObjId, i: usize, with: &Arguments) -> TermSize
    requires { spec.AreSized with.now }
    ensures { result ≡ spec.size_of (subst with.now.from.now (map type_of with.now.to.now) (spec.param_type d i)) }
{
    match place_of(with.from, d, i) {
        Some(place) => size_at(with.sizes, place),
        None => leaf(),
    }
}

// The size at a place, or that of a type without parts.
fn size_at(sizes: &[TermSize], place: usize) -> TermSize
    ensures { result ≡ unwrap_or (slice_get sizes.now place) (spec.size_by 1 1) }
{
    match sizes.get(place) {
        Some(size) => *size,
        None => leaf(),
    }
}

#[cycle(size)]
fn size_of_func(f: &FuncTerm, with: &Arguments) -> TermSize
    requires { spec.AreSized with.now }
    ensures { result
        ≡ spec.size_of_all (subst_all with.now.from.now (map type_of with.now.to.now) (signature_of f.now).parts) }
{
    size_of_list(&f.params, with).beside(size_of_list(&f.results, with))
}

#[cycle(size)]
fn size_of_list(terms: &[Term], with: &Arguments) -> TermSize
    requires { spec.AreSized with.now }
    ensures { result
        ≡ spec.size_of_all (subst_all with.now.from.now (map type_of with.now.to.now)
        (parts_of (map type_of terms.now))) }
{
    let mut all = nothing();
    for t in terms {
        all = all.beside(size_of(t, with));
    }
    all
}

#[cycle(size)]
fn size_of_fields(fields: &[FieldTerm], with: &Arguments) -> TermSize
    requires { spec.AreSized with.now }
    ensures { result
        ≡ spec.size_of_all (subst_all with.now.from.now (map type_of with.now.to.now)
        (parts_of (map field_of fields.now))) }
{
    let mut all = nothing();
    for f in fields {
        all = all.beside(size_of_field(f, with));
    }
    all
}

#[cycle(size)]
fn size_of_field(field: &FieldTerm, with: &Arguments) -> TermSize
    requires { spec.AreSized with.now }
    ensures { result ≡ spec.size_of (subst with.now.from.now (map type_of with.now.to.now) (field_of field.now)) }
{
    size_of(&field.ty, with)
}

#[cycle(size)]
fn size_of_elems(elems: &[ElemTerm], with: &Arguments) -> TermSize
    requires { spec.AreSized with.now }
    ensures { result
        ≡ spec.size_of_all (subst_all with.now.from.now (map type_of with.now.to.now)
        (parts_of (map elem_of elems.now))) }
{
    let mut all = nothing();
    for e in elems {
        all = all.beside(size_of_elem(e, with));
    }
    all
}

#[cycle(size)]
fn size_of_elem(elem: &ElemTerm, with: &Arguments) -> TermSize
    requires { spec.AreSized with.now }
    ensures { result ≡ spec.size_of (subst with.now.from.now (map type_of with.now.to.now) (elem_of elem.now)) }
{
    match elem {
        ElemTerm::Method(_, _, _, f) => size_of_func(f, with),
        ElemTerm::Union(us) => size_of_unions(us, with),
    }
}

#[cycle(size)]
fn size_of_unions(terms: &[UnionTerm], with: &Arguments) -> TermSize
    requires { spec.AreSized with.now }
    ensures { result
        ≡ spec.size_of_all (subst_all with.now.from.now (map type_of with.now.to.now)
        (parts_of (map union_term_of terms.now))) }
{
    let mut all = nothing();
    for u in terms {
        all = all.beside(size_of_union(u, with));
    }
    all
}

#[cycle(size)]
fn size_of_union(term: &UnionTerm, with: &Arguments) -> TermSize
    requires { spec.AreSized with.now }
    ensures { result ≡ spec.size_of (subst with.now.from.now (map type_of with.now.to.now) (union_term_of term.now)) }
{
    size_of(&term.ty, with)
}
