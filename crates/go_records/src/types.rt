// The text of types.
ghost use Rattle.std.specs.Prelude.{ℕ, ◌≡◌, [], ◌++◌, ◌==◌, ◌&&◌, if◌then◌else◌, List, IfOk, OnOk, codes, decimal, map};
ghost use Rattle.go_term.specs.Basics.{basic_text};
ghost use Rattle.go_term.specs.Types.{more_parts, no_parts, parts_of};
ghost use Rattle.go_term.specs.View.{elem_of, field_of, signature_of, type_of, union_term_of};
ghost use Rattle.go_report.specs.Report.{NamedData, named_view};
ghost use Rattle.go_report.specs.Text.Types as texts;

use crate::names::Names;
use crate::objects::{put_object, put_param};
use go_num::put_quoted;
use go_term::{Basic, Dir, ElemTerm, FieldTerm, FuncTerm, Term, UnionTerm};
use std::alloc::{AllocError, Global};

/// The text of a type, by the objects that the types of its package's lines name.
pub fn type_text(alloc: Global, named: &Names, term: &Term) -> Result<Vec<u8>, AllocError>
    ensures { IfOk result (λ text. text.items ≡ texts.type_text (map named_view named.now) (type_of term.now)) }
{
    let mut out = Vec::new(alloc);
    put_type(alloc, &mut out, named, term)?;
    Ok(out)
}

#[cycle(types)]
fn put_type(alloc: Global, out: &mut Vec<u8>, named: &Names, term: &Term) -> Result<(), AllocError>
    ensures { OnOk result (out.new.items ≡ out.old.items ++ texts.type_text (map named_view named.now) (type_of term.now)) }
{
    match term {
        Term::Basic(basic) => put_basic(alloc, out, *basic),
        Term::Pointer(t) => put_around(alloc, out, named, (b"*", b""), t),
        Term::Slice(t) => put_around(alloc, out, named, (b"[]", b""), t),
        Term::Array(n, t) => {
            put_length(alloc, out, *n)?;
            put_type(alloc, out, named, t)
        }
        Term::Map(k, v) => {
            put_around(alloc, out, named, (b"map[", b"]"), k)?;
            put_type(alloc, out, named, v)
        }
        Term::Chan(d, t) => put_around(alloc, out, named, around_channel(*d, t), t),
        Term::Func(f) => {
            out.extend_from_slice(b"func")?;
            put_signature(alloc, out, named, f)
        }
        Term::Struct(fs) => put_fields(alloc, out, named, fs),
        Term::Interface(es) => put_elems(alloc, out, named, es),
        Term::Tuple(ts) => put_list(alloc, out, named, (b"(", b")"), ts, false),
        Term::Named(d, ts) => {
            put_object(alloc, out, named, *d)?;
            put_list(alloc, out, named, around_arguments(ts), ts, false)
        }
        Term::Param(d, i) => put_param(out, named, *d, *i),
        Term::Bound(_) => Ok(()),
    }
}

// A type between two texts.
#[cycle(types)]
fn put_around(
    alloc: Global,
    out: &mut Vec<u8>,
    named: &Names,
    around: (&[u8], &[u8]),
    term: &Term,
) -> Result<(), AllocError>
    ensures { OnOk result (out.new.items ≡ out.old.items ++ (around.entry.0.now ++ (texts.type_text (map named_view named.now) (type_of term.now) ++ around.entry.1.now))) }
{
    out.extend_from_slice(around.0)?;
    put_type(alloc, out, named, term)?;
    out.extend_from_slice(around.1)
}

// Types between two texts, with commas; with `...` before the last where they are the parameters of a variadic function.
#[cycle(types)]
fn put_list(
    alloc: Global,
    out: &mut Vec<u8>,
    named: &Names,
    around: (&[u8], &[u8]),
    terms: &[Term],
    variadic: bool,
) -> Result<(), AllocError>
    ensures { OnOk result (out.new.items ≡ out.old.items ++ (around.entry.0.now ++ (texts.comma_list (if variadic then texts.with_dots (texts.texts_of (map named_view named.now) (parts_of (map type_of terms.now))) else texts.texts_of (map named_view named.now) (parts_of (map type_of terms.now))) ++ around.entry.1.now))) }
{
    out.extend_from_slice(around.0)?;
    let mut behind = false;
    let mut left = terms.len();
    for t in terms {
        left -= 1;
        put_if(out, behind, b", ")?;
        put_dots(out, variadic, left)?;
        put_type(alloc, out, named, t)?;
        behind = true;
    }
    out.extend_from_slice(around.1)
}

// Parameters and results.
#[cycle(types)]
fn put_signature(
    alloc: Global,
    out: &mut Vec<u8>,
    named: &Names,
    f: &FuncTerm,
) -> Result<(), AllocError>
    ensures { OnOk result (out.new.items ≡ out.old.items ++ texts.signature_text (map named_view named.now) (signature_of f.now).variadic (signature_of f.now).parts) }
{
    put_list(alloc, out, named, (b"(", b")"), &f.params, f.variadic)?;
    put_list(
        alloc,
        out,
        named,
        around_results(&f.results),
        &f.results,
        false,
    )
}

#[cycle(types)]
fn put_fields(
    alloc: Global,
    out: &mut Vec<u8>,
    named: &Names,
    fields: &[FieldTerm],
) -> Result<(), AllocError>
    ensures { OnOk result (out.new.items ≡ out.old.items ++ (codes "struct{" ++ (texts.joined (codes "; ") (texts.texts_of (map named_view named.now) (parts_of (map field_of fields.now))) ++ codes "}"))) }
{
    out.extend_from_slice(b"struct{")?;
    let mut behind = false;
    for f in fields {
        put_if(out, behind, b"; ")?;
        put_field(alloc, out, named, f)?;
        behind = true;
    }
    out.extend_from_slice(b"}")
}

#[cycle(types)]
fn put_field(
    alloc: Global,
    out: &mut Vec<u8>,
    named: &Names,
    field: &FieldTerm,
) -> Result<(), AllocError>
    ensures { OnOk result (out.new.items ≡ out.old.items ++ texts.type_text (map named_view named.now) (field_of field.now)) }
{
    put_field_name(out, field.embedded, field.name.as_bytes())?;
    put_type(alloc, out, named, &field.ty)?;
    put_tag(out, field.tag.as_slice())
}

#[cycle(types)]
fn put_elems(
    alloc: Global,
    out: &mut Vec<u8>,
    named: &Names,
    elems: &[ElemTerm],
) -> Result<(), AllocError>
    ensures { OnOk result (out.new.items ≡ out.old.items ++ (codes "interface{" ++ (texts.joined (codes "; ") (texts.texts_of (map named_view named.now) (parts_of (map elem_of elems.now))) ++ codes "}"))) }
{
    out.extend_from_slice(b"interface{")?;
    let mut behind = false;
    for e in elems {
        put_if(out, behind, b"; ")?;
        put_elem(alloc, out, named, e)?;
        behind = true;
    }
    out.extend_from_slice(b"}")
}

#[cycle(types)]
fn put_elem(
    alloc: Global,
    out: &mut Vec<u8>,
    named: &Names,
    elem: &ElemTerm,
) -> Result<(), AllocError>
    ensures { OnOk result (out.new.items ≡ out.old.items ++ texts.type_text (map named_view named.now) (elem_of elem.now)) }
{
    match elem {
        ElemTerm::Method(_, name, _, f) => {
            out.extend_from_slice(name.as_bytes())?;
            put_signature(alloc, out, named, f)
        }
        ElemTerm::Union(us) => put_union(alloc, out, named, us),
    }
}

#[cycle(types)]
fn put_union(
    alloc: Global,
    out: &mut Vec<u8>,
    named: &Names,
    terms: &[UnionTerm],
) -> Result<(), AllocError>
    ensures { OnOk result (out.new.items ≡ out.old.items ++ texts.joined (codes "|") (texts.texts_of (map named_view named.now) (parts_of (map union_term_of terms.now)))) }
{
    let mut behind = false;
    for u in terms {
        put_if(out, behind, b"|")?;
        put_union_term(alloc, out, named, u)?;
        behind = true;
    }
    Ok(())
}

#[cycle(types)]
fn put_union_term(
    alloc: Global,
    out: &mut Vec<u8>,
    named: &Names,
    term: &UnionTerm,
) -> Result<(), AllocError>
    ensures { OnOk result (out.new.items ≡ out.old.items ++ texts.type_text (map named_view named.now) (union_term_of term.now)) }
{
    put_if(out, term.tilde, b"~")?;
    put_type(alloc, out, named, &term.ty)
}

// The text, where the test is true.
fn put_if(out: &mut Vec<u8>, test: bool, text: &[u8]) -> Result<(), AllocError>
    ensures { OnOk result (out.new.items ≡ out.old.items ++ (if test then text.now else [])) }
{
    if test {
        out.extend_from_slice(text)
    } else {
        Ok(())
    }
}

// `...` before the last parameter of a variadic function: `left` is how many are behind it.
fn put_dots(out: &mut Vec<u8>, variadic: bool, left: usize) -> Result<(), AllocError>
    ensures { OnOk result (out.new.items ≡ out.old.items ++ (if variadic && (left == 0) then codes "..." else [])) }
{
    put_if(out, variadic && left == 0, b"...")
}

fn put_basic(alloc: Global, out: &mut Vec<u8>, basic: Basic) -> Result<(), AllocError>
    ensures { OnOk result (out.new.items ≡ out.old.items ++ basic_text basic) }
{
    let text = format!(in alloc; "{basic}")?;
    out.extend_from_slice(text.as_bytes())
}

// The length of an array in brackets.
fn put_length(alloc: Global, out: &mut Vec<u8>, n: u64) -> Result<(), AllocError>
    ensures { OnOk result (out.new.items ≡ out.old.items ++ (codes "[" ++ (decimal n ++ codes "]"))) }
{
    let text = format!(in alloc; "[{n}]")?;
    out.extend_from_slice(text.as_bytes())
}

// What stands around the type of a channel's elements.
fn around_channel(d: Dir, term: &Term) -> (&'static [u8], &'static [u8])
    ensures { (text : List ℕ) → texts.channel_text d (more_parts (type_of term.now) no_parts) text ≡ result.0.now ++ (text ++ result.1.now) }
{
    match d {
        Dir::Receive => (b"<-chan ", b""),
        Dir::Send => (b"chan<- ", b""),
        Dir::Both => {
            if is_receive(term) {
                (b"chan (", b")")
            } else {
                (b"chan ", b"")
            }
        }
    }
}

// Whether it is a channel of which one can only receive.
fn is_receive(term: &Term) -> bool
    ensures { result ≡ texts.receives (more_parts (type_of term.now) no_parts) }
{
    match term {
        Term::Chan(Dir::Receive, _) => true,
        _ => false,
    }
}

// What stands around type arguments: brackets where there are any.
fn around_arguments(terms: &[Term]) -> (&'static [u8], &'static [u8])
    ensures { (objects : List NamedData) → texts.arguments_text (texts.texts_of objects (parts_of (map type_of terms.now))) ≡ result.0.now ++ (texts.comma_list (texts.texts_of objects (parts_of (map type_of terms.now))) ++ result.1.now) }
{
    match terms {
        [] => (b"", b""),
        [_, ..] => (b"[", b"]"),
    }
}

// What stands around results: a space before one, parentheses too around several.
fn around_results(terms: &[Term]) -> (&'static [u8], &'static [u8])
    ensures { (objects : List NamedData) → texts.results_text (texts.texts_of objects (parts_of (map type_of terms.now))) ≡ result.0.now ++ (texts.comma_list (texts.texts_of objects (parts_of (map type_of terms.now))) ++ result.1.now) }
{
    match terms {
        [] => (b"", b""),
        [_] => (b" ", b""),
        [_, _, ..] => (b" (", b")"),
    }
}

// The name of a field that is not embedded, and a space.
fn put_field_name(out: &mut Vec<u8>, embedded: bool, name: &[u8]) -> Result<(), AllocError>
    ensures { OnOk result (out.new.items ≡ out.old.items ++ (if embedded then [] else name.now ++ codes " ")) }
{
    if embedded {
        return Ok(());
    }
    out.extend_from_slice(name)?;
    out.extend_from_slice(b" ")
}

// A tag in quotes, where there is one.
fn put_tag(out: &mut Vec<u8>, tag: &[u8]) -> Result<(), AllocError>
    ensures { OnOk result (out.new.items ≡ out.old.items ++ texts.tag_text tag.now) }
{
    if tag.is_empty() {
        return Ok(());
    }
    out.extend_from_slice(b" ")?;
    put_quoted(out, tag)
}
