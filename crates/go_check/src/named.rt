// The objects that the types of lines name (Go specification, "Types").
ghost use Rattle.std.specs.Prelude.{◌≡◌, ◌++◌, ◌∷◌, IfOk, OnOk, map};
ghost use Rattle.std.specs.List.{flat_map};
ghost use Rattle.std.specs.Option.{option_map};
ghost use Rattle.indexmap.specs.IndexMap.{insert_all};
ghost use Rattle.go_module.specs.Scopes.{same_object};
ghost use Rattle.go_report.specs.Outline as outlines;
ghost use Rattle.go_report.specs.PackageLines as spec;
ghost use Rattle.go_report.specs.Report.{defined_view, line_view, named_view, what_view};
ghost use Rattle.go_term.specs.Types.{parts_of};
ghost use Rattle.go_term.specs.View.{elem_of, field_of, signature_of, type_of, union_term_of};
ghost use Rattle.go_check.specs.View.{outline_view};

use crate::outline::Outline;
use go_base::NoMemory;
use go_module::ObjId;
use go_report::{DefKind, Line, NamedObject, What};
use go_term::{ElemTerm, FieldTerm, FuncTerm, Term, UnionTerm};
use indexmap::IndexMap;
use std::alloc::Global;

/// The objects that the types of these lines name, each once, in the order in which they first stand there. An error
/// is want of memory.
pub fn named_in(
    alloc: Global,
    outline: &Outline,
    lines: &[Line],
) -> Result<Vec<NamedObject>, NoMemory>
    ensures { IfOk result (λ named. map named_view named.items
        ≡ spec.named_in (outline_view outline.now) (map line_view lines.now)) }
{
    let mut objects = IndexMap::new(alloc);
    for line in lines {
        add_line(line, &mut objects)?;
    }
    let mut named = Vec::new(alloc);
    for d in objects.keys() {
        named.push(outline.named_by(alloc, *d)?)?;
    }
    Ok(named)
}

// Adds the objects that the types of a line name.
fn add_line(line: &Line, objects: &mut IndexMap<ObjId, ObjId>) -> Result<(), NoMemory>
    ensures { OnOk result (objects.new.entries ≡ insert_all same_object objects.old.entries
        (map (λ d. (d, d)) (spec.objects_in_what (what_view line.now.what)))) }
{
    match &line.what {
        What::Def(_, kind) => add_kind(kind, objects),
        What::Used(_, _) => Ok(()),
        What::Expr(_, _, term, _) => add_some(term, objects),
    }
}

// Adds the objects that the types of what a name is declared as name.
fn add_kind(kind: &DefKind, objects: &mut IndexMap<ObjId, ObjId>) -> Result<(), NoMemory>
    ensures { OnOk result (objects.new.entries ≡ insert_all same_object objects.old.entries
        (map (λ d. (d, d)) (spec.objects_in_defined (defined_view kind.now)))) }
{
    match kind {
        DefKind::Const(term, _) => add_type(term, objects),
        DefKind::Defined(term, right) => {
            add_type(term, objects)?;
            add_type(right, objects)
        }
        DefKind::Alias(term) => add_type(term, objects),
        DefKind::Var(term) => add_type(term, objects),
        DefKind::Field(term) => add_type(term, objects),
        DefKind::Func(term) => add_type(term, objects),
        DefKind::Package(_) => Ok(()),
    }
}

fn add_some(term: &Option<Term>, objects: &mut IndexMap<ObjId, ObjId>) -> Result<(), NoMemory>
    ensures { OnOk result (objects.new.entries ≡ insert_all same_object objects.old.entries
        (map (λ d. (d, d)) (spec.objects_in_some (option_map type_of term.now)))) }
{
    match term {
        Some(term) => add_type(term, objects),
        None => Ok(()),
    }
}

// Adds the objects that a type names.
#[cycle(named)]
fn add_type(term: &Term, objects: &mut IndexMap<ObjId, ObjId>) -> Result<(), NoMemory>
    ensures { OnOk result (objects.new.entries ≡ insert_all same_object objects.old.entries
        (map (λ d. (d, d)) (spec.objects_in_type (type_of term.now)))) }
{
    match term {
        Term::Basic(_) => Ok(()),
        Term::Pointer(t) => add_type(t, objects),
        Term::Slice(t) => add_type(t, objects),
        Term::Array(_, t) => add_type(t, objects),
        Term::Map(k, v) => {
            add_type(k, objects)?;
            add_type(v, objects)
        }
        Term::Chan(_, t) => add_type(t, objects),
        Term::Func(f) => add_func(f, objects),
        Term::Struct(fs) => add_fields(fs, objects),
        Term::Interface(es) => add_elems(es, objects),
        Term::Tuple(ts) => add_types(ts, objects),
        Term::Named(d, ts) => {
            objects.insert(*d, *d)?;
            add_types(ts, objects)
        }
        Term::Param(d, _) => {
            objects.insert(*d, *d)?;
            Ok(())
        }
        Term::Bound(_) => Ok(()),
    }
}

#[cycle(named)]
fn add_func(f: &FuncTerm, objects: &mut IndexMap<ObjId, ObjId>) -> Result<(), NoMemory>
    ensures { OnOk result (objects.new.entries ≡ insert_all same_object objects.old.entries
        (map (λ d. (d, d)) (spec.objects_in_parts (signature_of f.now).parts))) }
{
    add_types(&f.params, objects)?;
    add_types(&f.results, objects)
}

#[cycle(named)]
fn add_types(terms: &Vec<Term>, objects: &mut IndexMap<ObjId, ObjId>) -> Result<(), NoMemory>
    ensures { OnOk result (objects.new.entries ≡ insert_all same_object objects.old.entries
        (map (λ d. (d, d)) (spec.objects_in_parts (parts_of (map type_of terms.now.items))))) }
{
    for t in terms {
        add_type(t, objects)?;
    }
    Ok(())
}

#[cycle(named)]
fn add_fields(fields: &Vec<FieldTerm>, objects: &mut IndexMap<ObjId, ObjId>) -> Result<(), NoMemory>
    ensures { OnOk result (objects.new.entries ≡ insert_all same_object objects.old.entries
        (map (λ d. (d, d)) (spec.objects_in_parts (parts_of (map field_of fields.now.items))))) }
{
    for f in fields {
        add_type(&f.ty, objects)?;
    }
    Ok(())
}

#[cycle(named)]
fn add_elems(elems: &Vec<ElemTerm>, objects: &mut IndexMap<ObjId, ObjId>) -> Result<(), NoMemory>
    ensures { OnOk result (objects.new.entries ≡ insert_all same_object objects.old.entries
        (map (λ d. (d, d)) (spec.objects_in_parts (parts_of (map elem_of elems.now.items))))) }
{
    for e in elems {
        add_elem(e, objects)?;
    }
    Ok(())
}

#[cycle(named)]
fn add_elem(elem: &ElemTerm, objects: &mut IndexMap<ObjId, ObjId>) -> Result<(), NoMemory>
    ensures { OnOk result (objects.new.entries ≡ insert_all same_object objects.old.entries
        (map (λ d. (d, d)) (spec.objects_in_type (elem_of elem.now)))) }
{
    match elem {
        ElemTerm::Method(_, _, _, f) => add_func(f, objects),
        ElemTerm::Union(us) => add_unions(us, objects),
    }
}

#[cycle(named)]
fn add_unions(terms: &Vec<UnionTerm>, objects: &mut IndexMap<ObjId, ObjId>) -> Result<(), NoMemory>
    ensures { OnOk result (objects.new.entries ≡ insert_all same_object objects.old.entries
        (map (λ d. (d, d)) (spec.objects_in_parts (parts_of (map union_term_of terms.now.items))))) }
{
    for u in terms {
        add_type(&u.ty, objects)?;
    }
    Ok(())
}
