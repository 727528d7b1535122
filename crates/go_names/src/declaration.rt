// The declarations of a package (Go specification, "Declarations and scope", "Constant declarations", "Variable
// declarations", "Type declarations").
ghost use Rattle.std.specs.Prelude.{◌≡◌, ◌++◌, IfOk, OnOk, length, map};
ghost use Rattle.go_tree.specs.Tree.{tree_of};
ghost use Rattle.go_module.specs.Names.Declarations as rule;
ghost use Rattle.go_names.specs.Views.{all_specs, declaration_view, declarations_view, spec_view, specs_view};

use crate::spec::Spec;
use go_base::{NoMemory, ObjId};
use go_module::{Built, ObjKind};
use go_tree::Node;
use std::alloc::Global;
use std::slice::from_ref;

/// A declaration of a name: the place of its file among the files of its package, what it is declared as, the
/// identifier, the type and the expressions that its header rests on, and how the header is built of them.
#[derive(Clone, Copy)]
pub struct Declaration<'a> {
    pub file: usize,
    pub kind: ObjKind,
    pub name: &'a Node,
    pub types: &'a [Node],
    pub values: &'a [Node],
    pub built: Built,
}

impl Declaration<'_> {
    /// The number of the object that it declares.
    pub fn number(&self) -> ObjId
        ensures { result ≡ rule.number_of (declaration_view self.now) }
    {
        ObjId(self.name.id().0)
    }
}

/// The declarations of the specs of a package, which stand file by file. An error is want of memory.
pub fn declarations_of<'a>(
    alloc: Global,
    lists: &[Vec<Spec<'a>>],
) -> Result<Vec<Declaration<'a>>, NoMemory>
    ensures { IfOk result (λ list. declarations_view list.items
        ≡ rule.declarations_in (all_specs (map (λ list. specs_view list.items) lists.now))) }
{
    let mut list = Vec::new(alloc);
    for specs in lists {
        push_all(specs, &mut list)?;
    }
    Ok(list)
}

/// The declarations of these specs. An error is want of memory.
pub fn declarations_in<'a>(
    alloc: Global,
    specs: &[Spec<'a>],
) -> Result<Vec<Declaration<'a>>, NoMemory>
    ensures { IfOk result (λ list.
        declarations_view list.items ≡ rule.declarations_in (specs_view specs.now)) }
{
    let mut list = Vec::new(alloc);
    push_all(specs, &mut list)?;
    Ok(list)
}

// Pushes the declarations of these specs.
fn push_all<'a>(specs: &[Spec<'a>], list: &mut Vec<Declaration<'a>>) -> Result<(), NoMemory>
    ensures { OnOk result (declarations_view list.new.items
        ≡ declarations_view list.old.items ++ rule.declarations_in (specs_view specs.now)) }
{
    for spec in specs {
        push_declared(spec, list)?;
    }
    Ok(())
}

// Pushes the declarations of a spec.
fn push_declared<'a>(spec: &Spec<'a>, list: &mut Vec<Declaration<'a>>) -> Result<(), NoMemory>
    ensures { OnOk result (declarations_view list.new.items
        ≡ declarations_view list.old.items ++ rule.declared_in (spec_view spec.now)) }
{
    match spec.kind {
        ObjKind::Const => push_by_values(spec, list),
        ObjKind::Var if spec.types.is_empty() => push_by_values(spec, list),
        _ => push_by_itself(spec, list),
    }
}

// Pushes the declarations of constants, or of variables without a type.
fn push_by_values<'a>(spec: &Spec<'a>, list: &mut Vec<Declaration<'a>>) -> Result<(), NoMemory>
    ensures { OnOk result (declarations_view list.new.items
        ≡ declarations_view list.old.items ++ rule.by_values (spec_view spec.now)) }
{
    if spec.names.len() == spec.values.len() {
        push_pairs(spec, spec.names, spec.values, list)
    } else {
        push_with_list(spec, list)
    }
}

// Pushes a declaration for each name, by the type alone.
fn push_by_itself<'a>(spec: &Spec<'a>, list: &mut Vec<Declaration<'a>>) -> Result<(), NoMemory>
    ensures { OnOk result (declarations_view list.new.items ≡ declarations_view list.old.items
        ++ map (rule.by_itself (spec_view spec.now)) (map tree_of spec.now.names.now)) }
{
    for name in spec.names {
        list.push(Declaration {
            file: spec.file,
            kind: spec.kind,
            name,
            types: spec.types,
            values: &[],
            built: Built::Itself,
        })?;
    }
    Ok(())
}

// Pushes a declaration for each of these names, with the value at its place.
fn push_pairs<'a>(
    spec: &Spec<'a>,
    names: &'a [Node],
    values: &'a [Node],
    list: &mut Vec<Declaration<'a>>,
) -> Result<(), NoMemory>
    requires { length names.now ≡ length values.now }
    ensures { OnOk result (declarations_view list.new.items ≡ declarations_view list.old.items
        ++ rule.pairs (spec_view spec.now) (map tree_of names.now) (map tree_of values.now)) }
{
    for place in 0..names.len() {
        list.push(Declaration {
            file: spec.file,
            kind: spec.kind,
            name: &names[place],
            types: spec.types,
            values: from_ref(&values[place]),
            built: Built::Pair,
        })?;
    }
    Ok(())
}

// Pushes a declaration for each name, with the whole list.
fn push_with_list<'a>(spec: &Spec<'a>, list: &mut Vec<Declaration<'a>>) -> Result<(), NoMemory>
    ensures { OnOk result (declarations_view list.new.items ≡ declarations_view list.old.items
        ++ map (rule.with_list (spec_view spec.now)) (map tree_of spec.now.names.now)) }
{
    for name in spec.names {
        list.push(Declaration {
            file: spec.file,
            kind: spec.kind,
            name,
            types: spec.types,
            values: spec.values,
            built: Built::WholeList,
        })?;
    }
    Ok(())
}
