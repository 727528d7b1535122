// The rules on names within types: P4, P5 (Go specification, "Struct types", "Interface types", "Function types",
// "Uniqueness of identifiers").
ghost use Rattle.std.specs.Prelude.{◌≡◌, ◌++◌, ℕ, List, unwrap_or, false, IfOk, OnOk, map};
ghost use Rattle.std.specs.List.{flat_map};
ghost use Rattle.std.specs.Map.{lookup};
ghost use Rattle.go_tree.specs.Tree.{tree_of};
ghost use Rattle.go_module.specs.Modules.Paths.{same_text};
ghost use Rattle.go_module.specs.Names.Declarations.{name_text};
ghost use Rattle.go_module.specs.Names.Occurrences.{nodes_in};
ghost use Rattle.go_module.specs.Names.Rules.MemberRules as rules;
ghost use Rattle.go_names.specs.Views.{spec_view, specs_view, trees_at};
ghost use Rattle.go_scope.specs.Members.{AreMarks, several_by, with_mark};

use crate::rules::{REPEATED_MEMBER, REPEATED_NAME};
use go_base::{Broken, Name, NoMemory, Rule};
use go_module::{add_if, broken_at, part_list};
use go_names::{
    Spec, is_blank_identifier, name_of, names_of_fields, names_of_lists, names_of_methods, nodes_in,
};
use go_tree::{Node, NodeKind};
use indexmap::IndexMap;
use std::alloc::Global;

/// Adds what the types and the expressions of these specs break by the names within them.
pub fn add_broken_members(
    alloc: Global,
    specs: &[Spec],
    found: &mut Vec<Broken>,
) -> Result<(), NoMemory>
    ensures { OnOk result (found.new.items
        ≡ found.old.items ++ flat_map rules.broken_in_spec (specs_view specs.now)) }
{
    for spec in specs {
        add_broken_in_spec(alloc, spec, found)?;
    }
    Ok(())
}

// Adds what a spec breaks.
fn add_broken_in_spec(alloc: Global, spec: &Spec, found: &mut Vec<Broken>) -> Result<(), NoMemory>
    ensures { OnOk result (found.new.items
        ≡ found.old.items ++ rules.broken_in_spec (spec_view spec.now)) }
{
    add_broken_in_parts(alloc, spec, spec.types, found)?;
    add_broken_in_parts(alloc, spec, spec.values, found)
}

// Adds what these types or expressions of a spec break.
fn add_broken_in_parts(
    alloc: Global,
    spec: &Spec,
    parts: &[Node],
    found: &mut Vec<Broken>,
) -> Result<(), NoMemory>
    ensures { OnOk result (found.new.items ≡ found.old.items
        ++ flat_map (rules.broken_members spec.now.file spec.now.told_at)
        (flat_map nodes_in (map tree_of parts.now))) }
{
    for part in parts {
        add_broken_at_each(alloc, spec, &nodes_in(alloc, part)?, found)?;
    }
    Ok(())
}

// Adds what these nodes of a spec break.
fn add_broken_at_each(
    alloc: Global,
    spec: &Spec,
    nodes: &[&Node],
    found: &mut Vec<Broken>,
) -> Result<(), NoMemory>
    ensures { OnOk result (found.new.items ≡ found.old.items
        ++ flat_map (rules.broken_members spec.now.file spec.now.told_at) (trees_at nodes.now)) }
{
    for node in nodes {
        add_broken_at(alloc, spec, node, found)?;
    }
    Ok(())
}

// Adds what a node of a spec breaks.
fn add_broken_at(
    alloc: Global,
    spec: &Spec,
    node: &Node,
    found: &mut Vec<Broken>,
) -> Result<(), NoMemory>
    ensures { OnOk result (found.new.items ≡ found.old.items
        ++ rules.broken_members spec.now.file spec.now.told_at (tree_of node.now)) }
{
    match node.kind() {
        NodeKind::StructType => {
            let names = names_of_fields(alloc, part_list(node))?;
            add_several(alloc, spec, REPEATED_MEMBER, &names, found)
        }
        NodeKind::InterfaceType => {
            let names = names_of_methods(alloc, part_list(node))?;
            add_several(alloc, spec, REPEATED_MEMBER, &names, found)?;
            add_blank(alloc, spec, &names, found)
        }
        NodeKind::Signature => {
            let names = names_of_lists(alloc, part_list(node))?;
            add_several(alloc, spec, REPEATED_NAME, &names, found)
        }
        _ => Ok(()),
    }
}

// Adds the rule at each of these names that stands several times among them and is not blank.
fn add_several(
    alloc: Global,
    spec: &Spec,
    rule: Rule,
    names: &[&Node],
    found: &mut Vec<Broken>,
) -> Result<(), NoMemory>
    ensures { OnOk result (found.new.items ≡ found.old.items
        ++ rules.several spec.now.file spec.now.told_at rule (trees_at names.now)) }
{
    let marks = marks_of(alloc, names)?;
    for name in names {
        add_if_several(alloc, spec, rule, &marks, name, found)?;
    }
    Ok(())
}

// Adds the rule at a name that has the mark and is not blank.
fn add_if_several(
    alloc: Global,
    spec: &Spec,
    rule: Rule,
    marks: &IndexMap<Name, bool>,
    name: &Node,
    found: &mut Vec<Broken>,
) -> Result<(), NoMemory>
    ensures { OnOk result (found.new.items ≡ found.old.items ++ several_by spec.now.file spec.now.told_at rule
        (lookup (same_text (name_text (tree_of name.now))) marks.now.entries) (tree_of name.now)) }
{
    let text = name_of(alloc, name)?;
    let several = !is_blank_identifier(&text) && is_marked(marks, &text);
    add_if(found, several, broken_name(spec, rule, name))
}

fn is_marked(marks: &IndexMap<Name, bool>, text: &Name) -> bool
    ensures { result ≡ unwrap_or (lookup (same_text text.now) marks.now.entries) false }
{
    match marks.get(text) {
        Some(several) => *several,
        None => false,
    }
}

// Each of these names once, by its text, marked where it stands several times among them.
fn marks_of(alloc: Global, names: &[&Node]) -> Result<IndexMap<Name, bool>, NoMemory>
    ensures { IfOk result (λ marks. AreMarks (trees_at names.now) marks.entries) }
{
    let mut marks = IndexMap::new(alloc);
    for name in names {
        add_mark(&mut marks, name_of(alloc, name)?)?;
    }
    Ok(marks)
}

// Adds a name behind all others.
fn add_mark(marks: &mut IndexMap<Name, bool>, text: Name) -> Result<(), NoMemory>
    ensures { OnOk result ((other : List ℕ) → lookup (same_text other) marks.new.entries
        ≡ with_mark (same_text other text) (lookup (same_text other) marks.old.entries)) }
{
    let again = marks.contains_key(&text);
    marks.insert(text, again)?;
    Ok(())
}

// Adds the rule P5 at each of these names that is blank.
fn add_blank(
    alloc: Global,
    spec: &Spec,
    names: &[&Node],
    found: &mut Vec<Broken>,
) -> Result<(), NoMemory>
    ensures { OnOk result (found.new.items ≡ found.old.items
        ++ rules.blank spec.now.file spec.now.told_at rules.repeated_member (trees_at names.now)) }
{
    for name in names {
        let text = name_of(alloc, name)?;
        let at = broken_name(spec, REPEATED_MEMBER, name);
        add_if(found, is_blank_identifier(&text), at)?;
    }
    Ok(())
}

// The rule, broken at a name of a spec.
fn broken_name(spec: &Spec, rule: Rule, name: &Node) -> Broken
    ensures { result ≡ rules.broken_name spec.now.file spec.now.told_at rule (tree_of name.now) }
{
    broken_at(spec.file, spec.told_at.unwrap_or(name.start()), rule)
}
