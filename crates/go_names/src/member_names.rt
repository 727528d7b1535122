// The names within types: of fields, methods, parameters and results (Go specification, "Struct types", "Interface
// types", "Function types").
ghost use Rattle.std.specs.Prelude.{◌≡◌, ◌++◌, not, IfOk, OnOk, filter, map};
ghost use Rattle.std.specs.List.{flat_map};
ghost use Rattle.go_tree.specs.Tree.{kind_of, tree_of};
ghost use Rattle.go_module.specs.Names.Inner.{first_alone, is_tag_kind};
ghost use Rattle.go_module.specs.Names.Rules.MemberRules as rule;
ghost use Rattle.go_names.specs.Views.{trees_at};
ghost use Rattle.go_names.specs.Members.{type_names};

use crate::inner::{has_named, is_tag};
use go_base::NoMemory;
use go_module::{first_part, part_list};
use go_tree::{Node, NodeKind};
use std::alloc::Global;

/// The names of the fields of a struct. An error is want of memory.
pub fn names_of_fields<'a>(alloc: Global, fields: &'a [Node]) -> Result<Vec<&'a Node>, NoMemory>
    ensures { IfOk result (λ names. trees_at names.items
        ≡ flat_map rule.field_names (map tree_of fields.now)) }
{
    let mut names = Vec::new(alloc);
    for field in fields {
        push_field_names(field, &mut names)?;
    }
    Ok(names)
}

/// The names of the methods of an interface. An error is want of memory.
pub fn names_of_methods<'a>(alloc: Global, elems: &'a [Node]) -> Result<Vec<&'a Node>, NoMemory>
    ensures { IfOk result (λ names. trees_at names.items
        ≡ flat_map rule.method_names (map tree_of elems.now)) }
{
    let mut names = Vec::new(alloc);
    for elem in elems {
        push_method_name(elem, &mut names)?;
    }
    Ok(names)
}

/// The names of the parameters and the results of a signature. An error is want of memory.
pub fn names_of_lists<'a>(alloc: Global, parts: &'a [Node]) -> Result<Vec<&'a Node>, NoMemory>
    ensures { IfOk result (λ names. trees_at names.items
        ≡ flat_map rule.list_names (map tree_of parts.now)) }
{
    let mut names = Vec::new(alloc);
    for part in parts {
        push_list_names(part, &mut names)?;
    }
    Ok(names)
}

/// Pushes the names of the fields that a declaration of a struct declares. An error is want of memory.
pub fn push_field_names<'a>(field: &'a Node, names: &mut Vec<&'a Node>) -> Result<(), NoMemory>
    ensures { OnOk result (trees_at names.new.items
        ≡ trees_at names.old.items ++ rule.field_names (tree_of field.now)) }
{
    match field.kind() {
        NodeKind::Field => push_before_type(part_list(field), names),
        NodeKind::EmbeddedField => push_type_name(part_list(field), names),
        NodeKind::EmbeddedPointer => push_type_name(part_list(field), names),
        _ => Ok(()),
    }
}

// Pushes what stands before the type, which is the last part that is no tag.
fn push_before_type<'a>(parts: &'a [Node], names: &mut Vec<&'a Node>) -> Result<(), NoMemory>
    ensures { OnOk result (trees_at names.new.items ≡ trees_at names.old.items ++ rule.all_but_last
        (filter (λ t. not (is_tag_kind (kind_of t))) (map tree_of parts.now))) }
{
    let before = names.len();
    push_but_tag(parts, names)?;
    if names.len() > before {
        names.pop();
    }
    Ok(())
}

// Pushes the parts that are no tag.
fn push_but_tag<'a>(parts: &'a [Node], names: &mut Vec<&'a Node>) -> Result<(), NoMemory>
    ensures { OnOk result (trees_at names.new.items ≡ trees_at names.old.items
        ++ filter (λ t. not (is_tag_kind (kind_of t))) (map tree_of parts.now)) }
{
    for part in parts {
        if !is_tag(part) {
            names.push(part)?;
        }
    }
    Ok(())
}

// Pushes the name of an embedded field, whose first part is its type.
fn push_type_name<'a>(parts: &'a [Node], names: &mut Vec<&'a Node>) -> Result<(), NoMemory>
    ensures { OnOk result (trees_at names.new.items
        ≡ trees_at names.old.items ++ type_names (map tree_of parts.now)) }
{
    if let [ty, ..] = parts {
        names.push(unqualified(name_of_type(ty)))?;
    }
    Ok(())
}

// A type name, without type arguments behind it.
fn name_of_type(ty: &Node) -> &Node
    ensures { tree_of result.now ≡ rule.type_name (tree_of ty.now) }
{
    match ty.kind() {
        NodeKind::IndexExpr => first_part(ty),
        _ => ty,
    }
}

// The name of a type without the package before it.
fn unqualified(type_name: &Node) -> &Node
    ensures { tree_of result.now ≡ rule.unqualified (tree_of type_name.now) }
{
    match type_name.kind() {
        NodeKind::SelectorExpr => match type_name.both_parts() {
            Some((_, name)) => name,
            None => type_name,
        },
        _ => type_name,
    }
}

// Pushes the name of a method.
fn push_method_name<'a>(elem: &'a Node, names: &mut Vec<&'a Node>) -> Result<(), NoMemory>
    ensures { OnOk result (trees_at names.new.items
        ≡ trees_at names.old.items ++ rule.method_names (tree_of elem.now)) }
{
    match elem.kind() {
        NodeKind::MethodElem => push_first(part_list(elem), names),
        _ => Ok(()),
    }
}

// Pushes the names of a list of parameters or results.
fn push_list_names<'a>(part: &'a Node, names: &mut Vec<&'a Node>) -> Result<(), NoMemory>
    ensures { OnOk result (trees_at names.new.items
        ≡ trees_at names.old.items ++ rule.list_names (tree_of part.now)) }
{
    match part.kind() {
        NodeKind::Params => push_names_if_any(part_list(part), names),
        _ => Ok(()),
    }
}

// Pushes the names of these parameters, if they have names.
#[tactic(auto, using(crate::proofs::MemberLemmas::any_named))]
fn push_names_if_any<'a>(params: &'a [Node], names: &mut Vec<&'a Node>) -> Result<(), NoMemory>
    ensures { OnOk result (trees_at names.new.items
        ≡ trees_at names.old.items ++ rule.names_if_any (map tree_of params.now)) }
{
    if has_named(params) {
        push_param_names(params, names)
    } else {
        Ok(())
    }
}

fn push_param_names<'a>(params: &'a [Node], names: &mut Vec<&'a Node>) -> Result<(), NoMemory>
    ensures { OnOk result (trees_at names.new.items
        ≡ trees_at names.old.items ++ flat_map rule.param_names (map tree_of params.now)) }
{
    for param in params {
        push_param_name(param, names)?;
    }
    Ok(())
}

// Pushes the name of a parameter, which stands alone where the next has its type.
fn push_param_name<'a>(param: &'a Node, names: &mut Vec<&'a Node>) -> Result<(), NoMemory>
    ensures { OnOk result (trees_at names.new.items
        ≡ trees_at names.old.items ++ rule.param_names (tree_of param.now)) }
{
    match param.kind() {
        NodeKind::Param => push_first(part_list(param), names),
        NodeKind::VariadicParam => push_first(part_list(param), names),
        NodeKind::UnnamedParam => push_first(part_list(param), names),
        _ => Ok(()),
    }
}

// Pushes the first of these parts.
fn push_first<'a>(parts: &'a [Node], names: &mut Vec<&'a Node>) -> Result<(), NoMemory>
    ensures { OnOk result (trees_at names.new.items
        ≡ trees_at names.old.items ++ first_alone (λ t. t) (map tree_of parts.now)) }
{
    if let [first, ..] = parts {
        names.push(first)?;
    }
    Ok(())
}
