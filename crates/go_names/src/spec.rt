// The specs of a package (Go specification, "Declarations and scope", "Constant declarations", "Variable declarations",
// "Type declarations").
ghost use Rattle.std.specs.Prelude.{◌≡◌, ◌++◌, IfOk, OnOk, map};
ghost use Rattle.std.specs.List.{flat_map};
ghost use Rattle.go_tree.specs.Tree.{parts_of, tree_of};
ghost use Rattle.go_module.specs.Modules.Module.{file_view};
ghost use Rattle.go_module.specs.Names.Declarations as rule;
ghost use Rattle.go_module.specs.Names.Inner.{first_alone};
ghost use Rattle.go_names.specs.Views.{spec_view, specs_by_file, specs_view};

use go_base::NoMemory;
use go_module::{ObjKind, SourceFile, all_but_first, first_part, part_list};
use go_tree::{Node, NodeKind};
use std::alloc::Global;

/// A spec: the place of its file among the files of its package, what its names are declared as, its node, its names,
/// the type behind them where one stands, and the expressions; where these are a copy of the list before, also the
/// offset at which it is told what is broken in them.
#[derive(Clone, Copy)]
pub struct Spec<'a> {
    pub file: usize,
    pub kind: ObjKind,
    pub node: &'a Node,
    pub names: &'a [Node],
    pub types: &'a [Node],
    pub values: &'a [Node],
    pub told_at: Option<usize>,
}

/// The specs of a package's files, a list for each file, in source order. An error is want of memory.
pub fn specs_of<'a>(alloc: Global, files: &'a [SourceFile]) -> Result<Vec<Vec<Spec<'a>>>, NoMemory>
    ensures { IfOk result (λ lists. map (λ list. specs_view list.items) lists.items
        ≡ specs_by_file 0 (map file_view files.now)) }
{
    let mut lists = Vec::new(alloc);
    for (file, source) in files.iter().enumerate() {
        lists.push(specs_in_file(alloc, file, &source.tree.root)?)?;
    }
    Ok(lists)
}

/// The specs of the file at a place among those of its package, in source order. An error is want of memory.
pub fn specs_in_file<'a>(
    alloc: Global,
    file: usize,
    root: &'a Node,
) -> Result<Vec<Spec<'a>>, NoMemory>
    ensures { IfOk result (λ specs.
        specs_view specs.items ≡ rule.specs_in_file file (tree_of root.now)) }
{
    let mut specs = Vec::new(alloc);
    for declaration in part_list(root) {
        push_specs(file, declaration, &mut specs)?;
    }
    Ok(specs)
}

// Pushes the specs of a declaration.
fn push_specs<'a>(
    file: usize,
    declaration: &'a Node,
    specs: &mut Vec<Spec<'a>>,
) -> Result<(), NoMemory>
    ensures { OnOk result (specs_view specs.new.items
        ≡ specs_view specs.old.items ++ rule.specs_in file (tree_of declaration.now)) }
{
    match declaration.kind() {
        NodeKind::ConstDecl => push_const_specs(file, part_list(declaration), specs),
        NodeKind::ConstGroup => push_const_specs(file, part_list(declaration), specs),
        NodeKind::VarDecl => push_var_specs(file, part_list(declaration), specs),
        NodeKind::VarGroup => push_var_specs(file, part_list(declaration), specs),
        NodeKind::TypeDecl => push_type_specs(file, part_list(declaration), specs),
        NodeKind::TypeGroup => push_type_specs(file, part_list(declaration), specs),
        _ => Ok(()),
    }
}

fn push_const_specs<'a>(
    file: usize,
    nodes: &'a [Node],
    specs: &mut Vec<Spec<'a>>,
) -> Result<(), NoMemory>
    ensures { OnOk result (specs_view specs.new.items
        ≡ specs_view specs.old.items ++ map (rule.const_spec file) (map tree_of nodes.now)) }
{
    for node in nodes {
        specs.push(const_spec(file, node))?;
    }
    Ok(())
}

fn const_spec<'a>(file: usize, node: &'a Node) -> Spec<'a>
    ensures { spec_view result ≡ rule.const_spec file (tree_of node.now) }
{
    let written = all_but_first(node);
    let behind = behind_names(written);
    Spec {
        file,
        kind: ObjKind::Const,
        node,
        names: part_list(first_part(node)),
        types: types_behind(behind),
        values: values_behind(behind),
        told_at: told_for(node, written),
    }
}

fn push_var_specs<'a>(
    file: usize,
    nodes: &'a [Node],
    specs: &mut Vec<Spec<'a>>,
) -> Result<(), NoMemory>
    ensures { OnOk result (specs_view specs.new.items
        ≡ specs_view specs.old.items ++ map (rule.var_spec file) (map tree_of nodes.now)) }
{
    for node in nodes {
        specs.push(var_spec(file, node))?;
    }
    Ok(())
}

fn var_spec<'a>(file: usize, node: &'a Node) -> Spec<'a>
    ensures { spec_view result ≡ rule.var_spec file (tree_of node.now) }
{
    let behind = all_but_first(node);
    Spec {
        file,
        kind: ObjKind::Var,
        node,
        names: part_list(first_part(node)),
        types: type_before(behind),
        values: list_behind(behind),
        told_at: None,
    }
}

// The type behind the names of variables, where one stands.
fn type_before(parts: &[Node]) -> &[Node]
    ensures { map tree_of result.now ≡ rule.type_before (map tree_of parts.now) }
{
    match parts {
        [part] => {
            if part.is(NodeKind::ExprList) {
                &[]
            } else {
                parts
            }
        }
        [_, ..] => &parts[..1],
        [] => &[],
    }
}

// The expressions behind the names of variables, behind a type or alone.
fn list_behind(parts: &[Node]) -> &[Node]
    ensures { map tree_of result.now ≡ rule.list_behind (map tree_of parts.now) }
{
    match parts {
        [part] => {
            if part.is(NodeKind::ExprList) {
                part_list(part)
            } else {
                &[]
            }
        }
        [_, list] => part_list(list),
        _ => &[],
    }
}

fn push_type_specs<'a>(
    file: usize,
    nodes: &'a [Node],
    specs: &mut Vec<Spec<'a>>,
) -> Result<(), NoMemory>
    ensures { OnOk result (specs_view specs.new.items
        ≡ specs_view specs.old.items ++ flat_map (rule.type_spec file) (map tree_of nodes.now)) }
{
    for node in nodes {
        push_type_spec(file, node, specs)?;
    }
    Ok(())
}

// Pushes the spec of a type, or of an alias; one with type parameters is not built yet.
fn push_type_spec<'a>(
    file: usize,
    node: &'a Node,
    specs: &mut Vec<Spec<'a>>,
) -> Result<(), NoMemory>
    ensures { OnOk result (specs_view specs.new.items
        ≡ specs_view specs.old.items ++ rule.type_spec file (tree_of node.now)) }
{
    match node.kind() {
        NodeKind::TypeSpec => specs.push(type_spec_as(ObjKind::Defined, file, node))?,
        NodeKind::AliasSpec => specs.push(type_spec_as(ObjKind::Alias, file, node))?,
        _ => {}
    }
    Ok(())
}

fn type_spec_as<'a>(kind: ObjKind, file: usize, node: &'a Node) -> Spec<'a>
    ensures { spec_view result ≡ rule.type_spec_as kind file (tree_of node.now) (parts_of (tree_of node.now)) }
{
    Spec {
        file,
        kind,
        node,
        names: first_alone(part_list(node)),
        types: all_but_first(node),
        values: &[],
        told_at: None,
    }
}

// The first of these parts.
fn first_alone(parts: &[Node]) -> &[Node]
    ensures { map tree_of result.now ≡ first_alone (λ t. t) (map tree_of parts.now) }
{
    match parts {
        [_, ..] => &parts[..1],
        [] => &[],
    }
}

// The type before a list of expressions.
fn types_behind(parts: &[Node]) -> &[Node]
    ensures { map tree_of result.now ≡ rule.types_behind (map tree_of parts.now) }
{
    match parts {
        [_, _] => &parts[..1],
        _ => &[],
    }
}

// The expressions of a list, behind a type or alone.
fn values_behind(parts: &[Node]) -> &[Node]
    ensures { map tree_of result.now ≡ rule.values_behind (map tree_of parts.now) }
{
    match parts {
        [list] => part_list(list),
        [_, list] => part_list(list),
        _ => &[],
    }
}

// What is written behind the names, or the parts of the copy that stands for it.
fn behind_names(parts: &[Node]) -> &[Node]
    ensures { map tree_of result.now ≡ rule.behind_names (map tree_of parts.now) }
{
    match parts {
        [copy] => {
            if copy.is(NodeKind::ConstCopy) {
                part_list(copy)
            } else {
                parts
            }
        }
        _ => parts,
    }
}

// Where it is told what is broken in a copy.
fn told_for(spec: &Node, parts: &[Node]) -> Option<usize>
    ensures { result ≡ rule.told_for (tree_of spec.now) (map tree_of parts.now) }
{
    match parts {
        [copy] => copy.is(NodeKind::ConstCopy).then_some(spec.start()),
        _ => None,
    }
}
