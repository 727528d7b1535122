// Struct types (Go specification, "Struct types").
ghost use Rattle.std.specs.Prelude.{◌≡◌, ◌∷◌, [], ◌++◌, find, IfOk, OnOk, length, map};
ghost use Rattle.std.specs.List.{AllByRecursion};
ghost use Rattle.std.specs.Option.{option_map};
ghost use Rattle.go_tree.specs.Tree.{kind_of, list_of, parts_of, tree_of};
ghost use Rattle.go_module.specs.Names.Inner.{is_tag_kind};
ghost use Rattle.go_term.specs.Shapes.{field_tree};
ghost use Rattle.go_constructs.specs.Struct as spec;
ghost use Rattle.go_judge.specs.Judged.{judged};
ghost use Rattle.go_judge.specs.View.{outcome_as};
ghost use Rattle.go_judge.specs.Types.Own.{IsOwnOutcome, Keeps};
ghost use Rattle.go_expr.specs.Elements.{AreOwnFields};

use crate::given::copy_of;
use crate::type_literal::type_literal;
use crate::typed::{Typed, all_types};
use go_base::{Bytes, Name, NoMemory};
use go_model::{Judge, Outcome};
use go_module::{ObjId, part_list};
use go_names::{is_tag, name_of, push_field_names};
use go_scan::string_of;
use go_term::{FieldShape, Shape, Ty};
use go_tree::{Node, NodeKind};
use std::alloc::Global;

/// A struct type, by the outcomes of the types of its fields: C13 at each that is no type; L4 and L5 by its size. An
/// error is want of memory.
pub fn struct_type<J: Judge>(
    alloc: Global,
    judge: &mut J,
    node: &Node,
    outcomes: &[Outcome],
) -> Result<Outcome, NoMemory>
    requires { AllByRecursion (IsOwnOutcome (J.is_type judge.old)) outcomes.now }
    ensures outcome { IfOk result (λ outcome. outcome_as (J.tree judge.new) outcome
        ≡ judged (J.headers judge.old)
        (spec.struct_of (J.names judge.old).home (length outcomes.now)
        (list_of (parts_of (tree_of node.now))))
        (map (outcome_as (J.tree judge.old)) outcomes.now)) }
    ensures own { IfOk result (IsOwnOutcome (J.is_type judge.new)) }
    ensures keeps { Keeps (J.headers judge.old) (J.headers judge.new) (J.names judge.old) (J.names judge.new)
        (J.outcomes judge.old) (J.outcomes judge.new) (J.is_spent judge.old) (J.is_spent judge.new)
        (J.world judge.old) (J.world judge.new) (J.is_type judge.old) (J.is_type judge.new)
        (J.tree judge.old) (J.tree judge.new) }
{
    match all_types(alloc, judge, outcomes)? {
        Typed::Types(types) => {
            let fields = fields_of(alloc, judge, node, &types)?;
            type_literal(alloc, judge, Shape::Struct(fields))
        }
        Typed::Without(outcome) => Ok(outcome),
    }
}

// The fields of a struct, by the types in it in source order.
fn fields_of<J: Judge>(
    alloc: Global,
    judge: &J,
    node: &Node,
    types: &[Ty],
) -> Result<Vec<FieldShape>, NoMemory>
    requires { AllByRecursion (J.is_type judge.now) types.now }
    ensures fields { IfOk result (λ list. map (field_tree (J.tree judge.now)) list.items
        ≡ spec.fields_in (J.names judge.now).home (list_of (parts_of (tree_of node.now)))
        (map (J.tree judge.now) types.now)) }
    ensures own { IfOk result (λ list. AreOwnFields (J.is_type judge.now) list.items) }
{
    let home = judge.package_of(node.id());
    fields_at(alloc, judge, home, part_list(node), types)
}

// The fields that these declare, each by its type.
fn fields_at<J: Judge>(
    alloc: Global,
    judge: &J,
    home: &Name,
    decls: &[Node],
    types: &[Ty],
) -> Result<Vec<FieldShape>, NoMemory>
    requires { AllByRecursion (J.is_type judge.now) types.now }
    ensures fields { IfOk result (λ list. map (field_tree (J.tree judge.now)) list.items
        ≡ spec.fields_in home.now (map tree_of decls.now) (map (J.tree judge.now) types.now)) }
    ensures own { IfOk result (λ list. AreOwnFields (J.is_type judge.now) list.items) }
{
    let mut list = Vec::new(alloc);
    for i in 0..decls.len().min(types.len()) {
        push_fields(alloc, judge, home, &decls[i], &types[i], &mut list)?;
    }
    Ok(list)
}

// Pushes the fields that a declaration declares, by its type.
fn push_fields<J: Judge>(
    alloc: Global,
    judge: &J,
    home: &Name,
    decl: &Node,
    ty: &Ty,
    list: &mut Vec<FieldShape>,
) -> Result<(), NoMemory>
    requires ty { J.is_type judge.now ty.now }
    requires list { AreOwnFields (J.is_type judge.now) list.old.items }
    ensures pushed { OnOk result (map (field_tree (J.tree judge.now)) list.new.items
        ≡ map (field_tree (J.tree judge.now)) list.old.items
        ++ spec.fields_by home.now (tree_of decl.now) (J.tree judge.now ty.now)) }
    ensures own { AreOwnFields (J.is_type judge.now) list.new.items }
{
    let mut names = Vec::new(alloc);
    push_field_names(decl, &mut names)?;
    for name in &names {
        push_field(alloc, judge, home, decl, ty, name, list)?;
    }
    Ok(())
}

// Pushes the field with this name.
fn push_field<J: Judge>(
    alloc: Global,
    judge: &J,
    home: &Name,
    decl: &Node,
    ty: &Ty,
    name: &Node,
    list: &mut Vec<FieldShape>,
) -> Result<(), NoMemory>
    requires ty { J.is_type judge.now ty.now }
    requires list { AreOwnFields (J.is_type judge.now) list.old.items }
    ensures pushed { OnOk result (map (field_tree (J.tree judge.now)) list.new.items
        ≡ map (field_tree (J.tree judge.now)) list.old.items
        ++ spec.field_by home.now (tree_of decl.now) (J.tree judge.now ty.now) (tree_of name.now) ∷ []) }
    ensures own { AreOwnFields (J.is_type judge.now) list.new.items }
{
    list.push(field_of(alloc, judge, home, decl, ty, name)?)?;
    Ok(())
}

// The field with this name.
fn field_of<J: Judge>(
    alloc: Global,
    judge: &J,
    home: &Name,
    decl: &Node,
    ty: &Ty,
    name: &Node,
) -> Result<FieldShape, NoMemory>
    requires { J.is_type judge.now ty.now }
    ensures field { IfOk result (λ f. field_tree (J.tree judge.now) f
        ≡ spec.field_by home.now (tree_of decl.now) (J.tree judge.now ty.now) (tree_of name.now)) }
    ensures own { IfOk result (λ f. J.is_type judge.now f.ty) }
{
    Ok(FieldShape {
        object: ObjId(name.id().0),
        name: name_of(alloc, name)?,
        package: home.clone()?,
        embedded: is_embedded(decl),
        ty: copy_of(judge, ty)?,
        tag: tag_of(alloc, decl)?,
    })
}

fn is_embedded(decl: &Node) -> bool
    ensures { result ≡ spec.is_embedded (kind_of (tree_of decl.now)) }
{
    matches!(
        decl.kind(),
        NodeKind::EmbeddedField | NodeKind::EmbeddedPointer
    )
}

// What the tag of a field declaration stands for; no bytes where there is none.
fn tag_of(alloc: Global, decl: &Node) -> Result<Bytes, NoMemory>
    ensures { IfOk result (λ tag. tag ≡ spec.tag_in (tree_of decl.now)) }
{
    let found = match tag_among(part_list(decl)) {
        Some(tag) => string_of(alloc, tag.text())?,
        None => None,
    };
    match found {
        Some(tag) => Ok(tag),
        None => Ok(Bytes::new(Vec::new(alloc))),
    }
}

// The first of these parts that is a tag.
fn tag_among(parts: &[Node]) -> Option<&Node>
    ensures { option_map (λ tag. tree_of tag.now) result
        ≡ find (λ t. is_tag_kind (kind_of t)) (map tree_of parts.now) }
{
    for part in parts {
        if is_tag(part) {
            return Some(part);
        }
    }
    None
}
