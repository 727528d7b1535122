// Which defined types a value holds (Go specification, "Array types", "Struct types").
ghost use Rattle.std.specs.Prelude.{◌≡◌, ◌++◌, OnOk, map};
ghost use Rattle.std.specs.List.{AllByRecursion};
ghost use Rattle.go_term.specs.Shapes.{field_tree, shape_tree};
ghost use Rattle.go_term.specs.Types.{parts_of};
ghost use Rattle.go_judge.specs.Types.Own.{AreOwn, Keeps};
ghost use Rattle.go_values.specs.ByValue.{held_in, held_in_each};
ghost use Rattle.go_by_value.specs.Holding.{named_at};

use go_base::NoMemory;
use go_model::Forms;
use go_module::ObjId;
use go_term::{FieldShape, Shape, Ty};
use std::alloc::Global;

/// Pushes the defined types that a value of a type holds, by those of its parts. An error is want of memory.
#[cycle(push_held)]
pub fn push_held<F: Forms>(
    alloc: Global,
    judge: &mut F,
    t: &Ty,
    found: &mut Vec<ObjId>,
) -> Result<(), NoMemory>
    requires { F.is_type judge.old t.now }
    ensures held { OnOk result (found.new.items ≡ found.old.items ++ held_in (F.tree judge.old t.now)) }
    ensures keeps { Keeps (F.headers judge.old) (F.headers judge.new) (F.names judge.old) (F.names judge.new)
        (F.outcomes judge.old) (F.outcomes judge.new) (F.is_spent judge.old) (F.is_spent judge.new)
        (F.world judge.old) (F.world judge.new) (F.is_type judge.old) (F.is_type judge.new)
        (F.tree judge.old) (F.tree judge.new) }
{
    let shape = judge.see(alloc, t)?;
    push_held_at(alloc, judge, &shape, found)
}

// Pushes those of a type that has this layer.
#[cycle(push_held)]
fn push_held_at<F: Forms>(
    alloc: Global,
    judge: &mut F,
    shape: &Shape,
    found: &mut Vec<ObjId>,
) -> Result<(), NoMemory>
    requires { AreOwn (F.is_type judge.old) shape.now }
    ensures held { OnOk result (found.new.items
        ≡ found.old.items ++ held_in (shape_tree (F.tree judge.old) shape.now)) }
    ensures keeps { Keeps (F.headers judge.old) (F.headers judge.new) (F.names judge.old) (F.names judge.new)
        (F.outcomes judge.old) (F.outcomes judge.new) (F.is_spent judge.old) (F.is_spent judge.new)
        (F.world judge.old) (F.world judge.new) (F.is_type judge.old) (F.is_type judge.new)
        (F.tree judge.old) (F.tree judge.new) }
{
    match shape {
        Shape::Array(_, t) => push_held(alloc, judge, t, found),
        Shape::Struct(fields) => push_held_in_fields(alloc, judge, fields, found),
        _ => push_defined(shape, found),
    }
}

// Pushes those of the types of these fields.
#[cycle(push_held)]
fn push_held_in_fields<F: Forms>(
    alloc: Global,
    judge: &mut F,
    fields: &[FieldShape],
    found: &mut Vec<ObjId>,
) -> Result<(), NoMemory>
    requires { AllByRecursion (λ f. F.is_type judge.old f.ty) fields.now }
    ensures held { OnOk result (found.new.items
        ≡ found.old.items ++ held_in_each (parts_of (map (field_tree (F.tree judge.old)) fields.now))) }
    ensures keeps { Keeps (F.headers judge.old) (F.headers judge.new) (F.names judge.old) (F.names judge.new)
        (F.outcomes judge.old) (F.outcomes judge.new) (F.is_spent judge.old) (F.is_spent judge.new)
        (F.world judge.old) (F.world judge.new) (F.is_type judge.old) (F.is_type judge.new)
        (F.tree judge.old) (F.tree judge.new) }
{
    for field in fields {
        push_held(alloc, judge, &field.ty, found)?;
    }
    Ok(())
}

// Pushes the type itself, where a definition has it.
fn push_defined(shape: &Shape, found: &mut Vec<ObjId>) -> Result<(), NoMemory>
    ensures { OnOk result (found.new.items ≡ found.old.items ++ named_at shape.now) }
{
    if let Shape::Named(d, _) = shape {
        found.push(*d)?;
    }
    Ok(())
}
