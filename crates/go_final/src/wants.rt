// What the operands of a node are wanted as (Go specification, "Operators", "Constant expressions").
ghost use Rattle.std.specs.Prelude.{◌≡◌, ◌∷◌, [], ◌++◌, is_some, IfOk, IfSome, OnOk};
ghost use Rattle.std.specs.Option.{option_map};
ghost use Rattle.go_constructs.specs.Operators.Nodes as nodes;
ghost use Rattle.go_judge.specs.Records.{rec_as};
ghost use Rattle.go_judge.specs.Types.Own.{IsOwnRec, Keeps};
ghost use Rattle.go_report.specs.Finals.Wanted as spec;
ghost use Rattle.go_final.specs.Wants.{AreOwnFounds, AreOwnWants, IsOwnFound, found_as, founds_as, wants_as};

use crate::beside::{hands_on, to_left, to_right};
use crate::ends::some_copy;
use go_base::NoMemory;
use go_constructs::BinaryOp;
use go_expr::{binary_token, unary_token};
use go_judge::{Judge, Rec};
use go_ops::binary_op;
use go_term::Ty;
use go_tree::NodeKind;
use std::alloc::Global;

/// What the operands of a node of that kind are wanted as, by their records, where the node has this record and this
/// final type. An error is want of memory.
pub fn wanted<J: Judge>(
    alloc: Global,
    judge: &mut J,
    kind: NodeKind,
    whole: &Rec,
    end: &Option<Ty>,
    operands: &[Option<&Rec>],
) -> Result<Vec<Option<Ty>>, NoMemory>
    requires whole { IsOwnRec (J.is_type judge.old) whole.now }
    requires end { IfSome end.now (J.is_type judge.old) }
    requires operands { AreOwnFounds (J.is_type judge.old) operands.now }
    ensures wants { IfOk result (λ wants. wants_as (J.tree judge.new) wants.items
        ≡ spec.wanted kind (rec_as (J.tree judge.old) whole.now) (option_map (J.tree judge.old) end.now)
        (founds_as (J.tree judge.old) operands.now)) }
    ensures own { IfOk result (λ wants. AreOwnWants (J.is_type judge.new) wants.items) }
    ensures keeps { Keeps (J.headers judge.old) (J.headers judge.new) (J.names judge.old) (J.names judge.new)
        (J.outcomes judge.old) (J.outcomes judge.new) (J.is_spent judge.old) (J.is_spent judge.new)
        (J.world judge.old) (J.world judge.new) (J.is_type judge.old) (J.is_type judge.new)
        (J.tree judge.old) (J.tree judge.new) }
{
    if matches!(kind, NodeKind::ParenExpr) {
        each_as(alloc, judge, end, operands)
    } else {
        let handed = hands_on(judge, whole, end)?;
        to_operands(alloc, judge, kind, whole, &handed, operands)
    }
}

// Where it is in no parentheses, and hands this on.
fn to_operands<J: Judge>(
    alloc: Global,
    judge: &mut J,
    kind: NodeKind,
    whole: &Rec,
    handed: &Option<Ty>,
    operands: &[Option<&Rec>],
) -> Result<Vec<Option<Ty>>, NoMemory>
    requires whole { IsOwnRec (J.is_type judge.old) whole.now }
    requires handed { IfSome handed.now (J.is_type judge.old) }
    requires operands { AreOwnFounds (J.is_type judge.old) operands.now }
    ensures wants { IfOk result (λ wants. wants_as (J.tree judge.new) wants.items
        ≡ spec.to_operands (nodes.binary_of kind) (nodes.unary_of kind) (rec_as (J.tree judge.old) whole.now)
        (option_map (J.tree judge.old) handed.now) (founds_as (J.tree judge.old) operands.now)) }
    ensures own { IfOk result (λ wants. AreOwnWants (J.is_type judge.new) wants.items) }
    ensures keeps { Keeps (J.headers judge.old) (J.headers judge.new) (J.names judge.old) (J.names judge.new)
        (J.outcomes judge.old) (J.outcomes judge.new) (J.is_spent judge.old) (J.is_spent judge.new)
        (J.world judge.old) (J.world judge.new) (J.is_type judge.old) (J.is_type judge.new)
        (J.tree judge.old) (J.tree judge.new) }
{
    match (binary_of(kind), is_unary(kind)) {
        (Some(op), _) => to_two(alloc, judge, op, whole, handed, operands),
        (None, true) => each_as(alloc, judge, handed, operands),
        (None, false) => each_as(alloc, judge, &None, operands),
    }
}

// The binary operator of a node of that kind, None where it is none.
fn binary_of(kind: NodeKind) -> Option<BinaryOp>
    ensures { result ≡ nodes.binary_of kind }
{
    binary_op(binary_token(kind)?)
}

// Whether a node of that kind is a unary operator.
fn is_unary(kind: NodeKind) -> bool
    ensures { result ≡ is_some (nodes.unary_of kind) }
{
    unary_token(kind).is_some()
}

// The operands of a binary operator.
fn to_two<J: Judge>(
    alloc: Global,
    judge: &mut J,
    op: BinaryOp,
    whole: &Rec,
    handed: &Option<Ty>,
    operands: &[Option<&Rec>],
) -> Result<Vec<Option<Ty>>, NoMemory>
    requires whole { IsOwnRec (J.is_type judge.old) whole.now }
    requires handed { IfSome handed.now (J.is_type judge.old) }
    requires operands { AreOwnFounds (J.is_type judge.old) operands.now }
    ensures wants { IfOk result (λ wants. wants_as (J.tree judge.new) wants.items
        ≡ spec.to_two op (rec_as (J.tree judge.old) whole.now) (option_map (J.tree judge.old) handed.now)
        (founds_as (J.tree judge.old) operands.now)) }
    ensures own { IfOk result (λ wants. AreOwnWants (J.is_type judge.new) wants.items) }
    ensures keeps { Keeps (J.headers judge.old) (J.headers judge.new) (J.names judge.old) (J.names judge.new)
        (J.outcomes judge.old) (J.outcomes judge.new) (J.is_spent judge.old) (J.is_spent judge.new)
        (J.world judge.old) (J.world judge.new) (J.is_type judge.old) (J.is_type judge.new)
        (J.tree judge.old) (J.tree judge.new) }
{
    match operands {
        [x, y] => to_pair(alloc, judge, op, whole, handed, *x, *y),
        _ => each_as(alloc, judge, &None, operands),
    }
}

// Two of them.
fn to_pair<J: Judge>(
    alloc: Global,
    judge: &mut J,
    op: BinaryOp,
    whole: &Rec,
    handed: &Option<Ty>,
    x: Option<&Rec>,
    y: Option<&Rec>,
) -> Result<Vec<Option<Ty>>, NoMemory>
    requires whole { IsOwnRec (J.is_type judge.old) whole.now }
    requires handed { IfSome handed.now (J.is_type judge.old) }
    requires left { IsOwnFound (J.is_type judge.old) x }
    requires right { IsOwnFound (J.is_type judge.old) y }
    ensures wants { IfOk result (λ wants. wants_as (J.tree judge.new) wants.items
        ≡ spec.to_two op (rec_as (J.tree judge.old) whole.now) (option_map (J.tree judge.old) handed.now)
        (found_as (J.tree judge.old) x.entry ∷ (found_as (J.tree judge.old) y.entry ∷ []))) }
    ensures own { IfOk result (λ wants. AreOwnWants (J.is_type judge.new) wants.items) }
    ensures keeps { Keeps (J.headers judge.old) (J.headers judge.new) (J.names judge.old) (J.names judge.new)
        (J.outcomes judge.old) (J.outcomes judge.new) (J.is_spent judge.old) (J.is_spent judge.new)
        (J.world judge.old) (J.world judge.new) (J.is_type judge.old) (J.is_type judge.new)
        (J.tree judge.old) (J.tree judge.new) }
{
    match (x, y) {
        (Some(x), Some(y)) => to_both(alloc, judge, op, whole, handed, x, y),
        (Some(_), None) => pair(alloc, None, None),
        (None, _) => pair(alloc, None, None),
    }
}

// Two operands that have records.
fn to_both<J: Judge>(
    alloc: Global,
    judge: &mut J,
    op: BinaryOp,
    whole: &Rec,
    handed: &Option<Ty>,
    x: &Rec,
    y: &Rec,
) -> Result<Vec<Option<Ty>>, NoMemory>
    requires whole { IsOwnRec (J.is_type judge.old) whole.now }
    requires handed { IfSome handed.now (J.is_type judge.old) }
    requires left { IsOwnRec (J.is_type judge.old) x.now }
    requires right { IsOwnRec (J.is_type judge.old) y.now }
    ensures wants { IfOk result (λ wants. wants_as (J.tree judge.new) wants.items
        ≡ spec.to_both op (rec_as (J.tree judge.old) whole.now) (option_map (J.tree judge.old) handed.now)
        (rec_as (J.tree judge.old) x.now) (rec_as (J.tree judge.old) y.now)) }
    ensures own { IfOk result (λ wants. AreOwnWants (J.is_type judge.new) wants.items) }
    ensures keeps { Keeps (J.headers judge.old) (J.headers judge.new) (J.names judge.old) (J.names judge.new)
        (J.outcomes judge.old) (J.outcomes judge.new) (J.is_spent judge.old) (J.is_spent judge.new)
        (J.world judge.old) (J.world judge.new) (J.is_type judge.old) (J.is_type judge.new)
        (J.tree judge.old) (J.tree judge.new) }
{
    let left = to_left(alloc, judge, op, handed, x, y)?;
    let right = to_right(alloc, judge, op, whole, handed, x, y)?;
    pair(alloc, left, right)
}

fn pair(alloc: Global, left: Option<Ty>, right: Option<Ty>) -> Result<Vec<Option<Ty>>, NoMemory>
    ensures { IfOk result (λ wants. wants.items ≡ left ∷ (right ∷ [])) }
{
    let mut wants = Vec::new(alloc);
    wants.push(left)?;
    wants.push(right)?;
    Ok(wants)
}

/// All these operands wanted as this type, or as none. An error is want of memory.
pub fn each_as<J: Judge>(
    alloc: Global,
    judge: &J,
    want: &Option<Ty>,
    operands: &[Option<&Rec>],
) -> Result<Vec<Option<Ty>>, NoMemory>
    requires { IfSome want.now (J.is_type judge.now) }
    ensures wants { IfOk result (λ wants. wants_as (J.tree judge.now) wants.items
        ≡ spec.each_as (option_map (J.tree judge.now) want.now) (founds_as (J.tree judge.now) operands.now)) }
    ensures own { IfOk result (λ wants. AreOwnWants (J.is_type judge.now) wants.items) }
{
    let mut wants = Vec::new(alloc);
    for _operand in operands {
        push_copy(judge, want, &mut wants)?;
    }
    Ok(wants)
}

// Pushes what one more operand is wanted as.
fn push_copy<J: Judge>(
    judge: &J,
    want: &Option<Ty>,
    wants: &mut Vec<Option<Ty>>,
) -> Result<(), NoMemory>
    requires want { IfSome want.now (J.is_type judge.now) }
    requires own { AreOwnWants (J.is_type judge.now) wants.old.items }
    ensures wants { OnOk result (wants_as (J.tree judge.now) wants.new.items
        ≡ wants_as (J.tree judge.now) wants.old.items ++ option_map (J.tree judge.now) want.now ∷ []) }
    ensures own { OnOk result (AreOwnWants (J.is_type judge.now) wants.new.items) }
{
    wants.push(some_copy(judge, want)?)?;
    Ok(())
}
