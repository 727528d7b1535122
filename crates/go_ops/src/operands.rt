// Operands that are single values (Go specification, "Operators", "Calls").
ghost use Rattle.std.specs.Prelude.{◌≡◌, ◌∷◌, [], IfOk, Some};
ghost use Rattle.std.specs.Option.{option_map};
ghost use Rattle.go_term.specs.Shapes.{shape_tree};
ghost use Rattle.go_term.specs.Types.{TypeData};
ghost use Rattle.go_term.specs.declared.term.Term.{Term};
ghost use Rattle.go_judge.specs.declared.outcome.Spot.TheVariants as spots;
ghost use Rattle.go_judge.specs.Judged as outcomes;
ghost use Rattle.go_judge.specs.Records.{rec_as};
ghost use Rattle.go_judge.specs.Types.Own.{IsOwnRec, Keeps};
ghost use Rattle.go_constructs.specs.Operators.Matching.{is_single_type};
ghost use Rattle.go_ops.specs.Refusals.{IsOwnRefusal, one_refused, refusal_as, several_refused, two_refused};

use crate::broken::broken_at_two;
use crate::modes::is_value;
use crate::rules::SEVERAL_VALUES;
use go_base::{NoMemory, Rule};
use go_judge::{Judge, NO_VALUE, Outcome, Rec, Spot, broken_at};
use go_term::{Shape, Ty};
use std::alloc::Global;

/// The outcome of a node with this operand where that is no single value: R1 where it is no value, else R2. An error is
/// want of memory.
pub(crate) fn refused_one<J: Judge>(
    alloc: Global,
    judge: &mut J,
    a: &Rec,
) -> Result<Option<Outcome>, NoMemory>
    requires { IsOwnRec (J.is_type judge.old) a.now }
    ensures refused { IfOk result (λ refused. refusal_as (J.tree judge.new) refused
        ≡ one_refused (rec_as (J.tree judge.old) a.now)) }
    ensures own { IfOk result (IsOwnRefusal (J.is_type judge.new)) }
    ensures keeps { Keeps (J.headers judge.old) (J.headers judge.new) (J.names judge.old) (J.names judge.new)
        (J.outcomes judge.old) (J.outcomes judge.new) (J.is_spent judge.old) (J.is_spent judge.new)
        (J.world judge.old) (J.world judge.new) (J.is_type judge.old) (J.is_type judge.new)
        (J.tree judge.old) (J.tree judge.new) }
{
    if !is_value(a.mode) {
        return refused_at_first(alloc, judge, NO_VALUE);
    }
    if is_single(alloc, judge, a)? {
        Ok(None)
    } else {
        refused_at_first(alloc, judge, SEVERAL_VALUES)
    }
}

// A node that breaks a rule at its first operand.
fn refused_at_first<J: Judge>(
    alloc: Global,
    judge: &J,
    rule: Rule,
) -> Result<Option<Outcome>, NoMemory>
    ensures refused { IfOk result (λ refused. refusal_as (J.tree judge.now) refused
        ≡ Some (outcomes.Broken rule (spots.Part 0 ∷ []))) }
    ensures own { IfOk result (IsOwnRefusal (J.is_type judge.now)) }
{
    Ok(Some(broken_at(alloc, judge, rule, Spot::Part(0))?))
}

/// The outcome of a node with these two operands where one of them is no single value: R1 at each that is no value,
/// else R2 at each of several. An error is want of memory.
pub(crate) fn refused_two<J: Judge>(
    alloc: Global,
    judge: &mut J,
    a: &Rec,
    b: &Rec,
) -> Result<Option<Outcome>, NoMemory>
    requires first { IsOwnRec (J.is_type judge.old) a.now }
    requires second { IsOwnRec (J.is_type judge.old) b.now }
    ensures refused { IfOk result (λ refused. refusal_as (J.tree judge.new) refused
        ≡ two_refused (rec_as (J.tree judge.old) a.now) (rec_as (J.tree judge.old) b.now)) }
    ensures own { IfOk result (IsOwnRefusal (J.is_type judge.new)) }
    ensures keeps { Keeps (J.headers judge.old) (J.headers judge.new) (J.names judge.old) (J.names judge.new)
        (J.outcomes judge.old) (J.outcomes judge.new) (J.is_spent judge.old) (J.is_spent judge.new)
        (J.world judge.old) (J.world judge.new) (J.is_type judge.old) (J.is_type judge.new)
        (J.tree judge.old) (J.tree judge.new) }
{
    let first = is_value(a.mode);
    let second = is_value(b.mode);
    if first && second {
        refused_several(alloc, judge, a, b)
    } else {
        Ok(Some(broken_at_two(alloc, judge, NO_VALUE, first, second)?))
    }
}

// Of two values.
fn refused_several<J: Judge>(
    alloc: Global,
    judge: &mut J,
    a: &Rec,
    b: &Rec,
) -> Result<Option<Outcome>, NoMemory>
    requires first { IsOwnRec (J.is_type judge.old) a.now }
    requires second { IsOwnRec (J.is_type judge.old) b.now }
    ensures refused { IfOk result (λ refused. refusal_as (J.tree judge.new) refused
        ≡ several_refused (is_single_type (option_map (J.tree judge.old) a.now.ty))
        (is_single_type (option_map (J.tree judge.old) b.now.ty))) }
    ensures own { IfOk result (IsOwnRefusal (J.is_type judge.new)) }
    ensures keeps { Keeps (J.headers judge.old) (J.headers judge.new) (J.names judge.old) (J.names judge.new)
        (J.outcomes judge.old) (J.outcomes judge.new) (J.is_spent judge.old) (J.is_spent judge.new)
        (J.world judge.old) (J.world judge.new) (J.is_type judge.old) (J.is_type judge.new)
        (J.tree judge.old) (J.tree judge.new) }
{
    let first = is_single(alloc, judge, a)?;
    refused_second(alloc, judge, first, b)
}

// Of two values, by whether the first is single.
fn refused_second<J: Judge>(
    alloc: Global,
    judge: &mut J,
    first: bool,
    b: &Rec,
) -> Result<Option<Outcome>, NoMemory>
    requires { IsOwnRec (J.is_type judge.old) b.now }
    ensures refused { IfOk result (λ refused. refusal_as (J.tree judge.new) refused
        ≡ several_refused first (is_single_type (option_map (J.tree judge.old) b.now.ty))) }
    ensures own { IfOk result (IsOwnRefusal (J.is_type judge.new)) }
    ensures keeps { Keeps (J.headers judge.old) (J.headers judge.new) (J.names judge.old) (J.names judge.new)
        (J.outcomes judge.old) (J.outcomes judge.new) (J.is_spent judge.old) (J.is_spent judge.new)
        (J.world judge.old) (J.world judge.new) (J.is_type judge.old) (J.is_type judge.new)
        (J.tree judge.old) (J.tree judge.new) }
{
    let second = is_single(alloc, judge, b)?;
    refused_where(alloc, judge, first, second)
}

// Of two values, by whether each is single.
fn refused_where<J: Judge>(
    alloc: Global,
    judge: &J,
    first: bool,
    second: bool,
) -> Result<Option<Outcome>, NoMemory>
    ensures refused { IfOk result (λ refused. refusal_as (J.tree judge.now) refused
        ≡ several_refused first second) }
    ensures own { IfOk result (IsOwnRefusal (J.is_type judge.now)) }
{
    if first && second {
        Ok(None)
    } else {
        Ok(Some(broken_at_two(alloc, judge, SEVERAL_VALUES, first, second)?))
    }
}

// Whether an operand is no several values. An error is want of memory.
fn is_single<J: Judge>(alloc: Global, judge: &mut J, a: &Rec) -> Result<bool, NoMemory>
    requires { IsOwnRec (J.is_type judge.old) a.now }
    ensures single { IfOk result (λ single. single ≡ is_single_type (option_map (J.tree judge.old) a.now.ty)) }
    ensures keeps { Keeps (J.headers judge.old) (J.headers judge.new) (J.names judge.old) (J.names judge.new)
        (J.outcomes judge.old) (J.outcomes judge.new) (J.is_spent judge.old) (J.is_spent judge.new)
        (J.world judge.old) (J.world judge.new) (J.is_type judge.old) (J.is_type judge.new)
        (J.tree judge.old) (J.tree judge.new) }
{
    match &a.ty {
        Some(t) => is_single_type(alloc, judge, t),
        None => Ok(true),
    }
}

fn is_single_type<J: Judge>(alloc: Global, judge: &mut J, t: &Ty) -> Result<bool, NoMemory>
    requires { J.is_type judge.old t.now }
    ensures single { IfOk result (λ single. single ≡ is_single_type (Some (J.tree judge.old t.now))) }
    ensures keeps { Keeps (J.headers judge.old) (J.headers judge.new) (J.names judge.old) (J.names judge.new)
        (J.outcomes judge.old) (J.outcomes judge.new) (J.is_spent judge.old) (J.is_spent judge.new)
        (J.world judge.old) (J.world judge.new) (J.is_type judge.old) (J.is_type judge.new)
        (J.tree judge.old) (J.tree judge.new) }
{
    let shape = judge.see(alloc, t)?;
    Ok(is_single_shape(&shape))
}

fn is_single_shape(shape: &Shape) -> bool
    ensures { (tree : Term → TypeData) → result ≡ is_single_type (Some (shape_tree tree shape.now)) }
{
    match shape {
        Shape::Tuple(_) => false,
        Shape::Basic(_) => true,
        Shape::Pointer(_) => true,
        Shape::Slice(_) => true,
        Shape::Array(_, _) => true,
        Shape::Map(_, _) => true,
        Shape::Chan(_, _) => true,
        Shape::Func(_) => true,
        Shape::Struct(_) => true,
        Shape::Interface(_) => true,
        Shape::Named(_, _) => true,
        Shape::Param(_, _) => true,
        Shape::Bound(_) => true,
    }
}
