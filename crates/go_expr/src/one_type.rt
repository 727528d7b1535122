// Type literals with one type in them (Go specification, "Pointer types", "Slice types", "Channel types").
ghost use Rattle.std.specs.Prelude.{◌≡◌, ◌∷◌, [], IfOk, map};
ghost use Rattle.std.specs.List.{AllByRecursion};
ghost use Rattle.go_term.specs.Shapes.{shape_tree};
ghost use Rattle.go_term.specs.Types.{of_one};
ghost use Rattle.go_judge.specs.Judged.{asked, judged};
ghost use Rattle.go_judge.specs.Records.{rec_as};
ghost use Rattle.go_judge.specs.View.{outcome_as};
ghost use Rattle.go_judge.specs.Types.Own.{AreOwn, IsOwnOutcome, IsOwnRec, Keeps};
ghost use Rattle.go_expr.specs.Given.{AreOwnRecs, recs_as};
ghost use Rattle.go_expr.specs.TypeLiteral.{head_of, one_literal};

use crate::given::{Given, copy_of, first_records, type_in};
use crate::type_literal::type_literal;
use go_base::NoMemory;
use go_model::{Judge, NO_TYPE, Outcome, Rec, Spot, broken_at};
use go_term::{Dir, Shape, Ty};
use std::alloc::Global;

/// `*T`, `[]T`, or a channel in these directions.
#[derive(Clone, Copy)]
pub enum OneForm {
    Pointer,
    Slice,
    Chan(Dir),
}

/// A type literal of this form by the outcome of its operand: C13 where that is no type; L4 and L5 by its size. An error
/// is want of memory.
pub fn one_type<J: Judge>(
    alloc: Global,
    judge: &mut J,
    form: OneForm,
    outcomes: &[Outcome],
) -> Result<Outcome, NoMemory>
    requires { AllByRecursion (IsOwnOutcome (J.is_type judge.old)) outcomes.now }
    ensures outcome { IfOk result (λ outcome. outcome_as (J.tree judge.new) outcome
        ≡ judged (J.headers judge.old) (one_literal form)
        (map (outcome_as (J.tree judge.old)) outcomes.now)) }
    ensures own { IfOk result (IsOwnOutcome (J.is_type judge.new)) }
    ensures keeps { Keeps (J.headers judge.old) (J.headers judge.new) (J.names judge.old) (J.names judge.new)
        (J.outcomes judge.old) (J.outcomes judge.new) (J.is_spent judge.old) (J.is_spent judge.new)
        (J.world judge.old) (J.world judge.new) (J.is_type judge.old) (J.is_type judge.new)
        (J.tree judge.old) (J.tree judge.new) }
{
    match first_records(alloc, judge, outcomes, 1)? {
        Given::All(recs) => of_records(alloc, judge, form, &recs),
        Given::First(d) => Ok(Outcome::Waits(d)),
        Given::Gone => Ok(Outcome::Nothing),
    }
}

// By the records of its operands, which are one.
fn of_records<J: Judge>(
    alloc: Global,
    judge: &mut J,
    form: OneForm,
    recs: &[&Rec],
) -> Result<Outcome, NoMemory>
    requires { AreOwnRecs (J.is_type judge.old) recs.now }
    ensures outcome { IfOk result (λ outcome. outcome_as (J.tree judge.new) outcome
        ≡ asked (J.headers judge.old) ((one_literal form).asks
        (recs_as (J.tree judge.old) recs.now))) }
    ensures own { IfOk result (IsOwnOutcome (J.is_type judge.new)) }
    ensures keeps { Keeps (J.headers judge.old) (J.headers judge.new) (J.names judge.old) (J.names judge.new)
        (J.outcomes judge.old) (J.outcomes judge.new) (J.is_spent judge.old) (J.is_spent judge.new)
        (J.world judge.old) (J.world judge.new) (J.is_type judge.old) (J.is_type judge.new)
        (J.tree judge.old) (J.tree judge.new) }
{
    match recs {
        [rec] => of_record(alloc, judge, form, rec),
        _ => Ok(Outcome::Nothing),
    }
}

// By the record of its operand.
fn of_record<J: Judge>(
    alloc: Global,
    judge: &mut J,
    form: OneForm,
    rec: &Rec,
) -> Result<Outcome, NoMemory>
    requires { IsOwnRec (J.is_type judge.old) rec.now }
    ensures outcome { IfOk result (λ outcome. outcome_as (J.tree judge.new) outcome
        ≡ asked (J.headers judge.old) ((one_literal form).asks
        (rec_as (J.tree judge.old) rec.now ∷ []))) }
    ensures own { IfOk result (IsOwnOutcome (J.is_type judge.new)) }
    ensures keeps { Keeps (J.headers judge.old) (J.headers judge.new) (J.names judge.old) (J.names judge.new)
        (J.outcomes judge.old) (J.outcomes judge.new) (J.is_spent judge.old) (J.is_spent judge.new)
        (J.world judge.old) (J.world judge.new) (J.is_type judge.old) (J.is_type judge.new)
        (J.tree judge.old) (J.tree judge.new) }
{
    match type_in(rec) {
        Some(ty) => {
            let ty = copy_of(judge, ty)?;
            type_literal(alloc, judge, shape_of(judge, form, ty))
        }
        None => broken_at(alloc, judge, NO_TYPE, Spot::Part(0)),
    }
}

// The form with this type in it.
fn shape_of<J: Judge>(judge: &J, form: OneForm, ty: Ty) -> Shape
    requires { J.is_type judge.now ty }
    ensures shape { shape_tree (J.tree judge.now) result ≡ of_one (head_of form) (J.tree judge.now ty) }
    ensures own { AreOwn (J.is_type judge.now) result }
{
    match form {
        OneForm::Pointer => Shape::Pointer(ty),
        OneForm::Slice => Shape::Slice(ty),
        OneForm::Chan(dir) => Shape::Chan(dir, ty),
    }
}
