// The operands of a node (Go specification, "Expressions", "Types"): their records, and the types that they stand for.
ghost use Rattle.std.specs.Prelude.{◌≡◌, ◌∷◌, [], ◌++◌, IfOk, OnOk, map};
ghost use Rattle.std.specs.List.{AllByRecursion};
ghost use Rattle.std.specs.Option.{option_map};
ghost use Rattle.go_term.specs.Types.{TypeData};
ghost use Rattle.go_term.specs.declared.term.Term.{Term};
ghost use Rattle.go_judge.specs.declared.outcome.Spot.TheVariants as spot;
ghost use Rattle.go_judge.specs.Judged as outcomes;
ghost use Rattle.go_judge.specs.Judged.{outcome_at, together};
ghost use Rattle.go_judge.specs.Records as records;
ghost use Rattle.go_judge.specs.Records.{rec_as};
ghost use Rattle.go_judge.specs.View.{outcome_as};
ghost use Rattle.go_judge.specs.Types.Own.{IsOwnOutcome, IsOwnRec};
ghost use Rattle.go_expr.specs.Given.{AreOwnRecs, IsOwnGiven, first_outcomes, given_as, no_type_spots, one_or_none, recs_as, spot_if_none, term_in, types_among, with_one};

use go_base::NoMemory;
use go_model::{Judge, Mode, Outcome, Rec, Spot};
use go_module::ObjId;
use go_term::Ty;
use std::alloc::Global;

/// The records of operands; where each that has none waits, what the first of these waits for; else neither.
#[derive(Drop)]
pub enum Given<'a> {
    All(Vec<&'a Rec>),
    First(ObjId),
    Gone,
}

/// The records of so many operands, the first of those with these outcomes. An error is want of memory.
pub fn first_records<'a, J: Judge>(
    alloc: Global,
    judge: &J,
    outcomes: &'a [Outcome],
    many: usize,
) -> Result<Given<'a>, NoMemory>
    requires { AllByRecursion (IsOwnOutcome (J.is_type judge.now)) outcomes.now }
    ensures given { IfOk result (λ given. given_as (J.tree judge.now) given
        ≡ together (first_outcomes (J.tree judge.now) outcomes.now many)) }
    ensures own { IfOk result (IsOwnGiven (J.is_type judge.now)) }
{
    let mut given = Given::All(Vec::new(alloc));
    for place in 0..many {
        given = with_next(judge, given, outcomes, place)?;
    }
    Ok(given)
}

// With the operand at a place; one that is not there has no record.
fn with_next<'a, J: Judge>(
    judge: &J,
    given: Given<'a>,
    outcomes: &'a [Outcome],
    place: usize,
) -> Result<Given<'a>, NoMemory>
    requires own { IsOwnGiven (J.is_type judge.now) given }
    requires outcomes { AllByRecursion (IsOwnOutcome (J.is_type judge.now)) outcomes.now }
    ensures given { IfOk result (λ next. given_as (J.tree judge.now) next ≡ with_one
        (given_as (J.tree judge.now) given.entry)
        (outcome_at (map (outcome_as (J.tree judge.now)) outcomes.now) place)) }
    ensures own { IfOk result (IsOwnGiven (J.is_type judge.now)) }
{
    match outcomes.get(place) {
        Some(outcome) => with_one(judge, given, outcome),
        None => Ok(Given::Gone),
    }
}

// With one more operand.
fn with_one<'a, J: Judge>(
    judge: &J,
    given: Given<'a>,
    outcome: &'a Outcome,
) -> Result<Given<'a>, NoMemory>
    requires own { IsOwnGiven (J.is_type judge.now) given }
    requires outcome { IsOwnOutcome (J.is_type judge.now) outcome.now }
    ensures given { IfOk result (λ next. given_as (J.tree judge.now) next ≡ with_one
        (given_as (J.tree judge.now) given.entry) (outcome_as (J.tree judge.now) outcome.now)) }
    ensures own { IfOk result (IsOwnGiven (J.is_type judge.now)) }
{
    match given {
        Given::All(recs) => behind_records(judge, recs, outcome),
        Given::First(d) => Ok(behind_wait(judge, d, outcome)),
        Given::Gone => Ok(Given::Gone),
    }
}

// With one more operand behind others that have records.
fn behind_records<'a, J: Judge>(
    judge: &J,
    recs: Vec<&'a Rec>,
    outcome: &'a Outcome,
) -> Result<Given<'a>, NoMemory>
    requires own { AreOwnRecs (J.is_type judge.now) recs.items }
    requires outcome { IsOwnOutcome (J.is_type judge.now) outcome.now }
    ensures given { IfOk result (λ next. given_as (J.tree judge.now) next ≡ with_one
        (outcomes.All (recs_as (J.tree judge.now) recs.entry.items))
        (outcome_as (J.tree judge.now) outcome.now)) }
    ensures own { IfOk result (IsOwnGiven (J.is_type judge.now)) }
{
    match outcome {
        Outcome::Found(rec) => Ok(Given::All(with_record(judge, recs, rec)?)),
        Outcome::Waits(d) => Ok(Given::First(*d)),
        Outcome::Broken(_, _) => Ok(Given::Gone),
        Outcome::Nothing => Ok(Given::Gone),
    }
}

fn with_record<'a, J: Judge>(
    judge: &J,
    recs: Vec<&'a Rec>,
    rec: &'a Rec,
) -> Result<Vec<&'a Rec>, NoMemory>
    requires own { AreOwnRecs (J.is_type judge.now) recs.items }
    requires rec { IsOwnRec (J.is_type judge.now) rec.now }
    ensures recs { IfOk result (λ all. recs_as (J.tree judge.now) all.items
        ≡ recs_as (J.tree judge.now) recs.entry.items ++ rec_as (J.tree judge.now) rec.now ∷ []) }
    ensures own { IfOk result (λ all. AreOwnRecs (J.is_type judge.now) all.items) }
{
    let mut all = recs;
    all.push(rec)?;
    Ok(all)
}

// With one more operand behind others of which the first without a record waits for this declaration.
fn behind_wait<'a, J: Judge>(judge: &J, d: ObjId, outcome: &'a Outcome) -> Given<'a>
    ensures given { given_as (J.tree judge.now) result
        ≡ with_one (outcomes.First d.0) (outcome_as (J.tree judge.now) outcome.now) }
    ensures own { IsOwnGiven (J.is_type judge.now) result }
{
    match outcome {
        Outcome::Found(_) => Given::First(d),
        Outcome::Waits(_) => Given::First(d),
        Outcome::Broken(_, _) => Given::Gone,
        Outcome::Nothing => Given::Gone,
    }
}

/// The places of those operands that are no type. An error is want of memory.
pub fn no_types(alloc: Global, recs: &[&Rec]) -> Result<Vec<Spot>, NoMemory>
    ensures { IfOk result (λ spots. (tree : Term → TypeData)
        → spots.items ≡ no_type_spots 0 (recs_as tree recs.now)) }
{
    let mut spots = Vec::new(alloc);
    for place in 0..recs.len() {
        push_if_none(&mut spots, place, recs[place])?;
    }
    Ok(spots)
}

// Pushes the place of a record that is no type.
fn push_if_none(spots: &mut Vec<Spot>, place: usize, rec: &Rec) -> Result<(), NoMemory>
    ensures { OnOk result ((tree : Term → TypeData) → spots.new.items
        ≡ spots.old.items ++ spot_if_none (spot.Part place) (records.type_in (rec_as tree rec.now))) }
{
    match type_in(rec) {
        Some(_) => Ok(()),
        None => push_spot(spots, place),
    }
}

fn push_spot(spots: &mut Vec<Spot>, place: usize) -> Result<(), NoMemory>
    ensures { OnOk result (spots.new.items ≡ spots.old.items ++ spot.Part place ∷ []) }
{
    spots.push(Spot::Part(place))?;
    Ok(())
}

/// The types that these stand for, in their order. An error is want of memory.
pub fn types_of<J: Judge>(alloc: Global, judge: &J, recs: &[&Rec]) -> Result<Vec<Ty>, NoMemory>
    requires { AreOwnRecs (J.is_type judge.now) recs.now }
    ensures types { IfOk result (λ types. map (J.tree judge.now) types.items
        ≡ types_among (recs_as (J.tree judge.now) recs.now)) }
    ensures own { IfOk result (λ types. AllByRecursion (J.is_type judge.now) types.items) }
{
    let mut types = Vec::new(alloc);
    for rec in recs {
        push_type(judge, &mut types, rec)?;
    }
    Ok(types)
}

// Pushes the type that a record stands for, where it stands for one.
fn push_type<J: Judge>(judge: &J, types: &mut Vec<Ty>, rec: &Rec) -> Result<(), NoMemory>
    requires own { AllByRecursion (J.is_type judge.now) types.old.items }
    requires rec { IsOwnRec (J.is_type judge.now) rec.now }
    ensures types { OnOk result (map (J.tree judge.now) types.new.items
        ≡ map (J.tree judge.now) types.old.items ++ one_or_none (records.type_in (rec_as (J.tree judge.now) rec.now))) }
    ensures own { AllByRecursion (J.is_type judge.now) types.new.items }
{
    match type_in(rec) {
        Some(ty) => push_copy(judge, types, ty),
        None => Ok(()),
    }
}

/// Pushes a type once more. An error is want of memory.
pub fn push_copy<J: Judge>(judge: &J, types: &mut Vec<Ty>, ty: &Ty) -> Result<(), NoMemory>
    requires own { AllByRecursion (J.is_type judge.now) types.old.items }
    requires ty { J.is_type judge.now ty.now }
    ensures types { OnOk result (map (J.tree judge.now) types.new.items
        ≡ map (J.tree judge.now) types.old.items ++ J.tree judge.now ty.now ∷ []) }
    ensures own { AllByRecursion (J.is_type judge.now) types.new.items }
{
    types.push(copy_of(judge, ty)?)?;
    Ok(())
}

/// A type once more. An error is want of memory.
pub fn copy_of<J: Judge>(judge: &J, ty: &Ty) -> Result<Ty, NoMemory>
    requires { J.is_type judge.now ty.now }
    ensures same { IfOk result (λ copy. J.tree judge.now copy ≡ J.tree judge.now ty.now) }
    ensures own { IfOk result (J.is_type judge.now) }
{
    Ok(ty.clone()?)
}

/// The type that a record stands for, where it stands for one.
pub fn type_in(rec: &Rec) -> Option<&Ty>
    ensures { option_map (λ ty. ty.now) result ≡ term_in rec.now }
{
    match rec.mode {
        Mode::IsType => rec.ty.as_ref(),
        Mode::NoValue => None,
        Mode::Builtin => None,
        Mode::Const => None,
        Mode::Var => None,
        Mode::MapIndex => None,
        Mode::Value => None,
        Mode::Nil => None,
        Mode::CommaOk => None,
    }
}
