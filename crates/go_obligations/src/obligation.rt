// What is demanded of types, and what is broken where a type does not meet it (Go specification, "Struct types",
// "General interfaces", "Interface types", "Embedded interfaces").
ghost use Rattle.std.specs.Prelude.{◌≡◌, ◌↔◌, IfOk, IfSome, OnOk, Contains, false, true};
ghost use Rattle.go_base.specs.declared.rule.Broken.{Broken};
ghost use Rattle.go_module.specs.Broken.{broken_at};
ghost use Rattle.go_model.specs.Obligations.Embedding as embedding;
ghost use Rattle.go_judge.specs.Types.Forms.{answer_as};
ghost use Rattle.go_judge.specs.Types.Own.{Keeps};
ghost use Rattle.go_judge.specs.Quests.{Decided, run};
ghost use Rattle.go_obligations.specs.Answers.{AreAnswers, IsKeyOf};
ghost use Rattle.go_obligations.specs.Owed as spec;

use crate::answers::{Answers, NamedKey};
use crate::conflicts::gets_two;
use crate::constraint::is_constraint;
use crate::embedding::may_be_embedded;
use crate::named::key_of;
use crate::rules::{DIFFERING_METHODS, INVALID_EMBEDDING, MISUSED_CONSTRAINT};
use go_base::{Broken, NoMemory, Rule};
use go_model::{Answer, Forms, Same};
use go_module::{add_if, broken_at};
use go_term::Ty;
use go_tree::NodeKind;
use std::alloc::Global;

/// What is demanded of a type: that it is no constraint; that it may stand for an embedded field of this kind; that it
/// gets each method with one type.
#[derive(Clone, Copy, Debug)]
pub(crate) enum Demand {
    NoConstraint,
    Embeddable(NodeKind),
    OneTypeEach,
}

/// A demand on a type, with the place of the file among those of the package and the offset at which it is told where
/// the type does not meet it.
#[derive(Debug, Drop)]
pub(crate) struct Obligation {
    pub file: usize,
    pub offset: usize,
    pub demand: Demand,
    pub ty: Ty,
}

/// What is broken of these, over the headers that the judge knows. An error is want of memory.
pub(crate) fn broken_of<J: Same>(
    alloc: Global,
    judge: &mut J,
    owed: &[Obligation],
) -> Result<Vec<Broken>, NoMemory>
    requires { spec.AreOwnObligations (J.is_type judge.old) owed.now }
    ensures told { IfOk result (λ found. (b : Broken) → Contains found.items b
        ↔ spec.IsTold (J.headers judge.old) (spec.owed_view (J.tree judge.old) owed.now) b) }
    ensures keeps { Keeps (J.headers judge.old) (J.headers judge.new) (J.names judge.old) (J.names judge.new)
        (J.outcomes judge.old) (J.outcomes judge.new) (J.is_spent judge.old) (J.is_spent judge.new)
        (J.world judge.old) (J.world judge.new) (J.is_type judge.old) (J.is_type judge.new)
        (J.tree judge.old) (J.tree judge.new) }
{
    let mut found = Vec::new(alloc);
    let mut answers = Answers::new(alloc);
    for obligation in owed {
        let fails = fails_once(alloc, judge, obligation, &mut answers)?;
        add_if(&mut found, fails, told(obligation))?;
    }
    Ok(found)
}

// The rule, told at its offset.
fn told(obligation: &Obligation) -> Broken
    ensures { result ≡ broken_at obligation.now.file obligation.now.offset (spec.rule_of obligation.now.demand) }
{
    broken_at(
        obligation.file,
        obligation.offset,
        rule_of(obligation.demand),
    )
}

fn rule_of(demand: Demand) -> Rule
    ensures { result ≡ spec.rule_of demand }
{
    match demand {
        Demand::NoConstraint => MISUSED_CONSTRAINT,
        Demand::Embeddable(_) => INVALID_EMBEDDING,
        Demand::OneTypeEach => DIFFERING_METHODS,
    }
}

// Whether the type does not meet the demand, where it is a name alone asked once.
fn fails_once<J: Same>(
    alloc: Global,
    judge: &mut J,
    obligation: &Obligation,
    answers: &mut Answers,
) -> Result<bool, NoMemory>
    requires own { J.is_type judge.old obligation.now.ty }
    requires answers { AreAnswers (J.headers judge.old) answers.old }
    ensures fails { IfOk result (λ yes. (yes ≡ true) ↔ spec.Fails (J.headers judge.old) obligation.now.demand
        (J.tree judge.old obligation.now.ty)) }
    ensures answers { OnOk result (AreAnswers (J.headers judge.old) answers.new) }
    ensures keeps { Keeps (J.headers judge.old) (J.headers judge.new) (J.names judge.old) (J.names judge.new)
        (J.outcomes judge.old) (J.outcomes judge.new) (J.is_spent judge.old) (J.is_spent judge.new)
        (J.world judge.old) (J.world judge.new) (J.is_type judge.old) (J.is_type judge.new)
        (J.tree judge.old) (J.tree judge.new) }
{
    let key = key_of(alloc, judge, obligation.demand, &obligation.ty)?;
    fails_by(alloc, judge, obligation, key, answers)
}

fn fails_by<J: Same>(
    alloc: Global,
    judge: &mut J,
    obligation: &Obligation,
    key: Option<NamedKey>,
    answers: &mut Answers,
) -> Result<bool, NoMemory>
    requires own { J.is_type judge.old obligation.now.ty }
    requires key { IfSome key (IsKeyOf obligation.now.demand (J.tree judge.old obligation.now.ty)) }
    requires answers { AreAnswers (J.headers judge.old) answers.old }
    ensures fails { IfOk result (λ yes. (yes ≡ true) ↔ spec.Fails (J.headers judge.old) obligation.now.demand
        (J.tree judge.old obligation.now.ty)) }
    ensures answers { OnOk result (AreAnswers (J.headers judge.old) answers.new) }
    ensures keeps { Keeps (J.headers judge.old) (J.headers judge.new) (J.names judge.old) (J.names judge.new)
        (J.outcomes judge.old) (J.outcomes judge.new) (J.is_spent judge.old) (J.is_spent judge.new)
        (J.world judge.old) (J.world judge.new) (J.is_type judge.old) (J.is_type judge.new)
        (J.tree judge.old) (J.tree judge.new) }
{
    match key {
        Some(key) => fails_at(alloc, judge, obligation, key, answers),
        None => fails(alloc, judge, obligation),
    }
}

// By the answer that is kept at the key, if any.
fn fails_at<J: Same>(
    alloc: Global,
    judge: &mut J,
    obligation: &Obligation,
    key: NamedKey,
    answers: &mut Answers,
) -> Result<bool, NoMemory>
    requires own { J.is_type judge.old obligation.now.ty }
    requires key { IsKeyOf obligation.now.demand (J.tree judge.old obligation.now.ty) key }
    requires answers { AreAnswers (J.headers judge.old) answers.old }
    ensures fails { IfOk result (λ yes. (yes ≡ true) ↔ spec.Fails (J.headers judge.old) obligation.now.demand
        (J.tree judge.old obligation.now.ty)) }
    ensures answers { OnOk result (AreAnswers (J.headers judge.old) answers.new) }
    ensures keeps { Keeps (J.headers judge.old) (J.headers judge.new) (J.names judge.old) (J.names judge.new)
        (J.outcomes judge.old) (J.outcomes judge.new) (J.is_spent judge.old) (J.is_spent judge.new)
        (J.world judge.old) (J.world judge.new) (J.is_type judge.old) (J.is_type judge.new)
        (J.tree judge.old) (J.tree judge.new) }
{
    match answers.get(key) {
        Some(kept) => Ok(kept),
        None => keep_answer(alloc, judge, obligation, key, answers),
    }
}

// Asks, and keeps the answer.
fn keep_answer<J: Same>(
    alloc: Global,
    judge: &mut J,
    obligation: &Obligation,
    key: NamedKey,
    answers: &mut Answers,
) -> Result<bool, NoMemory>
    requires own { J.is_type judge.old obligation.now.ty }
    requires key { IsKeyOf obligation.now.demand (J.tree judge.old obligation.now.ty) key }
    requires answers { AreAnswers (J.headers judge.old) answers.old }
    ensures fails { IfOk result (λ yes. (yes ≡ true) ↔ spec.Fails (J.headers judge.old) obligation.now.demand
        (J.tree judge.old obligation.now.ty)) }
    ensures answers { OnOk result (AreAnswers (J.headers judge.old) answers.new) }
    ensures keeps { Keeps (J.headers judge.old) (J.headers judge.new) (J.names judge.old) (J.names judge.new)
        (J.outcomes judge.old) (J.outcomes judge.new) (J.is_spent judge.old) (J.is_spent judge.new)
        (J.world judge.old) (J.world judge.new) (J.is_type judge.old) (J.is_type judge.new)
        (J.tree judge.old) (J.tree judge.new) }
{
    let fails = fails(alloc, judge, obligation)?;
    answers.add(key, fails)?;
    Ok(fails)
}

// Whether the type does not meet the demand.
fn fails<J: Same>(alloc: Global, judge: &mut J, obligation: &Obligation) -> Result<bool, NoMemory>
    requires { J.is_type judge.old obligation.now.ty }
    ensures fails { IfOk result (λ yes. (yes ≡ true) ↔ spec.Fails (J.headers judge.old) obligation.now.demand
        (J.tree judge.old obligation.now.ty)) }
    ensures keeps { Keeps (J.headers judge.old) (J.headers judge.new) (J.names judge.old) (J.names judge.new)
        (J.outcomes judge.old) (J.outcomes judge.new) (J.is_spent judge.old) (J.is_spent judge.new)
        (J.world judge.old) (J.world judge.new) (J.is_type judge.old) (J.is_type judge.new)
        (J.tree judge.old) (J.tree judge.new) }
{
    match obligation.demand {
        Demand::NoConstraint => is_constraint(alloc, judge, &obligation.ty),
        Demand::Embeddable(kind) => may_not_be_embedded(alloc, judge, kind, &obligation.ty),
        Demand::OneTypeEach => gets_two(alloc, judge, &obligation.ty),
    }
}

// Whether it is decided that a type may not stand for an embedded field of this kind.
fn may_not_be_embedded<F: Forms>(
    alloc: Global,
    judge: &mut F,
    kind: NodeKind,
    t: &Ty,
) -> Result<bool, NoMemory>
    requires { F.is_type judge.old t.now }
    ensures decided { IfOk result (λ yes. (yes ≡ true)
        ↔ (run (F.headers judge.old) (embedding.may_be_embedded kind (F.tree judge.old t.now)) ≡ Decided false)) }
    ensures keeps { Keeps (F.headers judge.old) (F.headers judge.new) (F.names judge.old) (F.names judge.new)
        (F.outcomes judge.old) (F.outcomes judge.new) (F.is_spent judge.old) (F.is_spent judge.new)
        (F.world judge.old) (F.world judge.new) (F.is_type judge.old) (F.is_type judge.new)
        (F.tree judge.old) (F.tree judge.new) }
{
    let answer = may_be_embedded(alloc, judge, kind, t)?;
    Ok(is_no(answer))
}

fn is_no(answer: Answer) -> bool
    ensures { (result ≡ true) ↔ (answer_as answer ≡ Decided false) }
{
    matches!(answer, Answer::No)
}
