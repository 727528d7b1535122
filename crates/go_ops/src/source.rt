// What is read through a pointer and from a channel (Go specification, "Address operators", "Receive operator").
ghost use Rattle.std.specs.Prelude.{◌≡◌, Some, IfOk, IfSome};
ghost use Rattle.std.specs.Option.{option_map};
ghost use Rattle.go_term.specs.Shapes.{shape_tree};
ghost use Rattle.go_judge.specs.Judged.{asked};
ghost use Rattle.go_judge.specs.Records.{rec_as};
ghost use Rattle.go_judge.specs.View.{outcome_as};
ghost use Rattle.go_judge.specs.Types.Forms.{IsOwnForm, form_as, underlying_over};
ghost use Rattle.go_judge.specs.Types.Own.{AreOwn, IsOwnOutcome, IsOwnRec, Keeps};
ghost use Rattle.go_ops.specs.Sources as spec;
ghost use Rattle.go_ops.specs.Sources.{read_asked, read_asks, read_outcome};

use crate::channels::received_from;
use crate::constants::value_record;
use crate::pointers::base_of;
use crate::rules::{NO_POINTER, NO_RECEIVE};
use go_base::{NoMemory, Rule};
use go_judge::{Form, Judge, Mode, Outcome, Rec, broken};
use go_term::{Shape, Ty};
use std::alloc::Global;

/// What a value is read from.
#[derive(Clone, Copy)]
pub(crate) enum Source {
    Pointer,
    Channel,
}

/// What is read from a single value: R11 where it is no pointer, R12 where it is no channel that permits receive
/// operations. An error is want of memory.
pub(crate) fn read<J: Judge>(
    alloc: Global,
    judge: &mut J,
    source: Source,
    a: &Rec,
) -> Result<Outcome, NoMemory>
    requires { IsOwnRec (J.is_type judge.old) a.now }
    ensures outcome { IfOk result (λ outcome. outcome_as (J.tree judge.new) outcome
        ≡ asked (J.headers judge.old) (Some (read_asks source (rec_as (J.tree judge.old) a.now)))) }
    ensures own { IfOk result (IsOwnOutcome (J.is_type judge.new)) }
    ensures keeps { Keeps (J.headers judge.old) (J.headers judge.new) (J.names judge.old) (J.names judge.new)
        (J.outcomes judge.old) (J.outcomes judge.new) (J.is_spent judge.old) (J.is_spent judge.new)
        (J.world judge.old) (J.world judge.new) (J.is_type judge.old) (J.is_type judge.new)
        (J.tree judge.old) (J.tree judge.new) }
{
    match &a.ty {
        Some(t) => read_typed(alloc, judge, source, t),
        None => broken(alloc, judge, rule_of(source)),
    }
}

// From a value of this type.
fn read_typed<J: Judge>(
    alloc: Global,
    judge: &mut J,
    source: Source,
    t: &Ty,
) -> Result<Outcome, NoMemory>
    requires { J.is_type judge.old t.now }
    ensures outcome { IfOk result (λ outcome. outcome_as (J.tree judge.new) outcome
        ≡ read_asked source (underlying_over (J.headers judge.old) (J.tree judge.old t.now))) }
    ensures own { IfOk result (IsOwnOutcome (J.is_type judge.new)) }
    ensures keeps { Keeps (J.headers judge.old) (J.headers judge.new) (J.names judge.old) (J.names judge.new)
        (J.outcomes judge.old) (J.outcomes judge.new) (J.is_spent judge.old) (J.is_spent judge.new)
        (J.world judge.old) (J.world judge.new) (J.is_type judge.old) (J.is_type judge.new)
        (J.tree judge.old) (J.tree judge.new) }
{
    let form = judge.underlying(alloc, t)?;
    read_form(alloc, judge, source, &form)
}

// By the underlying type; from a value without one nothing is read.
fn read_form<J: Judge>(
    alloc: Global,
    judge: &mut J,
    source: Source,
    form: &Form,
) -> Result<Outcome, NoMemory>
    requires { IsOwnForm (J.is_type judge.old) form.now }
    ensures outcome { IfOk result (λ outcome. outcome_as (J.tree judge.new) outcome
        ≡ read_asked source (form_as (J.tree judge.old) form.now)) }
    ensures own { IfOk result (IsOwnOutcome (J.is_type judge.new)) }
    ensures keeps { Keeps (J.headers judge.old) (J.headers judge.new) (J.names judge.old) (J.names judge.new)
        (J.outcomes judge.old) (J.outcomes judge.new) (J.is_spent judge.old) (J.is_spent judge.new)
        (J.world judge.old) (J.world judge.new) (J.is_type judge.old) (J.is_type judge.new)
        (J.tree judge.old) (J.tree judge.new) }
{
    match form {
        Form::Is(u) => read_literal(alloc, judge, source, u),
        Form::Absent => read_absent(alloc, judge, source),
        Form::Unknown(d) => Ok(Outcome::Waits(*d)),
    }
}

fn read_absent<J: Judge>(alloc: Global, judge: &J, source: Source) -> Result<Outcome, NoMemory>
    ensures outcome { IfOk result (λ outcome. outcome_as (J.tree judge.now) outcome
        ≡ read_outcome source (spec.read_of source None)) }
    ensures own { IfOk result (IsOwnOutcome (J.is_type judge.now)) }
{
    broken(alloc, judge, rule_of(source))
}

// By the underlying type that there is.
fn read_literal<J: Judge>(
    alloc: Global,
    judge: &mut J,
    source: Source,
    u: &Ty,
) -> Result<Outcome, NoMemory>
    requires { J.is_type judge.old u.now }
    ensures outcome { IfOk result (λ outcome. outcome_as (J.tree judge.new) outcome
        ≡ read_outcome source (spec.read_of source (Some (J.tree judge.old u.now)))) }
    ensures own { IfOk result (IsOwnOutcome (J.is_type judge.new)) }
    ensures keeps { Keeps (J.headers judge.old) (J.headers judge.new) (J.names judge.old) (J.names judge.new)
        (J.outcomes judge.old) (J.outcomes judge.new) (J.is_spent judge.old) (J.is_spent judge.new)
        (J.world judge.old) (J.world judge.new) (J.is_type judge.old) (J.is_type judge.new)
        (J.tree judge.old) (J.tree judge.new) }
{
    let shape = judge.see(alloc, u)?;
    let read = read_of(judge, source, shape);
    found(alloc, judge, source, read)
}

// The type of what is read from a value whose underlying type has this form.
fn read_of<J: Judge>(judge: &J, source: Source, shape: Shape) -> Option<Ty>
    requires { AreOwn (J.is_type judge.now) shape }
    ensures read { option_map (J.tree judge.now) result
        ≡ spec.read_of source (Some (shape_tree (J.tree judge.now) shape)) }
    ensures own { IfSome result (J.is_type judge.now) }
{
    match source {
        Source::Pointer => base_of(judge, shape),
        Source::Channel => received_from(judge, shape),
    }
}

// By the type of what is read, where there is one.
fn found<J: Judge>(
    alloc: Global,
    judge: &J,
    source: Source,
    read: Option<Ty>,
) -> Result<Outcome, NoMemory>
    requires { IfSome read (J.is_type judge.now) }
    ensures outcome { IfOk result (λ outcome. outcome_as (J.tree judge.now) outcome
        ≡ read_outcome source (option_map (J.tree judge.now) read)) }
    ensures own { IfOk result (IsOwnOutcome (J.is_type judge.now)) }
{
    match read {
        Some(t) => Ok(Outcome::Found(value_record(judge, mode_of(source), t, None))),
        None => broken(alloc, judge, rule_of(source)),
    }
}

fn rule_of(source: Source) -> Rule
    ensures { result ≡ spec.rule_of source }
{
    match source {
        Source::Pointer => NO_POINTER,
        Source::Channel => NO_RECEIVE,
    }
}

// What stands for a value that is read.
fn mode_of(source: Source) -> Mode
    ensures { result ≡ spec.mode_of source }
{
    match source {
        Source::Pointer => Mode::Var,
        Source::Channel => Mode::CommaOk,
    }
}
