// Identifiers (Go specification, "Operands", "Predeclared identifiers", "Iota").
ghost use Rattle.std.specs.Prelude.{◌≡◌, List, Some, IfOk, IfSome, pos};
ghost use Rattle.std.specs.Option.{option_map};
ghost use Rattle.go_num.specs.Arithmetic.{limited};
ghost use Rattle.go_constructs.specs.declared.meaning.Meaning.TheVariants as meanings;
ghost use Rattle.go_constructs.specs.Name as spec;
ghost use Rattle.go_judge.specs.declared.rec.Mode.TheVariants as modes;
ghost use Rattle.go_judge.specs.Judged as outcomes;
ghost use Rattle.go_judge.specs.Judged.{OutcomeData, judged};
ghost use Rattle.go_judge.specs.Records.{RecData, header_as, named_record, rec_as, typed_record};
ghost use Rattle.go_judge.specs.View.{outcome_as};
ghost use Rattle.go_judge.specs.Headers as known;
ghost use Rattle.go_judge.specs.Types.Own.{IsOwnHeader, IsOwnOutcome, IsOwnRec, Keeps};
ghost use Rattle.go_expr.specs.Outcomes.{iota_view};

use crate::types::{any_type, basic_type, named_type};
use go_base::NoMemory;
use go_model::{Header, Judge, Meaning, Mode, NO_VALUE, Outcome, Rec, WIDE_INTEGER, broken};
use go_module::{ObjId, UNBUILT_FORM};
use go_num::Value;
use go_term::{Basic, Ty};
use std::alloc::Global;

/// An identifier by its meaning: a constant, a variable and an alias have the record that their header gives, or wait for
/// it; a type that is defined or predeclared, and a truth value, is itself; iota is the number of the constant spec around
/// it, and breaks R1 where none stands around it; another predeclared identifier breaks U0. An error is want of memory.
pub fn name<J: Judge>(alloc: Global, judge: &mut J, meaning: Meaning) -> Result<Outcome, NoMemory>
    ensures outcome { IfOk result (λ outcome. (parts : List (OutcomeData RecData))
        → outcome_as (J.tree judge.new) outcome ≡ judged (J.headers judge.old) (spec.name meaning) parts) }
    ensures own { IfOk result (IsOwnOutcome (J.is_type judge.new)) }
    ensures keeps { Keeps (J.headers judge.old) (J.headers judge.new) (J.names judge.old) (J.names judge.new)
        (J.outcomes judge.old) (J.outcomes judge.new) (J.is_spent judge.old) (J.is_spent judge.new)
        (J.world judge.old) (J.world judge.new) (J.is_type judge.old) (J.is_type judge.new)
        (J.tree judge.old) (J.tree judge.new) }
{
    match meaning {
        Meaning::Declared(d) => {
            let header = judge.ask(d)?;
            declared(alloc, judge, d, header)
        }
        Meaning::DefinedType(d) => {
            let ty = named_type(alloc, judge, d)?;
            Ok(name_of_type(judge, d, ty))
        }
        Meaning::BasicType(d, basic) => {
            let ty = basic_type(alloc, judge, basic)?;
            Ok(name_of_type(judge, d, ty))
        }
        Meaning::AnyType(d) => {
            let ty = any_type(alloc, judge)?;
            Ok(name_of_type(judge, d, ty))
        }
        Meaning::Truth(d, truth) => {
            let ty = basic_type(alloc, judge, Basic::UntypedBool)?;
            Ok(name_of_constant(judge, d, ty, Value::Bool(truth)))
        }
        Meaning::Iota(d, number) => iota(alloc, judge, d, number),
        Meaning::Predeclared => broken(alloc, judge, UNBUILT_FORM),
        Meaning::Other => Ok(Outcome::Nothing),
    }
}

// The name of a type.
fn name_of_type<J: Judge>(judge: &J, d: ObjId, ty: Ty) -> Outcome
    requires { J.is_type judge.now ty }
    ensures outcome { outcome_as (J.tree judge.now) result
        ≡ outcomes.Found (typed_record d modes.IsType (J.tree judge.now ty)) }
    ensures own { IsOwnOutcome (J.is_type judge.now) result }
{
    Outcome::Found(typed_record(judge, d, Mode::IsType, ty))
}

// The name of a constant of this type and with this value.
fn name_of_constant<J: Judge>(judge: &J, d: ObjId, ty: Ty, value: Value) -> Outcome
    requires { J.is_type judge.now ty }
    ensures outcome { outcome_as (J.tree judge.now) result
        ≡ outcomes.Found (record (typed_record d modes.Const (J.tree judge.now ty)) { value = Some value }) }
    ensures own { IsOwnOutcome (J.is_type judge.now) result }
{
    Outcome::Found(Rec {
        mode: Mode::Const,
        ty: Some(ty),
        value: Some(value),
        object: Some(d),
        span: None,
    })
}

// The predeclared iota, by the number of the constant spec around it, where one stands around it. An error is want of
// memory.
fn iota<J: Judge>(
    alloc: Global,
    judge: &mut J,
    d: ObjId,
    number: Option<usize>,
) -> Result<Outcome, NoMemory>
    ensures outcome { IfOk result (λ outcome. (headers : known.Headers) (parts : List (OutcomeData RecData))
        → outcome_as (J.tree judge.new) outcome ≡ judged headers (spec.name (meanings.Iota d number)) parts) }
    ensures own { IfOk result (IsOwnOutcome (J.is_type judge.new)) }
    ensures keeps { Keeps (J.headers judge.old) (J.headers judge.new) (J.names judge.old) (J.names judge.new)
        (J.outcomes judge.old) (J.outcomes judge.new) (J.is_spent judge.old) (J.is_spent judge.new)
        (J.world judge.old) (J.world judge.new) (J.is_type judge.old) (J.is_type judge.new)
        (J.tree judge.old) (J.tree judge.new) }
{
    match number {
        Some(n) => numbered(alloc, judge, d, number_of_spec(n)),
        None => broken(alloc, judge, NO_VALUE),
    }
}

// The predeclared iota with this value: L2 where it is outside the limits. An error is want of memory.
fn numbered<J: Judge>(
    alloc: Global,
    judge: &mut J,
    d: ObjId,
    value: Option<i128>,
) -> Result<Outcome, NoMemory>
    ensures outcome { IfOk result (λ outcome. outcome_as (J.tree judge.new) outcome ≡ iota_view d value) }
    ensures own { IfOk result (IsOwnOutcome (J.is_type judge.new)) }
    ensures keeps { Keeps (J.headers judge.old) (J.headers judge.new) (J.names judge.old) (J.names judge.new)
        (J.outcomes judge.old) (J.outcomes judge.new) (J.is_spent judge.old) (J.is_spent judge.new)
        (J.world judge.old) (J.world judge.new) (J.is_type judge.old) (J.is_type judge.new)
        (J.tree judge.old) (J.tree judge.new) }
{
    match value {
        Some(value) => {
            let ty = basic_type(alloc, judge, Basic::UntypedInt)?;
            Ok(name_of_constant(judge, d, ty, Value::Int(value)))
        }
        None => broken(alloc, judge, WIDE_INTEGER),
    }
}

// The number of a constant spec, as a value within the limits.
fn number_of_spec(n: usize) -> Option<i128>
    ensures { result ≡ limited (pos n) }
{
    i128::try_from(n).ok()
}

// A declaration, by the header that it may have. An error is want of memory.
fn declared<J: Judge>(
    alloc: Global,
    judge: &mut J,
    d: ObjId,
    header: Option<Header>,
) -> Result<Outcome, NoMemory>
    requires { IfSome header (IsOwnHeader (J.is_type judge.old)) }
    ensures outcome { IfOk result (λ outcome. (parts : List (OutcomeData RecData))
        → outcome_as (J.tree judge.new) outcome
        ≡ judged (λ _. option_map (header_as (J.tree judge.old)) header) (spec.name (meanings.Declared d)) parts) }
    ensures own { IfOk result (IsOwnOutcome (J.is_type judge.new)) }
    ensures keeps { Keeps (J.headers judge.old) (J.headers judge.new) (J.names judge.old) (J.names judge.new)
        (J.outcomes judge.old) (J.outcomes judge.new) (J.is_spent judge.old) (J.is_spent judge.new)
        (J.world judge.old) (J.world judge.new) (J.is_type judge.old) (J.is_type judge.new)
        (J.tree judge.old) (J.tree judge.new) }
{
    match header {
        Some(header) => Ok(Outcome::Found(named_record(alloc, judge, d, header)?)),
        None => Ok(Outcome::Waits(d)),
    }
}

// The record of a name, by the header of the declaration that it denotes. An error is want of memory.
fn named_record<J: Judge>(
    alloc: Global,
    judge: &mut J,
    d: ObjId,
    header: Header,
) -> Result<Rec, NoMemory>
    requires { IsOwnHeader (J.is_type judge.old) header }
    ensures record { IfOk result (λ rec. rec_as (J.tree judge.new) rec
        ≡ named_record d (header_as (J.tree judge.old) header)) }
    ensures own { IfOk result (IsOwnRec (J.is_type judge.new)) }
    ensures keeps { Keeps (J.headers judge.old) (J.headers judge.new) (J.names judge.old) (J.names judge.new)
        (J.outcomes judge.old) (J.outcomes judge.new) (J.is_spent judge.old) (J.is_spent judge.new)
        (J.world judge.old) (J.world judge.new) (J.is_type judge.old) (J.is_type judge.new)
        (J.tree judge.old) (J.tree judge.new) }
{
    match header {
        Header::Const(ty, value) => Ok(Rec {
            mode: Mode::Const,
            ty: Some(ty),
            value: Some(value),
            object: Some(d),
            span: None,
        }),
        Header::Var(ty) => Ok(typed_record(judge, d, Mode::Var, ty)),
        Header::Func(_, ty) => Ok(typed_record(judge, d, Mode::Value, ty)),
        Header::Defined(_, _, _) => {
            let ty = named_type(alloc, judge, d)?;
            Ok(typed_record(judge, d, Mode::IsType, ty))
        }
        Header::Alias(ty) => Ok(typed_record(judge, d, Mode::IsType, ty)),
    }
}

// The record of a name of this type that has no value.
fn typed_record<J: Judge>(judge: &J, d: ObjId, mode: Mode, ty: Ty) -> Rec
    requires { J.is_type judge.now ty }
    ensures record { rec_as (J.tree judge.now) result ≡ typed_record d mode (J.tree judge.now ty) }
    ensures own { IsOwnRec (J.is_type judge.now) result }
{
    Rec {
        mode,
        ty: Some(ty),
        value: None,
        object: Some(d),
        span: None,
    }
}
