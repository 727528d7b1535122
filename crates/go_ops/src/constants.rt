// Values of constants, and the records of what operations give (Go specification, "Constants", "Constant expressions").
ghost use Rattle.std.specs.Prelude.{◌≡◌};
ghost use Rattle.std.specs.Option.{option_map};
ghost use Rattle.go_term.specs.Types.{TypeData};
ghost use Rattle.go_term.specs.declared.term.Term.{Term};
ghost use Rattle.go_judge.specs.Records.{rec_as};
ghost use Rattle.go_judge.specs.Types.Own.{IsOwnRec};
ghost use Rattle.go_constructs.specs.Operators.Constants as spec;

use go_judge::{Judge, Mode, Rec};
use go_num::Value;
use go_term::Ty;

/// The value of an operand, where it is a constant.
pub fn constant_in(rec: &Rec) -> Option<&Value>
    ensures { (tree : Term → TypeData)
        → option_map (λ value. value.now) result ≡ spec.constant_in (rec_as tree rec.now) }
{
    match rec.mode {
        Mode::Const => rec.value.as_ref(),
        Mode::NoValue => None,
        Mode::Builtin => None,
        Mode::IsType => None,
        Mode::Var => None,
        Mode::MapIndex => None,
        Mode::Value => None,
        Mode::Nil => None,
        Mode::CommaOk => None,
    }
}

/// The record of what an operation gives: of a constant of this type where it has a value, else of a value with its
/// span.
pub(crate) fn record_of<J: Judge>(
    judge: &J,
    ty: Ty,
    value: Option<Value>,
    span: Option<(i128, i128)>,
) -> Rec
    requires { J.is_type judge.now ty }
    ensures record { rec_as (J.tree judge.now) result ≡ spec.record_of (J.tree judge.now ty) value span }
    ensures own { IsOwnRec (J.is_type judge.now) result }
{
    match value {
        Some(value) => constant_record(judge, ty, value),
        None => value_record(judge, Mode::Value, ty, span),
    }
}

/// The record of a constant of this type.
pub(crate) fn constant_record<J: Judge>(judge: &J, ty: Ty, value: Value) -> Rec
    requires { J.is_type judge.now ty }
    ensures record { rec_as (J.tree judge.now) result ≡ spec.constant_record (J.tree judge.now ty) value }
    ensures own { IsOwnRec (J.is_type judge.now) result }
{
    Rec {
        mode: Mode::Const,
        ty: Some(ty),
        value: Some(value),
        object: None,
        span: None,
    }
}

/// The record of a value of this type that is no constant, with its span.
pub(crate) fn value_record<J: Judge>(
    judge: &J,
    mode: Mode,
    ty: Ty,
    span: Option<(i128, i128)>,
) -> Rec
    requires { J.is_type judge.now ty }
    ensures record { rec_as (J.tree judge.now) result ≡ spec.value_record mode (J.tree judge.now ty) span }
    ensures own { IsOwnRec (J.is_type judge.now) result }
{
    Rec {
        mode,
        ty: Some(ty),
        value: None,
        object: None,
        span,
    }
}
