// Integer, rune and string literals (Go specification, "Integer literals", "Rune literals", "String literals",
// "Constants").
ghost use Rattle.std.specs.Prelude.{◌≡◌, List, [], IfOk, unwrap_or};
ghost use Rattle.go_constructs.specs.Literal as spec;
ghost use Rattle.go_constructs.specs.Operators.Constants as constants;
ghost use Rattle.go_judge.specs.Judged as outcomes;
ghost use Rattle.go_judge.specs.Judged.{OutcomeData, judged};
ghost use Rattle.go_judge.specs.Records.{RecData};
ghost use Rattle.go_judge.specs.View.{outcome_as};
ghost use Rattle.go_judge.specs.Headers as known;
ghost use Rattle.go_judge.specs.Types.Own.{IsOwnOutcome, Keeps};
ghost use Rattle.go_scan.specs.StringTexts as texts;
ghost use Rattle.go_term.specs.Types as types;
ghost use Rattle.go_expr.specs.Outcomes.{limited_view, text_view};

use crate::rune_literal::rune_value;
use crate::types::basic_type;
use go_base::{Bytes, NoMemory};
use go_model::{Judge, Mode, Outcome, Rec, WIDE_INTEGER, broken};
use go_num::{MOST_TEXT, Value};
use go_ops::LONG_TEXT;
use go_scan::{int_lit_value, string_of};
use go_term::Basic;
use std::alloc::Global;

/// An integer literal by its text: L2 where its value is too large. An error is want of memory.
pub fn integer_literal<J: Judge>(
    alloc: Global,
    judge: &mut J,
    text: &[u8],
) -> Result<Outcome, NoMemory>
    ensures outcome { IfOk result (λ outcome. (headers : known.Headers) (parts : List (OutcomeData RecData))
        → outcome_as (J.tree judge.new) outcome ≡ judged headers (spec.integer_literal text.now) parts) }
    ensures own { IfOk result (IsOwnOutcome (J.is_type judge.new)) }
    ensures keeps { Keeps (J.headers judge.old) (J.headers judge.new) (J.names judge.old) (J.names judge.new)
        (J.outcomes judge.old) (J.outcomes judge.new) (J.is_spent judge.old) (J.is_spent judge.new)
        (J.world judge.old) (J.world judge.new) (J.is_type judge.old) (J.is_type judge.new)
        (J.tree judge.old) (J.tree judge.new) }
{
    limited_outcome(alloc, judge, Basic::UntypedInt, int_lit_value(text))
}

/// A rune literal by its text: L2 where its value is too large, which that of no literal of the language is. An error is
/// want of memory.
pub fn rune_literal<J: Judge>(
    alloc: Global,
    judge: &mut J,
    text: &[u8],
) -> Result<Outcome, NoMemory>
    ensures outcome { IfOk result (λ outcome. (headers : known.Headers) (parts : List (OutcomeData RecData))
        → outcome_as (J.tree judge.new) outcome ≡ judged headers (spec.rune_literal text.now) parts) }
    ensures own { IfOk result (IsOwnOutcome (J.is_type judge.new)) }
    ensures keeps { Keeps (J.headers judge.old) (J.headers judge.new) (J.names judge.old) (J.names judge.new)
        (J.outcomes judge.old) (J.outcomes judge.new) (J.is_spent judge.old) (J.is_spent judge.new)
        (J.world judge.old) (J.world judge.new) (J.is_type judge.old) (J.is_type judge.new)
        (J.tree judge.old) (J.tree judge.new) }
{
    let value = rune_value(alloc, text)?;
    limited_outcome(alloc, judge, Basic::UntypedRune, value)
}

/// A string literal by its text: L3 where it is too long. An error is want of memory.
pub fn string_literal<J: Judge>(
    alloc: Global,
    judge: &mut J,
    text: &[u8],
) -> Result<Outcome, NoMemory>
    ensures outcome { IfOk result (λ outcome. (headers : known.Headers) (parts : List (OutcomeData RecData))
        → outcome_as (J.tree judge.new) outcome ≡ judged headers (spec.string_literal text.now) parts) }
    ensures own { IfOk result (IsOwnOutcome (J.is_type judge.new)) }
    ensures keeps { Keeps (J.headers judge.old) (J.headers judge.new) (J.names judge.old) (J.names judge.new)
        (J.outcomes judge.old) (J.outcomes judge.new) (J.is_spent judge.old) (J.is_spent judge.new)
        (J.world judge.old) (J.world judge.new) (J.is_type judge.old) (J.is_type judge.new)
        (J.tree judge.old) (J.tree judge.new) }
{
    let bytes = bytes_of(alloc, text)?;
    text_outcome(alloc, judge, bytes)
}

/// What a value comes to that is an untyped constant of this kind: itself where it is within the limits, else it breaks
/// L2. An error is want of memory.
pub fn limited_outcome<J: Judge>(
    alloc: Global,
    judge: &mut J,
    kind: Basic,
    value: Option<i128>,
) -> Result<Outcome, NoMemory>
    ensures outcome { IfOk result (λ outcome. outcome_as (J.tree judge.new) outcome
        ≡ limited_view (types.basic_type kind) value) }
    ensures own { IfOk result (IsOwnOutcome (J.is_type judge.new)) }
    ensures keeps { Keeps (J.headers judge.old) (J.headers judge.new) (J.names judge.old) (J.names judge.new)
        (J.outcomes judge.old) (J.outcomes judge.new) (J.is_spent judge.old) (J.is_spent judge.new)
        (J.world judge.old) (J.world judge.new) (J.is_type judge.old) (J.is_type judge.new)
        (J.tree judge.old) (J.tree judge.new) }
{
    match value {
        Some(value) => constant(alloc, judge, kind, Value::Int(value)),
        None => broken(alloc, judge, WIDE_INTEGER),
    }
}

// What a string comes to: itself where it is within the limits, else it breaks L3. An error is want of memory.
fn text_outcome<J: Judge>(alloc: Global, judge: &mut J, bytes: Bytes) -> Result<Outcome, NoMemory>
    ensures outcome { IfOk result (λ outcome. outcome_as (J.tree judge.new) outcome ≡ text_view bytes) }
    ensures own { IfOk result (IsOwnOutcome (J.is_type judge.new)) }
    ensures keeps { Keeps (J.headers judge.old) (J.headers judge.new) (J.names judge.old) (J.names judge.new)
        (J.outcomes judge.old) (J.outcomes judge.new) (J.is_spent judge.old) (J.is_spent judge.new)
        (J.world judge.old) (J.world judge.new) (J.is_type judge.old) (J.is_type judge.new)
        (J.tree judge.old) (J.tree judge.new) }
{
    if bytes.as_slice().len() <= MOST_TEXT {
        constant(alloc, judge, Basic::UntypedString, Value::Text(bytes))
    } else {
        broken(alloc, judge, LONG_TEXT)
    }
}

// The bytes of the string for which a text stands, none where it is no string literal. An error is want of memory.
fn bytes_of(alloc: Global, text: &[u8]) -> Result<Bytes, NoMemory>
    ensures { IfOk result (λ bytes. bytes ≡ unwrap_or (texts.string_of text.now) []) }
{
    match string_of(alloc, text)? {
        Some(bytes) => Ok(bytes),
        None => Ok(Bytes::new(Vec::new(alloc))),
    }
}

// An untyped constant of this kind without a name. An error is want of memory.
fn constant<J: Judge>(
    alloc: Global,
    judge: &mut J,
    kind: Basic,
    value: Value,
) -> Result<Outcome, NoMemory>
    ensures outcome { IfOk result (λ outcome. outcome_as (J.tree judge.new) outcome
        ≡ outcomes.Found (constants.constant_record (types.basic_type kind) value)) }
    ensures own { IfOk result (IsOwnOutcome (J.is_type judge.new)) }
    ensures keeps { Keeps (J.headers judge.old) (J.headers judge.new) (J.names judge.old) (J.names judge.new)
        (J.outcomes judge.old) (J.outcomes judge.new) (J.is_spent judge.old) (J.is_spent judge.new)
        (J.world judge.old) (J.world judge.new) (J.is_type judge.old) (J.is_type judge.new)
        (J.tree judge.old) (J.tree judge.new) }
{
    Ok(Outcome::Found(Rec {
        mode: Mode::Const,
        ty: Some(basic_type(alloc, judge, kind)?),
        value: Some(value),
        object: None,
        span: None,
    }))
}
