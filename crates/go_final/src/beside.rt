// What an operand is wanted as beside another (Go specification, "Operators", "Comparison operators").
ghost use Rattle.std.specs.Prelude.{◌≡◌, IfOk, IfSome, None, Some, if◌then◌else◌, option_and_then};
ghost use Rattle.std.specs.Option.{option_map};
ghost use Rattle.go_constructs.specs.Operators.Matching as matching;
ghost use Rattle.go_judge.specs.Records.{rec_as};
ghost use Rattle.go_judge.specs.Types.Own.{IsOwnRec, Keeps};
ghost use Rattle.go_report.specs.Finals.Untyped as untyped;
ghost use Rattle.go_report.specs.Finals.Wanted as spec;

use crate::ends::some_copy;
use crate::kinds::{default_type, is_constant, is_untyped_constant, kind_in, later, some_basic};
use go_base::NoMemory;
use go_constructs::BinaryOp;
use go_judge::{Judge, Rec};
use go_num::NumKind;
use go_term::{Basic, Ty};
use std::alloc::Global;

/// What a whole with this record and this final type hands on to its operands: nothing where it is a constant. An error
/// is want of memory.
pub fn hands_on<J: Judge>(judge: &J, whole: &Rec, end: &Option<Ty>) -> Result<Option<Ty>, NoMemory>
    requires { IfSome end.now (J.is_type judge.now) }
    ensures want { IfOk result (λ want. option_map (J.tree judge.now) want
        ≡ spec.hands_on (rec_as (J.tree judge.now) whole.now) (option_map (J.tree judge.now) end.now)) }
    ensures own { IfOk result (λ want. IfSome want (J.is_type judge.now)) }
{
    if is_constant(whole.mode) {
        Ok(None)
    } else {
        some_copy(judge, end)
    }
}

/// What the left operand of an operator is wanted as, where the whole hands this on. An error is want of memory.
pub fn to_left<J: Judge>(
    alloc: Global,
    judge: &mut J,
    op: BinaryOp,
    handed: &Option<Ty>,
    x: &Rec,
    y: &Rec,
) -> Result<Option<Ty>, NoMemory>
    requires handed { IfSome handed.now (J.is_type judge.old) }
    requires left { IsOwnRec (J.is_type judge.old) x.now }
    requires right { IsOwnRec (J.is_type judge.old) y.now }
    ensures want { IfOk result (λ want. option_map (J.tree judge.new) want
        ≡ spec.to_left op (option_map (J.tree judge.old) handed.now)
        (rec_as (J.tree judge.old) x.now) (rec_as (J.tree judge.old) y.now)) }
    ensures own { IfOk result (λ want. IfSome want (J.is_type judge.new)) }
    ensures keeps { Keeps (J.headers judge.old) (J.headers judge.new) (J.names judge.old) (J.names judge.new)
        (J.outcomes judge.old) (J.outcomes judge.new) (J.is_spent judge.old) (J.is_spent judge.new)
        (J.world judge.old) (J.world judge.new) (J.is_type judge.old) (J.is_type judge.new)
        (J.tree judge.old) (J.tree judge.new) }
{
    match op {
        BinaryOp::Shifts(_) => some_copy(judge, handed),
        BinaryOp::Operates(_) => beside(alloc, judge, op, handed, x, y),
        BinaryOp::Compares(_) => beside(alloc, judge, op, handed, x, y),
    }
}

/// What the right operand is wanted as, where the whole has this record. An error is want of memory.
pub fn to_right<J: Judge>(
    alloc: Global,
    judge: &mut J,
    op: BinaryOp,
    whole: &Rec,
    handed: &Option<Ty>,
    x: &Rec,
    y: &Rec,
) -> Result<Option<Ty>, NoMemory>
    requires whole { IsOwnRec (J.is_type judge.old) whole.now }
    requires handed { IfSome handed.now (J.is_type judge.old) }
    requires left { IsOwnRec (J.is_type judge.old) x.now }
    requires right { IsOwnRec (J.is_type judge.old) y.now }
    ensures want { IfOk result (λ want. option_map (J.tree judge.new) want
        ≡ spec.to_right op (rec_as (J.tree judge.old) whole.now) (option_map (J.tree judge.old) handed.now)
        (rec_as (J.tree judge.old) x.now) (rec_as (J.tree judge.old) y.now)) }
    ensures own { IfOk result (λ want. IfSome want (J.is_type judge.new)) }
    ensures keeps { Keeps (J.headers judge.old) (J.headers judge.new) (J.names judge.old) (J.names judge.new)
        (J.outcomes judge.old) (J.outcomes judge.new) (J.is_spent judge.old) (J.is_spent judge.new)
        (J.world judge.old) (J.world judge.new) (J.is_type judge.old) (J.is_type judge.new)
        (J.tree judge.old) (J.tree judge.new) }
{
    match op {
        BinaryOp::Shifts(_) => count_wanted(alloc, judge, whole),
        BinaryOp::Operates(_) => beside(alloc, judge, op, handed, y, x),
        BinaryOp::Compares(_) => beside(alloc, judge, op, handed, y, x),
    }
}

// What the count of a shift is wanted as, where the whole has this record.
fn count_wanted<J: Judge>(alloc: Global, judge: &mut J, whole: &Rec) -> Result<Option<Ty>, NoMemory>
    requires { IsOwnRec (J.is_type judge.old) whole.now }
    ensures want { IfOk result (λ want. option_map (J.tree judge.new) want
        ≡ spec.count_wanted (rec_as (J.tree judge.old) whole.now)) }
    ensures own { IfOk result (λ want. IfSome want (J.is_type judge.new)) }
    ensures keeps { Keeps (J.headers judge.old) (J.headers judge.new) (J.names judge.old) (J.names judge.new)
        (J.outcomes judge.old) (J.outcomes judge.new) (J.is_spent judge.old) (J.is_spent judge.new)
        (J.world judge.old) (J.world judge.new) (J.is_type judge.old) (J.is_type judge.new)
        (J.tree judge.old) (J.tree judge.new) }
{
    if is_untyped_constant(alloc, judge, whole)? {
        Ok(None)
    } else {
        some_basic(alloc, judge, Basic::Uint)
    }
}

// What an operand x is wanted as beside the other, y.
fn beside<J: Judge>(
    alloc: Global,
    judge: &mut J,
    op: BinaryOp,
    handed: &Option<Ty>,
    x: &Rec,
    y: &Rec,
) -> Result<Option<Ty>, NoMemory>
    requires handed { IfSome handed.now (J.is_type judge.old) }
    requires first { IsOwnRec (J.is_type judge.old) x.now }
    requires other { IsOwnRec (J.is_type judge.old) y.now }
    ensures want { IfOk result (λ want. option_map (J.tree judge.new) want
        ≡ spec.beside op (option_map (J.tree judge.old) handed.now)
        (rec_as (J.tree judge.old) x.now) (rec_as (J.tree judge.old) y.now)) }
    ensures own { IfOk result (λ want. IfSome want (J.is_type judge.new)) }
    ensures keeps { Keeps (J.headers judge.old) (J.headers judge.new) (J.names judge.old) (J.names judge.new)
        (J.outcomes judge.old) (J.outcomes judge.new) (J.is_spent judge.old) (J.is_spent judge.new)
        (J.world judge.old) (J.world judge.new) (J.is_type judge.old) (J.is_type judge.new)
        (J.tree judge.old) (J.tree judge.new) }
{
    let kind = kind_in(alloc, judge, y)?;
    beside_kind(alloc, judge, op, handed, x, y, kind)
}

// By the kind of that.
fn beside_kind<J: Judge>(
    alloc: Global,
    judge: &mut J,
    op: BinaryOp,
    handed: &Option<Ty>,
    x: &Rec,
    y: &Rec,
    kind: Option<NumKind>,
) -> Result<Option<Ty>, NoMemory>
    requires handed { IfSome handed.now (J.is_type judge.old) }
    requires first { IsOwnRec (J.is_type judge.old) x.now }
    requires other { IsOwnRec (J.is_type judge.old) y.now }
    ensures want { IfOk result (λ want. option_map (J.tree judge.new) want
        ≡ spec.beside_kind op (option_map (J.tree judge.old) handed.now)
        (rec_as (J.tree judge.old) x.now) (rec_as (J.tree judge.old) y.now) kind) }
    ensures own { IfOk result (λ want. IfSome want (J.is_type judge.new)) }
    ensures keeps { Keeps (J.headers judge.old) (J.headers judge.new) (J.names judge.old) (J.names judge.new)
        (J.outcomes judge.old) (J.outcomes judge.new) (J.is_spent judge.old) (J.is_spent judge.new)
        (J.world judge.old) (J.world judge.new) (J.is_type judge.old) (J.is_type judge.new)
        (J.tree judge.old) (J.tree judge.new) }
{
    match (kind, op) {
        (None, _) => some_copy(judge, &y.ty),
        (Some(other), BinaryOp::Compares(_)) => compared(alloc, judge, x, y, other),
        (Some(_), _) => some_copy(judge, handed),
    }
}

// What an untyped operand x is wanted as in a comparison, beside an untyped one, y, of that kind.
fn compared<J: Judge>(
    alloc: Global,
    judge: &mut J,
    x: &Rec,
    y: &Rec,
    other: NumKind,
) -> Result<Option<Ty>, NoMemory>
    requires { IsOwnRec (J.is_type judge.old) x.now }
    ensures want { IfOk result (λ want. option_map (J.tree judge.new) want
        ≡ spec.compared (rec_as (J.tree judge.old) x.now) (rec_as (J.tree judge.old) y.now) other) }
    ensures own { IfOk result (λ want. IfSome want (J.is_type judge.new)) }
    ensures keeps { Keeps (J.headers judge.old) (J.headers judge.new) (J.names judge.old) (J.names judge.new)
        (J.outcomes judge.old) (J.outcomes judge.new) (J.is_spent judge.old) (J.is_spent judge.new)
        (J.world judge.old) (J.world judge.new) (J.is_type judge.old) (J.is_type judge.new)
        (J.tree judge.old) (J.tree judge.new) }
{
    if is_constant(x.mode) && is_constant(y.mode) {
        Ok(None)
    } else {
        default_of_later(alloc, judge, x, other)
    }
}

// The default type of the later one of its kind and that.
fn default_of_later<J: Judge>(
    alloc: Global,
    judge: &mut J,
    x: &Rec,
    other: NumKind,
) -> Result<Option<Ty>, NoMemory>
    requires { IsOwnRec (J.is_type judge.old) x.now }
    ensures want { IfOk result (λ want. option_map (J.tree judge.new) want
        ≡ option_and_then (λ kind. untyped.default_type (matching.later kind other))
        (untyped.kind_in (rec_as (J.tree judge.old) x.now))) }
    ensures own { IfOk result (λ want. IfSome want (J.is_type judge.new)) }
    ensures keeps { Keeps (J.headers judge.old) (J.headers judge.new) (J.names judge.old) (J.names judge.new)
        (J.outcomes judge.old) (J.outcomes judge.new) (J.is_spent judge.old) (J.is_spent judge.new)
        (J.world judge.old) (J.world judge.new) (J.is_type judge.old) (J.is_type judge.new)
        (J.tree judge.old) (J.tree judge.new) }
{
    match kind_in(alloc, judge, x)? {
        Some(kind) => default_type(alloc, judge, later(kind, other)),
        None => Ok(None),
    }
}
