// Addresses and indirections (Go specification, "Address operators", "Pointer types").
ghost use Rattle.std.specs.Prelude.{◌≡◌, Some, IfOk, IfSome};
ghost use Rattle.std.specs.Option.{option_map};
ghost use Rattle.go_term.specs.Shapes.{shape_tree};
ghost use Rattle.go_term.specs.Types as types;
ghost use Rattle.go_judge.specs.Judged.{asked};
ghost use Rattle.go_judge.specs.Records.{rec_as};
ghost use Rattle.go_judge.specs.View.{outcome_as};
ghost use Rattle.go_judge.specs.Types.Own.{AreOwn, IsOwnOutcome, IsOwnRec, Keeps};
ghost use Rattle.go_ops.specs.PointerTypes.{address_asks, term_in, typed_address, typed_outcome};
ghost use Rattle.go_constructs.specs.Operators.Pointers as spec;

use crate::constants::value_record;
use crate::limits::copy_of;
use crate::operands::refused_one;
use crate::rules::NO_ADDRESS;
use crate::source::{Source, read};
use go_base::NoMemory;
use go_judge::{DEEP_TYPE, Judge, LARGE_TYPE, Mode, Outcome, Rec, broken};
use go_term::{Shape, TermFault, Ty};
use std::alloc::Global;

/// `&x`, where it is said whether x is a composite literal, parentheses aside: R1 or R2 where x is no single value,
/// else R10 where it is neither addressable nor such a literal; L4 and L5 by the size of the pointer type. An error is
/// want of memory.
pub(crate) fn address<J: Judge>(
    alloc: Global,
    judge: &mut J,
    literal: bool,
    a: &Rec,
) -> Result<Outcome, NoMemory>
    requires { IsOwnRec (J.is_type judge.old) a.now }
    ensures outcome { IfOk result (λ outcome. outcome_as (J.tree judge.new) outcome
        ≡ asked (J.headers judge.old) (Some (spec.address literal (rec_as (J.tree judge.old) a.now)))) }
    ensures own { IfOk result (IsOwnOutcome (J.is_type judge.new)) }
    ensures keeps { Keeps (J.headers judge.old) (J.headers judge.new) (J.names judge.old) (J.names judge.new)
        (J.outcomes judge.old) (J.outcomes judge.new) (J.is_spent judge.old) (J.is_spent judge.new)
        (J.world judge.old) (J.world judge.new) (J.is_type judge.old) (J.is_type judge.new)
        (J.tree judge.old) (J.tree judge.new) }
{
    match refused_one(alloc, judge, a)? {
        Some(refused) => Ok(refused),
        None => address_of_value(alloc, judge, literal, a),
    }
}

// The address of a single value.
fn address_of_value<J: Judge>(
    alloc: Global,
    judge: &mut J,
    literal: bool,
    a: &Rec,
) -> Result<Outcome, NoMemory>
    requires { IsOwnRec (J.is_type judge.old) a.now }
    ensures outcome { IfOk result (λ outcome. outcome_as (J.tree judge.new) outcome
        ≡ asked (J.headers judge.old) (Some (address_asks literal (rec_as (J.tree judge.old) a.now)))) }
    ensures own { IfOk result (IsOwnOutcome (J.is_type judge.new)) }
    ensures keeps { Keeps (J.headers judge.old) (J.headers judge.new) (J.names judge.old) (J.names judge.new)
        (J.outcomes judge.old) (J.outcomes judge.new) (J.is_spent judge.old) (J.is_spent judge.new)
        (J.world judge.old) (J.world judge.new) (J.is_type judge.old) (J.is_type judge.new)
        (J.tree judge.old) (J.tree judge.new) }
{
    let addressable = literal || is_addressable(a.mode);
    match &a.ty {
        Some(t) => address_of_typed(alloc, judge, addressable, t),
        None => broken(alloc, judge, NO_ADDRESS),
    }
}

// The address of a value of this type, which is addressable or not.
fn address_of_typed<J: Judge>(
    alloc: Global,
    judge: &mut J,
    addressable: bool,
    t: &Ty,
) -> Result<Outcome, NoMemory>
    requires { J.is_type judge.old t.now }
    ensures outcome { IfOk result (λ outcome. outcome_as (J.tree judge.new) outcome
        ≡ typed_address (J.headers judge.old) addressable (J.tree judge.old t.now)) }
    ensures own { IfOk result (IsOwnOutcome (J.is_type judge.new)) }
    ensures keeps { Keeps (J.headers judge.old) (J.headers judge.new) (J.names judge.old) (J.names judge.new)
        (J.outcomes judge.old) (J.outcomes judge.new) (J.is_spent judge.old) (J.is_spent judge.new)
        (J.world judge.old) (J.world judge.new) (J.is_type judge.old) (J.is_type judge.new)
        (J.tree judge.old) (J.tree judge.new) }
{
    if addressable {
        pointer(alloc, judge, Mode::Value, t)
    } else {
        broken(alloc, judge, NO_ADDRESS)
    }
}

// Whether what stands for that can be addressed.
fn is_addressable(mode: Mode) -> bool
    ensures { result ≡ spec.is_addressable mode }
{
    matches!(mode, Mode::Var)
}

/// `*x`: a pointer type where x is a type, L4 and L5 by its size; else R1 or R2 where x is no single value, and R11
/// where its underlying type is no pointer. An error is want of memory.
pub(crate) fn indirection<J: Judge>(
    alloc: Global,
    judge: &mut J,
    a: &Rec,
) -> Result<Outcome, NoMemory>
    requires { IsOwnRec (J.is_type judge.old) a.now }
    ensures outcome { IfOk result (λ outcome. outcome_as (J.tree judge.new) outcome
        ≡ asked (J.headers judge.old) (Some (spec.indirection (rec_as (J.tree judge.old) a.now)))) }
    ensures own { IfOk result (IsOwnOutcome (J.is_type judge.new)) }
    ensures keeps { Keeps (J.headers judge.old) (J.headers judge.new) (J.names judge.old) (J.names judge.new)
        (J.outcomes judge.old) (J.outcomes judge.new) (J.is_spent judge.old) (J.is_spent judge.new)
        (J.world judge.old) (J.world judge.new) (J.is_type judge.old) (J.is_type judge.new)
        (J.tree judge.old) (J.tree judge.new) }
{
    match type_in(a) {
        Some(t) => pointer(alloc, judge, Mode::IsType, t),
        None => indirected(alloc, judge, a),
    }
}

// The type that a record stands for, where it stands for one.
fn type_in(rec: &Rec) -> Option<&Ty>
    ensures { option_map (λ ty. ty.now) result ≡ term_in rec.now }
{
    match rec.mode {
        Mode::IsType => rec.ty.as_ref(),
        Mode::NoValue => None,
        Mode::Builtin => None,
        Mode::Const => None,
        Mode::Var => None,
        Mode::MapIndex => None,
        Mode::Value => None,
        Mode::Nil => None,
        Mode::CommaOk => None,
    }
}

// The indirection of what is no type.
fn indirected<J: Judge>(alloc: Global, judge: &mut J, a: &Rec) -> Result<Outcome, NoMemory>
    requires { IsOwnRec (J.is_type judge.old) a.now }
    ensures outcome { IfOk result (λ outcome. outcome_as (J.tree judge.new) outcome
        ≡ asked (J.headers judge.old) (Some (spec.indirected (rec_as (J.tree judge.old) a.now)))) }
    ensures own { IfOk result (IsOwnOutcome (J.is_type judge.new)) }
    ensures keeps { Keeps (J.headers judge.old) (J.headers judge.new) (J.names judge.old) (J.names judge.new)
        (J.outcomes judge.old) (J.outcomes judge.new) (J.is_spent judge.old) (J.is_spent judge.new)
        (J.world judge.old) (J.world judge.new) (J.is_type judge.old) (J.is_type judge.new)
        (J.tree judge.old) (J.tree judge.new) }
{
    match refused_one(alloc, judge, a)? {
        Some(refused) => Ok(refused),
        None => read(alloc, judge, Source::Pointer, a),
    }
}

/// The base type of a pointer type of this form; none where the form is no pointer.
pub(crate) fn base_of<J: Judge>(judge: &J, shape: Shape) -> Option<Ty>
    requires { AreOwn (J.is_type judge.now) shape }
    ensures base { option_map (J.tree judge.now) result
        ≡ spec.base_of (Some (shape_tree (J.tree judge.now) shape)) }
    ensures own { IfSome result (J.is_type judge.now) }
{
    match shape {
        Shape::Pointer(base) => Some(base),
        _ => None,
    }
}

// What stands for that and has the type of pointers to this one. An error is want of memory.
fn pointer<J: Judge>(alloc: Global, judge: &mut J, mode: Mode, t: &Ty) -> Result<Outcome, NoMemory>
    requires { J.is_type judge.old t.now }
    ensures outcome { IfOk result (λ outcome. outcome_as (J.tree judge.new) outcome
        ≡ typed_outcome (J.headers judge.old) mode (types.of_one types.pointer (J.tree judge.old t.now))) }
    ensures own { IfOk result (IsOwnOutcome (J.is_type judge.new)) }
    ensures keeps { Keeps (J.headers judge.old) (J.headers judge.new) (J.names judge.old) (J.names judge.new)
        (J.outcomes judge.old) (J.outcomes judge.new) (J.is_spent judge.old) (J.is_spent judge.new)
        (J.world judge.old) (J.world judge.new) (J.is_type judge.old) (J.is_type judge.new)
        (J.tree judge.old) (J.tree judge.new) }
{
    let base = copy_of(judge, t)?;
    typed(alloc, judge, mode, Shape::Pointer(base))
}

// What stands for that and has the type of this form: L4 where it is deeper than 256, else L5 where it has more than
// 65,536 nodes. An error is want of memory.
fn typed<J: Judge>(
    alloc: Global,
    judge: &mut J,
    mode: Mode,
    shape: Shape,
) -> Result<Outcome, NoMemory>
    requires { AreOwn (J.is_type judge.old) shape }
    ensures outcome { IfOk result (λ outcome. outcome_as (J.tree judge.new) outcome
        ≡ typed_outcome (J.headers judge.old) mode (shape_tree (J.tree judge.old) shape)) }
    ensures own { IfOk result (IsOwnOutcome (J.is_type judge.new)) }
    ensures keeps { Keeps (J.headers judge.old) (J.headers judge.new) (J.names judge.old) (J.names judge.new)
        (J.outcomes judge.old) (J.outcomes judge.new) (J.is_spent judge.old) (J.is_spent judge.new)
        (J.world judge.old) (J.world judge.new) (J.is_type judge.old) (J.is_type judge.new)
        (J.tree judge.old) (J.tree judge.new) }
{
    match judge.make(alloc, shape) {
        Ok(ty) => Ok(Outcome::Found(value_record(judge, mode, ty, None))),
        Err(TermFault::Deep) => broken(alloc, judge, DEEP_TYPE),
        Err(TermFault::Large) => broken(alloc, judge, LARGE_TYPE),
        Err(TermFault::NoMemory) => Err(NoMemory),
    }
}
