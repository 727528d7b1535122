// The final type of an untyped expression (Go specification, "Constants", "Assignment statements").
ghost use Rattle.std.specs.Prelude.{◌≡◌, IfOk, IfSome, Some, option_and_then};
ghost use Rattle.std.specs.Option.{option_map};
ghost use Rattle.go_judge.specs.Records.{rec_as};
ghost use Rattle.go_judge.specs.Types.Own.{IsOwnRec, Keeps};
ghost use Rattle.go_report.specs.Finals.Untyped as spec;

use crate::interfaces::is_interface_type;
use crate::kinds::{default_type, kind_in};
use go_base::NoMemory;
use go_judge::{Judge, Rec};
use go_num::NumKind;
use go_term::Ty;
use std::alloc::Global;

/// The final type of an expression with this record that is wanted as a type, or as none. An error is want of memory.
pub fn final_at<J: Judge>(
    alloc: Global,
    judge: &mut J,
    want: &Option<Ty>,
    rec: &Rec,
) -> Result<Option<Ty>, NoMemory>
    requires want { IfSome want.now (J.is_type judge.old) }
    requires rec { IsOwnRec (J.is_type judge.old) rec.now }
    ensures end { IfOk result (λ end. option_map (J.tree judge.new) end ≡ spec.final_at (J.headers judge.old)
        (option_map (J.tree judge.old) want.now) (rec_as (J.tree judge.old) rec.now)) }
    ensures own { IfOk result (λ end. IfSome end (J.is_type judge.new)) }
    ensures keeps { Keeps (J.headers judge.old) (J.headers judge.new) (J.names judge.old) (J.names judge.new)
        (J.outcomes judge.old) (J.outcomes judge.new) (J.is_spent judge.old) (J.is_spent judge.new)
        (J.world judge.old) (J.world judge.new) (J.is_type judge.old) (J.is_type judge.new)
        (J.tree judge.old) (J.tree judge.new) }
{
    match want {
        Some(ty) => wanted_as(alloc, judge, ty, rec),
        None => Ok(None),
    }
}

// Where it is wanted as this type.
fn wanted_as<J: Judge>(
    alloc: Global,
    judge: &mut J,
    ty: &Ty,
    rec: &Rec,
) -> Result<Option<Ty>, NoMemory>
    requires ty { J.is_type judge.old ty.now }
    requires rec { IsOwnRec (J.is_type judge.old) rec.now }
    ensures end { IfOk result (λ end. option_map (J.tree judge.new) end
        ≡ option_and_then (spec.given (J.headers judge.old) (J.tree judge.old ty.now))
        (spec.kind_in (rec_as (J.tree judge.old) rec.now))) }
    ensures own { IfOk result (λ end. IfSome end (J.is_type judge.new)) }
    ensures keeps { Keeps (J.headers judge.old) (J.headers judge.new) (J.names judge.old) (J.names judge.new)
        (J.outcomes judge.old) (J.outcomes judge.new) (J.is_spent judge.old) (J.is_spent judge.new)
        (J.world judge.old) (J.world judge.new) (J.is_type judge.old) (J.is_type judge.new)
        (J.tree judge.old) (J.tree judge.new) }
{
    match kind_in(alloc, judge, rec)? {
        Some(kind) => given(alloc, judge, ty, kind),
        None => Ok(None),
    }
}

// What an untyped value of a kind has that is given this type.
fn given<J: Judge>(
    alloc: Global,
    judge: &mut J,
    ty: &Ty,
    kind: NumKind,
) -> Result<Option<Ty>, NoMemory>
    requires { J.is_type judge.old ty.now }
    ensures end { IfOk result (λ end. option_map (J.tree judge.new) end
        ≡ spec.given (J.headers judge.old) (J.tree judge.old ty.now) kind) }
    ensures own { IfOk result (λ end. IfSome end (J.is_type judge.new)) }
    ensures keeps { Keeps (J.headers judge.old) (J.headers judge.new) (J.names judge.old) (J.names judge.new)
        (J.outcomes judge.old) (J.outcomes judge.new) (J.is_spent judge.old) (J.is_spent judge.new)
        (J.world judge.old) (J.world judge.new) (J.is_type judge.old) (J.is_type judge.new)
        (J.tree judge.old) (J.tree judge.new) }
{
    match kind {
        NumKind::Nil => Ok(None),
        NumKind::Bool => given_value(alloc, judge, ty, kind),
        NumKind::Int => given_value(alloc, judge, ty, kind),
        NumKind::Rune => given_value(alloc, judge, ty, kind),
        NumKind::Text => given_value(alloc, judge, ty, kind),
    }
}

// What one has that is not nil.
fn given_value<J: Judge>(
    alloc: Global,
    judge: &mut J,
    ty: &Ty,
    kind: NumKind,
) -> Result<Option<Ty>, NoMemory>
    requires { J.is_type judge.old ty.now }
    ensures end { IfOk result (λ end. option_map (J.tree judge.new) end
        ≡ spec.given_value (J.headers judge.old) (J.tree judge.old ty.now) kind) }
    ensures own { IfOk result (λ end. IfSome end (J.is_type judge.new)) }
    ensures keeps { Keeps (J.headers judge.old) (J.headers judge.new) (J.names judge.old) (J.names judge.new)
        (J.outcomes judge.old) (J.outcomes judge.new) (J.is_spent judge.old) (J.is_spent judge.new)
        (J.world judge.old) (J.world judge.new) (J.is_type judge.old) (J.is_type judge.new)
        (J.tree judge.old) (J.tree judge.new) }
{
    if is_interface_type(alloc, judge, ty)? {
        default_type(alloc, judge, kind)
    } else {
        copy_of(judge, ty)
    }
}

/// A type that may be there once more. An error is want of memory.
pub fn some_copy<J: Judge>(judge: &J, ty: &Option<Ty>) -> Result<Option<Ty>, NoMemory>
    requires { IfSome ty.now (J.is_type judge.now) }
    ensures same { IfOk result (λ copy. option_map (J.tree judge.now) copy ≡ option_map (J.tree judge.now) ty.now) }
    ensures own { IfOk result (λ copy. IfSome copy (J.is_type judge.now)) }
{
    match ty {
        Some(ty) => copy_of(judge, ty),
        None => Ok(None),
    }
}

// A type once more, as one that may be there.
fn copy_of<J: Judge>(judge: &J, ty: &Ty) -> Result<Option<Ty>, NoMemory>
    requires { J.is_type judge.now ty.now }
    ensures same { IfOk result (λ copy. option_map (J.tree judge.now) copy ≡ Some (J.tree judge.now ty.now)) }
    ensures own { IfOk result (λ copy. IfSome copy (J.is_type judge.now)) }
{
    Ok(Some(ty.clone()?))
}
