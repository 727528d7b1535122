// The kinds of untyped values, and their default types (Go specification, "Constants").
ghost use Rattle.std.specs.Prelude.{◌≡◌, ◌&&◌, IfOk, IfSome, Some, option_and_then};
ghost use Rattle.std.specs.Option.{option_map};
ghost use Rattle.go_term.specs.Shapes.{shape_tree};
ghost use Rattle.go_term.specs.Types.{TypeData, basic_type};
ghost use Rattle.go_term.specs.declared.term.Term.{Term};
ghost use Rattle.go_constructs.specs.Operators.Matching as matching;
ghost use Rattle.go_constructs.specs.Operators.Sorts.{sort_of_basic};
ghost use Rattle.go_judge.specs.Operands.{is_constant_mode, is_value_mode};
ghost use Rattle.go_judge.specs.Records.{rec_as};
ghost use Rattle.go_judge.specs.Types.Own.{IsOwnRec, Keeps};
ghost use Rattle.go_report.specs.Finals.Untyped as spec;

use go_base::NoMemory;
use go_expr::basic_type;
use go_judge::{Judge, Mode, Rec};
use go_num::NumKind;
use go_term::{Basic, Shape, Ty};
use std::alloc::Global;

/// The kind of an untyped value; None of what is typed, and of what is no value. An error is want of memory.
pub fn kind_in<J: Judge>(
    alloc: Global,
    judge: &mut J,
    rec: &Rec,
) -> Result<Option<NumKind>, NoMemory>
    requires { IsOwnRec (J.is_type judge.old) rec.now }
    ensures kind { IfOk result (λ kind. kind ≡ spec.kind_in (rec_as (J.tree judge.old) rec.now)) }
    ensures keeps { Keeps (J.headers judge.old) (J.headers judge.new) (J.names judge.old) (J.names judge.new)
        (J.outcomes judge.old) (J.outcomes judge.new) (J.is_spent judge.old) (J.is_spent judge.new)
        (J.world judge.old) (J.world judge.new) (J.is_type judge.old) (J.is_type judge.new)
        (J.tree judge.old) (J.tree judge.new) }
{
    if is_value(rec.mode) {
        kind_by(alloc, judge, &rec.ty)
    } else {
        Ok(None)
    }
}

// The kind of a type that may be there.
fn kind_by<J: Judge>(
    alloc: Global,
    judge: &mut J,
    ty: &Option<Ty>,
) -> Result<Option<NumKind>, NoMemory>
    requires { IfSome ty.now (J.is_type judge.old) }
    ensures kind { IfOk result (λ kind. kind
        ≡ option_and_then spec.untyped_kind (option_map (J.tree judge.old) ty.now)) }
    ensures keeps { Keeps (J.headers judge.old) (J.headers judge.new) (J.names judge.old) (J.names judge.new)
        (J.outcomes judge.old) (J.outcomes judge.new) (J.is_spent judge.old) (J.is_spent judge.new)
        (J.world judge.old) (J.world judge.new) (J.is_type judge.old) (J.is_type judge.new)
        (J.tree judge.old) (J.tree judge.new) }
{
    match ty {
        Some(ty) => untyped_kind(alloc, judge, ty),
        None => Ok(None),
    }
}

// The kind of an untyped type.
fn untyped_kind<J: Judge>(
    alloc: Global,
    judge: &mut J,
    ty: &Ty,
) -> Result<Option<NumKind>, NoMemory>
    requires { J.is_type judge.old ty.now }
    ensures kind { IfOk result (λ kind. kind ≡ spec.untyped_kind (J.tree judge.old ty.now)) }
    ensures keeps { Keeps (J.headers judge.old) (J.headers judge.new) (J.names judge.old) (J.names judge.new)
        (J.outcomes judge.old) (J.outcomes judge.new) (J.is_spent judge.old) (J.is_spent judge.new)
        (J.world judge.old) (J.world judge.new) (J.is_type judge.old) (J.is_type judge.new)
        (J.tree judge.old) (J.tree judge.new) }
{
    let shape = judge.see(alloc, ty)?;
    Ok(kind_of_shape(&shape))
}

// By the outer form of a type.
fn kind_of_shape(shape: &Shape) -> Option<NumKind>
    ensures { (tree : Term → TypeData) → result ≡ spec.untyped_kind (shape_tree tree shape.now) }
{
    match shape {
        Shape::Basic(basic) => kind_of_basic(*basic),
        Shape::Pointer(_) => None,
        Shape::Slice(_) => None,
        Shape::Array(_, _) => None,
        Shape::Map(_, _) => None,
        Shape::Chan(_, _) => None,
        Shape::Func(_) => None,
        Shape::Struct(_) => None,
        Shape::Interface(_) => None,
        Shape::Tuple(_) => None,
        Shape::Named(_, _) => None,
        Shape::Param(_, _) => None,
        Shape::Bound(_) => None,
    }
}

fn kind_of_basic(basic: Basic) -> Option<NumKind>
    ensures { result ≡ spec.kind_at (sort_of_basic basic) }
{
    match basic {
        Basic::UntypedBool => Some(NumKind::Bool),
        Basic::UntypedInt => Some(NumKind::Int),
        Basic::UntypedRune => Some(NumKind::Rune),
        Basic::UntypedString => Some(NumKind::Text),
        Basic::UntypedNil => Some(NumKind::Nil),
        _ => None,
    }
}

// Whether what stands for that is a value.
fn is_value(mode: Mode) -> bool
    ensures { result ≡ is_value_mode mode }
{
    !matches!(mode, Mode::NoValue | Mode::Builtin | Mode::IsType)
}

/// Whether what stands for that is a constant.
pub fn is_constant(mode: Mode) -> bool
    ensures { result ≡ is_constant_mode mode }
{
    matches!(mode, Mode::Const)
}

/// Whether it is the record of an untyped constant. An error is want of memory.
pub fn is_untyped_constant<J: Judge>(
    alloc: Global,
    judge: &mut J,
    rec: &Rec,
) -> Result<bool, NoMemory>
    requires { IsOwnRec (J.is_type judge.old) rec.now }
    ensures untyped { IfOk result (λ is. is ≡ spec.is_untyped_constant (rec_as (J.tree judge.old) rec.now)) }
    ensures keeps { Keeps (J.headers judge.old) (J.headers judge.new) (J.names judge.old) (J.names judge.new)
        (J.outcomes judge.old) (J.outcomes judge.new) (J.is_spent judge.old) (J.is_spent judge.new)
        (J.world judge.old) (J.world judge.new) (J.is_type judge.old) (J.is_type judge.new)
        (J.tree judge.old) (J.tree judge.new) }
{
    let kind = kind_in(alloc, judge, rec)?;
    Ok(is_constant(rec.mode) && kind.is_some())
}

/// The kind of two that appears later in the list: integer, rune.
pub fn later(kind: NumKind, other: NumKind) -> NumKind
    ensures { result ≡ matching.later kind other }
{
    match kind {
        NumKind::Rune => NumKind::Rune,
        NumKind::Bool => other,
        NumKind::Int => other,
        NumKind::Text => other,
        NumKind::Nil => other,
    }
}

/// The default type of an untyped value of that kind; None of nil. An error is want of memory.
pub fn default_type<J: Judge>(
    alloc: Global,
    judge: &mut J,
    kind: NumKind,
) -> Result<Option<Ty>, NoMemory>
    ensures made { IfOk result (λ ty. option_map (J.tree judge.new) ty ≡ spec.default_type kind) }
    ensures own { IfOk result (λ ty. IfSome ty (J.is_type judge.new)) }
    ensures keeps { Keeps (J.headers judge.old) (J.headers judge.new) (J.names judge.old) (J.names judge.new)
        (J.outcomes judge.old) (J.outcomes judge.new) (J.is_spent judge.old) (J.is_spent judge.new)
        (J.world judge.old) (J.world judge.new) (J.is_type judge.old) (J.is_type judge.new)
        (J.tree judge.old) (J.tree judge.new) }
{
    match kind {
        NumKind::Bool => some_basic(alloc, judge, Basic::Bool),
        NumKind::Int => some_basic(alloc, judge, Basic::Int),
        NumKind::Rune => some_basic(alloc, judge, Basic::Int32),
        NumKind::Text => some_basic(alloc, judge, Basic::String),
        NumKind::Nil => Ok(None),
    }
}

/// A predeclared type, as one that may be there. An error is want of memory.
pub fn some_basic<J: Judge>(
    alloc: Global,
    judge: &mut J,
    basic: Basic,
) -> Result<Option<Ty>, NoMemory>
    ensures made { IfOk result (λ ty. option_map (J.tree judge.new) ty ≡ Some (basic_type basic)) }
    ensures own { IfOk result (λ ty. IfSome ty (J.is_type judge.new)) }
    ensures keeps { Keeps (J.headers judge.old) (J.headers judge.new) (J.names judge.old) (J.names judge.new)
        (J.outcomes judge.old) (J.outcomes judge.new) (J.is_spent judge.old) (J.is_spent judge.new)
        (J.world judge.old) (J.world judge.new) (J.is_type judge.old) (J.is_type judge.new)
        (J.tree judge.old) (J.tree judge.new) }
{
    Ok(Some(basic_type(alloc, judge, basic)?))
}
