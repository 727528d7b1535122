// The sorts of types and operands (Go specification, "Types", "Numeric types", "Constants").
ghost use Rattle.std.specs.Prelude.{◌≡◌, IfOk, IfSome, Some};
ghost use Rattle.std.specs.Option.{option_map};
ghost use Rattle.go_term.specs.Shapes.{shape_tree};
ghost use Rattle.go_term.specs.Types.{TypeData};
ghost use Rattle.go_term.specs.declared.term.Term.{Term};
ghost use Rattle.go_judge.specs.Records.{rec_as};
ghost use Rattle.go_judge.specs.Types.Forms.{IsOwnForm, form_as};
ghost use Rattle.go_judge.specs.Types.Own.{IsOwnRec, Keeps};
ghost use Rattle.go_judge.specs.Quests.{Decided, Done, run, then_ask};
ghost use Rattle.go_ops.specs.AskedSorts.{sort_as, sort_asked, sorts_as};
ghost use Rattle.go_constructs.specs.Operators.Sorts as spec;

use crate::modes::is_value;
use go_base::NoMemory;
use go_constructs::{FloatType, Sort};
use go_judge::{Form, Forms, Rec};
use go_module::ObjId;
use go_num::{IntType, NumKind};
use go_term::{Basic, Shape, Ty};
use std::alloc::Global;

/// A sort; Unknown with the first header that the underlying type lacks.
#[derive(Clone, Copy, Debug, PartialEq, Eq)]
pub enum AskedSort {
    Is(Sort),
    Unknown(ObjId),
}

/// The sorts of two operands; Unknown with the first header that an underlying type lacks.
#[derive(Clone, Copy, Debug, PartialEq, Eq)]
pub(crate) enum AskedSorts {
    Are(Sort, Sort),
    Unknown(ObjId),
}

/// The sorts of two operands, in this order. An error is want of memory.
pub(crate) fn sorts_of<F: Forms>(
    alloc: Global,
    judge: &mut F,
    x: &Rec,
    y: &Rec,
) -> Result<AskedSorts, NoMemory>
    requires first { IsOwnRec (F.is_type judge.old) x.now }
    requires second { IsOwnRec (F.is_type judge.old) y.now }
    ensures sorts { IfOk result (λ sorts. sorts_as sorts ≡ run (F.headers judge.old)
        (spec.sorts_of (rec_as (F.tree judge.old) x.now) (rec_as (F.tree judge.old) y.now))) }
    ensures keeps { Keeps (F.headers judge.old) (F.headers judge.new) (F.names judge.old) (F.names judge.new)
        (F.outcomes judge.old) (F.outcomes judge.new) (F.is_spent judge.old) (F.is_spent judge.new)
        (F.world judge.old) (F.world judge.new) (F.is_type judge.old) (F.is_type judge.new)
        (F.tree judge.old) (F.tree judge.new) }
{
    match sort_in(alloc, judge, x)? {
        AskedSort::Is(first) => sorts_with(alloc, judge, first, y),
        AskedSort::Unknown(d) => Ok(AskedSorts::Unknown(d)),
    }
}

// The sorts, by that of the first operand.
fn sorts_with<F: Forms>(
    alloc: Global,
    judge: &mut F,
    first: Sort,
    y: &Rec,
) -> Result<AskedSorts, NoMemory>
    requires { IsOwnRec (F.is_type judge.old) y.now }
    ensures sorts { IfOk result (λ sorts. sorts_as sorts ≡ run (F.headers judge.old)
        (then_ask (spec.sort_in (rec_as (F.tree judge.old) y.now)) (λ second. Done (first, second)))) }
    ensures keeps { Keeps (F.headers judge.old) (F.headers judge.new) (F.names judge.old) (F.names judge.new)
        (F.outcomes judge.old) (F.outcomes judge.new) (F.is_spent judge.old) (F.is_spent judge.new)
        (F.world judge.old) (F.world judge.new) (F.is_type judge.old) (F.is_type judge.new)
        (F.tree judge.old) (F.tree judge.new) }
{
    match sort_in(alloc, judge, y)? {
        AskedSort::Is(second) => Ok(AskedSorts::Are(first, second)),
        AskedSort::Unknown(d) => Ok(AskedSorts::Unknown(d)),
    }
}

/// The sort of an operand's type; Other of what is no value. An error is want of memory.
pub fn sort_in<F: Forms>(alloc: Global, judge: &mut F, rec: &Rec) -> Result<AskedSort, NoMemory>
    requires { IsOwnRec (F.is_type judge.old) rec.now }
    ensures sort { IfOk result (λ sort. sort_as sort
        ≡ run (F.headers judge.old) (spec.sort_in (rec_as (F.tree judge.old) rec.now))) }
    ensures keeps { Keeps (F.headers judge.old) (F.headers judge.new) (F.names judge.old) (F.names judge.new)
        (F.outcomes judge.old) (F.outcomes judge.new) (F.is_spent judge.old) (F.is_spent judge.new)
        (F.world judge.old) (F.world judge.new) (F.is_type judge.old) (F.is_type judge.new)
        (F.tree judge.old) (F.tree judge.new) }
{
    if is_value(rec.mode) {
        sort_by(alloc, judge, &rec.ty)
    } else {
        Ok(AskedSort::Is(Sort::Other))
    }
}

// The sort of a type, and Other where there is none.
fn sort_by<F: Forms>(alloc: Global, judge: &mut F, ty: &Option<Ty>) -> Result<AskedSort, NoMemory>
    requires { IfSome ty.now (F.is_type judge.old) }
    ensures sort { IfOk result (λ sort. sort_as sort
        ≡ run (F.headers judge.old) (spec.sort_by (option_map (F.tree judge.old) ty.now))) }
    ensures keeps { Keeps (F.headers judge.old) (F.headers judge.new) (F.names judge.old) (F.names judge.new)
        (F.outcomes judge.old) (F.outcomes judge.new) (F.is_spent judge.old) (F.is_spent judge.new)
        (F.world judge.old) (F.world judge.new) (F.is_type judge.old) (F.is_type judge.new)
        (F.tree judge.old) (F.tree judge.new) }
{
    match ty {
        Some(ty) => sort_of(alloc, judge, ty),
        None => Ok(AskedSort::Is(Sort::Other)),
    }
}

/// The sort of a type, by its underlying type. An error is want of memory.
pub(crate) fn sort_of<F: Forms>(alloc: Global, judge: &mut F, t: &Ty) -> Result<AskedSort, NoMemory>
    requires { F.is_type judge.old t.now }
    ensures sort { IfOk result (λ sort. sort_as sort
        ≡ run (F.headers judge.old) (spec.sort_of (F.tree judge.old t.now))) }
    ensures keeps { Keeps (F.headers judge.old) (F.headers judge.new) (F.names judge.old) (F.names judge.new)
        (F.outcomes judge.old) (F.outcomes judge.new) (F.is_spent judge.old) (F.is_spent judge.new)
        (F.world judge.old) (F.world judge.new) (F.is_type judge.old) (F.is_type judge.new)
        (F.tree judge.old) (F.tree judge.new) }
{
    let form = judge.underlying(alloc, t)?;
    sort_of_form(alloc, judge, &form)
}

// By the underlying type; where there is none no operator is defined.
fn sort_of_form<F: Forms>(alloc: Global, judge: &mut F, form: &Form) -> Result<AskedSort, NoMemory>
    requires { IsOwnForm (F.is_type judge.old) form.now }
    ensures sort { IfOk result (λ sort. sort_as sort ≡ sort_asked (form_as (F.tree judge.old) form.now)) }
    ensures keeps { Keeps (F.headers judge.old) (F.headers judge.new) (F.names judge.old) (F.names judge.new)
        (F.outcomes judge.old) (F.outcomes judge.new) (F.is_spent judge.old) (F.is_spent judge.new)
        (F.world judge.old) (F.world judge.new) (F.is_type judge.old) (F.is_type judge.new)
        (F.tree judge.old) (F.tree judge.new) }
{
    match form {
        Form::Is(u) => sort_of_type(alloc, judge, u),
        Form::Absent => Ok(AskedSort::Is(Sort::Other)),
        Form::Unknown(d) => Ok(AskedSort::Unknown(*d)),
    }
}

fn sort_of_type<F: Forms>(alloc: Global, judge: &mut F, u: &Ty) -> Result<AskedSort, NoMemory>
    requires { F.is_type judge.old u.now }
    ensures sort { IfOk result (λ sort. sort_as sort ≡ Decided (spec.sort_found (Some (F.tree judge.old u.now)))) }
    ensures keeps { Keeps (F.headers judge.old) (F.headers judge.new) (F.names judge.old) (F.names judge.new)
        (F.outcomes judge.old) (F.outcomes judge.new) (F.is_spent judge.old) (F.is_spent judge.new)
        (F.world judge.old) (F.world judge.new) (F.is_type judge.old) (F.is_type judge.new)
        (F.tree judge.old) (F.tree judge.new) }
{
    let shape = judge.see(alloc, u)?;
    Ok(AskedSort::Is(sort_of_shape(&shape)))
}

// By the outer form of an underlying type.
fn sort_of_shape(shape: &Shape) -> Sort
    ensures { (tree : Term → TypeData) → result ≡ spec.sort_found (Some (shape_tree tree shape.now)) }
{
    match shape {
        Shape::Basic(basic) => sort_of_basic(*basic),
        Shape::Interface(_) => Sort::Interface,
        Shape::Pointer(_) => Sort::Other,
        Shape::Slice(_) => Sort::Other,
        Shape::Array(_, _) => Sort::Other,
        Shape::Map(_, _) => Sort::Other,
        Shape::Chan(_, _) => Sort::Other,
        Shape::Func(_) => Sort::Other,
        Shape::Struct(_) => Sort::Other,
        Shape::Tuple(_) => Sort::Other,
        Shape::Named(_, _) => Sort::Other,
        Shape::Param(_, _) => Sort::Other,
        Shape::Bound(_) => Sort::Other,
    }
}

fn sort_of_basic(basic: Basic) -> Sort
    ensures { result ≡ spec.sort_of_basic basic }
{
    match basic {
        Basic::Bool => Sort::Bool,
        Basic::String => Sort::Text,
        Basic::Int => Sort::Int(IntType::Int),
        Basic::Int8 => Sort::Int(IntType::Int8),
        Basic::Int16 => Sort::Int(IntType::Int16),
        Basic::Int32 => Sort::Int(IntType::Int32),
        Basic::Int64 => Sort::Int(IntType::Int64),
        Basic::Uint => Sort::Int(IntType::Uint),
        Basic::Uint8 => Sort::Int(IntType::Uint8),
        Basic::Uint16 => Sort::Int(IntType::Uint16),
        Basic::Uint32 => Sort::Int(IntType::Uint32),
        Basic::Uint64 => Sort::Int(IntType::Uint64),
        Basic::Uintptr => Sort::Int(IntType::Uintptr),
        Basic::Float32 => Sort::Float(FloatType::Float32),
        Basic::Float64 => Sort::Float(FloatType::Float64),
        Basic::UntypedBool => Sort::Untyped(NumKind::Bool),
        Basic::UntypedInt => Sort::Untyped(NumKind::Int),
        Basic::UntypedRune => Sort::Untyped(NumKind::Rune),
        Basic::UntypedString => Sort::Untyped(NumKind::Text),
        Basic::UntypedNil => Sort::Untyped(NumKind::Nil),
        Basic::Error => Sort::Interface,
        Basic::Comparable | Basic::Complex64 | Basic::Complex128 => Sort::Other,
    }
}
