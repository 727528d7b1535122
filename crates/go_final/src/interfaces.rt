// Interface types (Go specification, "Interface types", "Underlying types").
ghost use Rattle.std.specs.Prelude.{◌≡◌, IfOk, Some};
ghost use Rattle.go_term.specs.Shapes.{shape_tree};
ghost use Rattle.go_term.specs.Types.{TypeData};
ghost use Rattle.go_term.specs.declared.term.Term.{Term};
ghost use Rattle.go_constructs.specs.Operators.Operations.{is_interface};
ghost use Rattle.go_constructs.specs.Operators.Sorts.{sort_found, sort_of, sort_of_basic};
ghost use Rattle.go_judge.specs.Quests.{run};
ghost use Rattle.go_judge.specs.Types.Forms.{IsOwnForm, form_as};
ghost use Rattle.go_judge.specs.Types.Own.{Keeps};
ghost use Rattle.go_report.specs.Finals.Untyped as spec;
ghost use Rattle.go_final.specs.Interfaces.{is_interface_form};

use go_base::NoMemory;
use go_judge::{Form, Judge};
use go_term::{Basic, Shape, Ty};
use std::alloc::Global;

/// Whether a type is an interface and no type parameter. An error is want of memory.
pub fn is_interface_type<J: Judge>(alloc: Global, judge: &mut J, ty: &Ty) -> Result<bool, NoMemory>
    requires { J.is_type judge.old ty.now }
    ensures is { IfOk result (λ is. is ≡ spec.is_interface_type (J.headers judge.old) (J.tree judge.old ty.now)) }
    ensures keeps { Keeps (J.headers judge.old) (J.headers judge.new) (J.names judge.old) (J.names judge.new)
        (J.outcomes judge.old) (J.outcomes judge.new) (J.is_spent judge.old) (J.is_spent judge.new)
        (J.world judge.old) (J.world judge.new) (J.is_type judge.old) (J.is_type judge.new)
        (J.tree judge.old) (J.tree judge.new) }
{
    if is_type_param(alloc, judge, ty)? {
        Ok(false)
    } else {
        is_interface_sort(alloc, judge, ty)
    }
}

// Whether a type is a type parameter.
fn is_type_param<J: Judge>(alloc: Global, judge: &mut J, ty: &Ty) -> Result<bool, NoMemory>
    requires { J.is_type judge.old ty.now }
    ensures is { IfOk result (λ is. is ≡ spec.is_type_param (J.tree judge.old ty.now)) }
    ensures keeps { Keeps (J.headers judge.old) (J.headers judge.new) (J.names judge.old) (J.names judge.new)
        (J.outcomes judge.old) (J.outcomes judge.new) (J.is_spent judge.old) (J.is_spent judge.new)
        (J.world judge.old) (J.world judge.new) (J.is_type judge.old) (J.is_type judge.new)
        (J.tree judge.old) (J.tree judge.new) }
{
    let shape = judge.see(alloc, ty)?;
    Ok(is_param_shape(&shape))
}

fn is_param_shape(shape: &Shape) -> bool
    ensures { (tree : Term → TypeData) → result ≡ spec.is_type_param (shape_tree tree shape.now) }
{
    match shape {
        Shape::Param(_, _) => true,
        Shape::Basic(_) => false,
        Shape::Pointer(_) => false,
        Shape::Slice(_) => false,
        Shape::Array(_, _) => false,
        Shape::Map(_, _) => false,
        Shape::Chan(_, _) => false,
        Shape::Func(_) => false,
        Shape::Struct(_) => false,
        Shape::Interface(_) => false,
        Shape::Tuple(_) => false,
        Shape::Named(_, _) => false,
        Shape::Bound(_) => false,
    }
}

// Whether the underlying type of a type is an interface; it is not where a header lacks.
fn is_interface_sort<J: Judge>(alloc: Global, judge: &mut J, ty: &Ty) -> Result<bool, NoMemory>
    requires { J.is_type judge.old ty.now }
    ensures is { IfOk result (λ is. is
        ≡ spec.is_interface_asked (run (J.headers judge.old) (sort_of (J.tree judge.old ty.now)))) }
    ensures keeps { Keeps (J.headers judge.old) (J.headers judge.new) (J.names judge.old) (J.names judge.new)
        (J.outcomes judge.old) (J.outcomes judge.new) (J.is_spent judge.old) (J.is_spent judge.new)
        (J.world judge.old) (J.world judge.new) (J.is_type judge.old) (J.is_type judge.new)
        (J.tree judge.old) (J.tree judge.new) }
{
    let form = judge.underlying(alloc, ty)?;
    is_interface_form(alloc, judge, &form)
}

// By the underlying type.
fn is_interface_form<J: Judge>(alloc: Global, judge: &mut J, form: &Form) -> Result<bool, NoMemory>
    requires { IsOwnForm (J.is_type judge.old) form.now }
    ensures is { IfOk result (λ is. is ≡ is_interface_form (form_as (J.tree judge.old) form.now)) }
    ensures keeps { Keeps (J.headers judge.old) (J.headers judge.new) (J.names judge.old) (J.names judge.new)
        (J.outcomes judge.old) (J.outcomes judge.new) (J.is_spent judge.old) (J.is_spent judge.new)
        (J.world judge.old) (J.world judge.new) (J.is_type judge.old) (J.is_type judge.new)
        (J.tree judge.old) (J.tree judge.new) }
{
    match form {
        Form::Is(u) => is_interface_literal(alloc, judge, u),
        Form::Absent => Ok(false),
        Form::Unknown(_) => Ok(false),
    }
}

fn is_interface_literal<J: Judge>(alloc: Global, judge: &mut J, u: &Ty) -> Result<bool, NoMemory>
    requires { J.is_type judge.old u.now }
    ensures is { IfOk result (λ is. is ≡ is_interface (sort_found (Some (J.tree judge.old u.now)))) }
    ensures keeps { Keeps (J.headers judge.old) (J.headers judge.new) (J.names judge.old) (J.names judge.new)
        (J.outcomes judge.old) (J.outcomes judge.new) (J.is_spent judge.old) (J.is_spent judge.new)
        (J.world judge.old) (J.world judge.new) (J.is_type judge.old) (J.is_type judge.new)
        (J.tree judge.old) (J.tree judge.new) }
{
    let shape = judge.see(alloc, u)?;
    Ok(is_interface_shape(&shape))
}

// By the outer form of an underlying type.
fn is_interface_shape(shape: &Shape) -> bool
    ensures { (tree : Term → TypeData) → result ≡ is_interface (sort_found (Some (shape_tree tree shape.now))) }
{
    match shape {
        Shape::Interface(_) => true,
        Shape::Basic(basic) => is_interface_basic(*basic),
        Shape::Pointer(_) => false,
        Shape::Slice(_) => false,
        Shape::Array(_, _) => false,
        Shape::Map(_, _) => false,
        Shape::Chan(_, _) => false,
        Shape::Func(_) => false,
        Shape::Struct(_) => false,
        Shape::Tuple(_) => false,
        Shape::Named(_, _) => false,
        Shape::Param(_, _) => false,
        Shape::Bound(_) => false,
    }
}

fn is_interface_basic(basic: Basic) -> bool
    ensures { result ≡ is_interface (sort_of_basic basic) }
{
    matches!(basic, Basic::Error)
}
