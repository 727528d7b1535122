// Interfaces that are constraints alone (Go specification, "Basic interfaces", "General interfaces", "Type constraints").
ghost use Rattle.std.specs.Prelude.{◌≡◌, ◌↔◌, true, IfOk, map};
ghost use Rattle.std.specs.List.{AllByRecursion, list_any};
ghost use Rattle.go_model.specs.Obligations.Constraints as spec;
ghost use Rattle.go_model.specs.Obligations.Constraints.{IsConstraint};
ghost use Rattle.go_judge.specs.Types.Forms.{IsOwnForm};
ghost use Rattle.go_judge.specs.Types.Own.{Keeps};
ghost use Rattle.go_judge.specs.Types.TypeSets as sets;
ghost use Rattle.go_obligations.specs.ConstraintParts.{IsGeneral, IsGeneralForm};

use crate::elements::adds_terms;
use crate::embedded::embedded_types;
use crate::layer::{is_interface, is_parameter};
use go_base::NoMemory;
use go_model::{Form, Forms};
use go_term::Ty;
use std::alloc::Global;

/// Whether a type is an interface that is not basic: one that has, or embeds, terms or `comparable`. One whose underlying
/// type is not known is none, and what it embeds counts as far as it is known; a type parameter is none. An error is want
/// of memory.
pub(crate) fn is_constraint<F: Forms>(
    alloc: Global,
    judge: &mut F,
    t: &Ty,
) -> Result<bool, NoMemory>
    requires { F.is_type judge.old t.now }
    ensures constraint { IfOk result (λ yes. (yes ≡ true) ↔ IsConstraint (F.headers judge.old) (F.tree judge.old t.now)) }
    ensures keeps { Keeps (F.headers judge.old) (F.headers judge.new) (F.names judge.old) (F.names judge.new)
        (F.outcomes judge.old) (F.outcomes judge.new) (F.is_spent judge.old) (F.is_spent judge.new)
        (F.world judge.old) (F.world judge.new) (F.is_type judge.old) (F.is_type judge.new)
        (F.tree judge.old) (F.tree judge.new) }
{
    let shape = judge.see(alloc, t)?;
    is_constraint_by(alloc, judge, t, is_parameter(&shape))
}

fn is_constraint_by<F: Forms>(
    alloc: Global,
    judge: &mut F,
    t: &Ty,
    parameter: bool,
) -> Result<bool, NoMemory>
    requires own { F.is_type judge.old t.now }
    requires parameter { spec.is_parameter (F.tree judge.old t.now) ≡ parameter }
    ensures constraint { IfOk result (λ yes. (yes ≡ true) ↔ IsConstraint (F.headers judge.old) (F.tree judge.old t.now)) }
    ensures keeps { Keeps (F.headers judge.old) (F.headers judge.new) (F.names judge.old) (F.names judge.new)
        (F.outcomes judge.old) (F.outcomes judge.new) (F.is_spent judge.old) (F.is_spent judge.new)
        (F.world judge.old) (F.world judge.new) (F.is_type judge.old) (F.is_type judge.new)
        (F.tree judge.old) (F.tree judge.new) }
{
    if parameter {
        return Ok(false);
    }
    let form = judge.underlying(alloc, t)?;
    is_general_form(alloc, judge, form)
}

// Whether there is an underlying type, and it is an interface that is not basic.
fn is_general_form<F: Forms>(alloc: Global, judge: &mut F, form: Form) -> Result<bool, NoMemory>
    requires { IsOwnForm (F.is_type judge.old) form }
    ensures general { IfOk result (λ yes. (yes ≡ true) ↔ IsGeneralForm (F.headers judge.old) (F.tree judge.old) form) }
    ensures keeps { Keeps (F.headers judge.old) (F.headers judge.new) (F.names judge.old) (F.names judge.new)
        (F.outcomes judge.old) (F.outcomes judge.new) (F.is_spent judge.old) (F.is_spent judge.new)
        (F.world judge.old) (F.world judge.new) (F.is_type judge.old) (F.is_type judge.new)
        (F.tree judge.old) (F.tree judge.new) }
{
    match form {
        Form::Is(u) => is_general(alloc, judge, u),
        Form::Absent => Ok(false),
        Form::Unknown(_) => Ok(false),
    }
}

fn is_general<F: Forms>(alloc: Global, judge: &mut F, u: Ty) -> Result<bool, NoMemory>
    requires { F.is_type judge.old u }
    ensures general { IfOk result (λ yes. (yes ≡ true) ↔ IsGeneral (F.headers judge.old) (F.tree judge.old u)) }
    ensures keeps { Keeps (F.headers judge.old) (F.headers judge.new) (F.names judge.old) (F.names judge.new)
        (F.outcomes judge.old) (F.outcomes judge.new) (F.is_spent judge.old) (F.is_spent judge.new)
        (F.world judge.old) (F.world judge.new) (F.is_type judge.old) (F.is_type judge.new)
        (F.tree judge.old) (F.tree judge.new) }
{
    let shape = judge.see(alloc, &u)?;
    is_general_by(alloc, judge, u, is_interface(&shape))
}

fn is_general_by<F: Forms>(
    alloc: Global,
    judge: &mut F,
    u: Ty,
    interface: bool,
) -> Result<bool, NoMemory>
    requires own { F.is_type judge.old u }
    requires interface { sets.is_interface (F.tree judge.old u) ≡ interface }
    ensures general { IfOk result (λ yes. (yes ≡ true) ↔ IsGeneral (F.headers judge.old) (F.tree judge.old u)) }
    ensures keeps { Keeps (F.headers judge.old) (F.headers judge.new) (F.names judge.old) (F.names judge.new)
        (F.outcomes judge.old) (F.outcomes judge.new) (F.is_spent judge.old) (F.is_spent judge.new)
        (F.world judge.old) (F.world judge.new) (F.is_type judge.old) (F.is_type judge.new)
        (F.tree judge.old) (F.tree judge.new) }
{
    if !interface {
        return Ok(false);
    }
    let found = embedded_types(alloc, judge, u)?;
    any_adds_terms(alloc, judge, &found)
}

// Whether one of these types adds terms to an interface that embeds it.
fn any_adds_terms<F: Forms>(alloc: Global, judge: &mut F, types: &[Ty]) -> Result<bool, NoMemory>
    requires { AllByRecursion (F.is_type judge.old) types.now }
    ensures any { IfOk result (λ yes. yes ≡ list_any spec.adds_terms (map (F.tree judge.old) types.now)) }
    ensures keeps { Keeps (F.headers judge.old) (F.headers judge.new) (F.names judge.old) (F.names judge.new)
        (F.outcomes judge.old) (F.outcomes judge.new) (F.is_spent judge.old) (F.is_spent judge.new)
        (F.world judge.old) (F.world judge.new) (F.is_type judge.old) (F.is_type judge.new)
        (F.tree judge.old) (F.tree judge.new) }
{
    for t in types {
        if type_adds_terms(alloc, judge, t)? {
            return Ok(true);
        }
    }
    Ok(false)
}

fn type_adds_terms<F: Forms>(alloc: Global, judge: &mut F, t: &Ty) -> Result<bool, NoMemory>
    requires { F.is_type judge.old t.now }
    ensures adds { IfOk result (λ yes. yes ≡ spec.adds_terms (F.tree judge.old t.now)) }
    ensures keeps { Keeps (F.headers judge.old) (F.headers judge.new) (F.names judge.old) (F.names judge.new)
        (F.outcomes judge.old) (F.outcomes judge.new) (F.is_spent judge.old) (F.is_spent judge.new)
        (F.world judge.old) (F.world judge.new) (F.is_type judge.old) (F.is_type judge.new)
        (F.tree judge.old) (F.tree judge.new) }
{
    let shape = judge.see(alloc, t)?;
    Ok(adds_terms(&shape))
}
