// Demands on types that are names alone (Go specification, "Struct types", "General interfaces").
ghost use Rattle.std.specs.Prelude.{◌≡◌, IfOk, IfSome};
ghost use Rattle.go_term.specs.Shapes.{shape_tree};
ghost use Rattle.go_judge.specs.Types.Own.{AreOwn, Keeps};
ghost use Rattle.go_obligations.specs.Answers.{IsKeyOf, demand_of, named_type, type_by};
ghost use Rattle.go_obligations.specs.declared.obligation.Demand.TheVariants as demands;
ghost use Rattle.go_obligations.specs.declared.answers.NamedDemand.TheVariants as named_demands;

use crate::answers::{NamedDemand, NamedKey};
use crate::layer::name_in;
use crate::obligation::Demand;
use go_base::NoMemory;
use go_model::Forms;
use go_module::ObjId;
use go_term::{Shape, Ty};
use go_tree::NodeKind;
use std::alloc::Global;

/// The key of a demand on a type that is a name alone, or at an embedded pointer on a base type that is one; None for
/// other types, and for the demand of one type for each method. An error is want of memory.
pub(crate) fn key_of<F: Forms>(
    alloc: Global,
    judge: &mut F,
    demand: Demand,
    t: &Ty,
) -> Result<Option<NamedKey>, NoMemory>
    requires { F.is_type judge.old t.now }
    ensures key { IfOk result (λ key. IfSome key (IsKeyOf demand (F.tree judge.old t.now))) }
    ensures keeps { Keeps (F.headers judge.old) (F.headers judge.new) (F.names judge.old) (F.names judge.new)
        (F.outcomes judge.old) (F.outcomes judge.new) (F.is_spent judge.old) (F.is_spent judge.new)
        (F.world judge.old) (F.world judge.new) (F.is_type judge.old) (F.is_type judge.new)
        (F.tree judge.old) (F.tree judge.new) }
{
    match named_demand(demand) {
        Some(named) => key_with(alloc, judge, named, t),
        None => Ok(None),
    }
}

fn named_demand(demand: Demand) -> Option<NamedDemand>
    ensures { IfSome result (λ d. demand ≡ demand_of d) }
{
    match demand {
        Demand::NoConstraint => Some(NamedDemand::NoConstraint),
        Demand::Embeddable(kind) => embedded_demand(kind),
        Demand::OneTypeEach => None,
    }
}

fn embedded_demand(kind: NodeKind) -> Option<NamedDemand>
    ensures { IfSome result (λ d. demands.Embeddable kind ≡ demand_of d) }
{
    match kind {
        NodeKind::EmbeddedField => Some(NamedDemand::Embeddable),
        NodeKind::EmbeddedPointer => Some(NamedDemand::EmbeddableBehindStar),
        _ => None,
    }
}

// The key with this demand.
fn key_with<F: Forms>(
    alloc: Global,
    judge: &mut F,
    demand: NamedDemand,
    t: &Ty,
) -> Result<Option<NamedKey>, NoMemory>
    requires { F.is_type judge.old t.now }
    ensures key { IfOk result (λ key. IfSome key (IsKeyOf (demand_of demand) (F.tree judge.old t.now))) }
    ensures keeps { Keeps (F.headers judge.old) (F.headers judge.new) (F.names judge.old) (F.names judge.new)
        (F.outcomes judge.old) (F.outcomes judge.new) (F.is_spent judge.old) (F.is_spent judge.new)
        (F.world judge.old) (F.world judge.new) (F.is_type judge.old) (F.is_type judge.new)
        (F.tree judge.old) (F.tree judge.new) }
{
    match name_by(alloc, judge, demand, t)? {
        Some(object) => Ok(Some(NamedKey { demand, object })),
        None => Ok(None),
    }
}

// The object of the name alone that the type is, or that stands behind its `*`.
fn name_by<F: Forms>(
    alloc: Global,
    judge: &mut F,
    demand: NamedDemand,
    t: &Ty,
) -> Result<Option<ObjId>, NoMemory>
    requires { F.is_type judge.old t.now }
    ensures name { IfOk result (λ name. IfSome name (λ d. F.tree judge.old t.now ≡ type_by demand (named_type d))) }
    ensures keeps { Keeps (F.headers judge.old) (F.headers judge.new) (F.names judge.old) (F.names judge.new)
        (F.outcomes judge.old) (F.outcomes judge.new) (F.is_spent judge.old) (F.is_spent judge.new)
        (F.world judge.old) (F.world judge.new) (F.is_type judge.old) (F.is_type judge.new)
        (F.tree judge.old) (F.tree judge.new) }
{
    match demand {
        NamedDemand::NoConstraint => name_of(alloc, judge, t),
        NamedDemand::Embeddable => name_of(alloc, judge, t),
        NamedDemand::EmbeddableBehindStar => name_behind_star(alloc, judge, t),
    }
}

fn name_of<F: Forms>(alloc: Global, judge: &mut F, t: &Ty) -> Result<Option<ObjId>, NoMemory>
    requires { F.is_type judge.old t.now }
    ensures name { IfOk result (λ name. IfSome name (λ d. F.tree judge.old t.now ≡ named_type d)) }
    ensures keeps { Keeps (F.headers judge.old) (F.headers judge.new) (F.names judge.old) (F.names judge.new)
        (F.outcomes judge.old) (F.outcomes judge.new) (F.is_spent judge.old) (F.is_spent judge.new)
        (F.world judge.old) (F.world judge.new) (F.is_type judge.old) (F.is_type judge.new)
        (F.tree judge.old) (F.tree judge.new) }
{
    let shape = judge.see(alloc, t)?;
    Ok(name_in(&shape))
}

fn name_behind_star<F: Forms>(
    alloc: Global,
    judge: &mut F,
    t: &Ty,
) -> Result<Option<ObjId>, NoMemory>
    requires { F.is_type judge.old t.now }
    ensures name { IfOk result (λ name. IfSome name (λ d. F.tree judge.old t.now
        ≡ type_by named_demands.EmbeddableBehindStar (named_type d))) }
    ensures keeps { Keeps (F.headers judge.old) (F.headers judge.new) (F.names judge.old) (F.names judge.new)
        (F.outcomes judge.old) (F.outcomes judge.new) (F.is_spent judge.old) (F.is_spent judge.new)
        (F.world judge.old) (F.world judge.new) (F.is_type judge.old) (F.is_type judge.new)
        (F.tree judge.old) (F.tree judge.new) }
{
    let shape = judge.see(alloc, t)?;
    base_name(alloc, judge, &shape)
}

fn base_name<F: Forms>(
    alloc: Global,
    judge: &mut F,
    shape: &Shape,
) -> Result<Option<ObjId>, NoMemory>
    requires { AreOwn (F.is_type judge.old) shape.now }
    ensures name { IfOk result (λ name. IfSome name (λ d. shape_tree (F.tree judge.old) shape.now
        ≡ type_by named_demands.EmbeddableBehindStar (named_type d))) }
    ensures keeps { Keeps (F.headers judge.old) (F.headers judge.new) (F.names judge.old) (F.names judge.new)
        (F.outcomes judge.old) (F.outcomes judge.new) (F.is_spent judge.old) (F.is_spent judge.new)
        (F.world judge.old) (F.world judge.new) (F.is_type judge.old) (F.is_type judge.new)
        (F.tree judge.old) (F.tree judge.new) }
{
    match shape {
        Shape::Pointer(base) => name_of(alloc, judge, base),
        _ => Ok(None),
    }
}
