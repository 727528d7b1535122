// A walk from an expression or a type down, for the final types in it (Go specification, "Expressions").
ghost use Rattle.std.specs.Prelude.{◌≡◌, ◌∷◌, [], ◌++◌, IfOk, IfSome, OnOk, map};
ghost use Rattle.std.specs.Option.{option_map};
ghost use Rattle.go_tree.specs.Tree.{tree_of};
ghost use Rattle.go_names.specs.Views.{trees_at};
ghost use Rattle.go_judge.specs.Records.{rec_as};
ghost use Rattle.go_judge.specs.Types.Own.{IsOwnRec, Keeps};
ghost use Rattle.go_model.specs.Outcomes.Readings.{record_by};
ghost use Rattle.go_expr.specs.Read.{outcome_read};
ghost use Rattle.go_expr.specs.Walker.{AreOwnOutcomes, outcomes_as};
ghost use Rattle.go_report.specs.Finals.Nodes as spec;
ghost use Rattle.go_final.specs.Ends.{AreOwnFinals, IsOwnEnds, ends_as, ends_at, ends_by, ends_with, finals_as};
ghost use Rattle.go_final.specs.Wants.{AreOwnFounds, found_as, founds_as};

use crate::ends::final_at;
use crate::wants::{each_as, wanted};
use go_base::NoMemory;
use go_expr::Walker;
use go_judge::{Judge, Outcome, Rec};
use go_operands::operands_of;
use go_term::Ty;
use go_tree::{Node, NodeId, NodeKind};
use std::alloc::Global;

/// The final type of a node, where it has one, and what its operands are wanted as.
#[derive(Drop)]
pub struct Ends {
    pub own: Option<Ty>,
    pub wants: Vec<Option<Ty>>,
}

/// The final types of the untyped expressions in an expression or a type that is wanted as a type, or as none: each by
/// the number of its node, a node before its operands. Records are read off the walker, the headers are those of the
/// judge, which stays as it is, also on an error. It asks that the wanted type and those of the outcomes that are kept are
/// of the judge's own; so are those that are listed. An error is want of memory.
pub fn finals<J: Judge>(
    alloc: Global,
    judge: &mut J,
    root: &Node,
    walker: &Walker,
    want: Option<Ty>,
) -> Result<Vec<(NodeId, Ty)>, NoMemory>
    requires wanted { IfSome want (J.is_type judge.old) }
    requires walked { AreOwnOutcomes (J.is_type judge.old) walker.now }
    ensures finals { IfOk result (λ list. finals_as (J.tree judge.new) list.items
        ≡ spec.finals_by (J.headers judge.old) (outcome_read (outcomes_as (J.tree judge.old) walker.now))
        (option_map (J.tree judge.old) want) (tree_of root.now)) }
    ensures own { IfOk result (λ list. AreOwnFinals (J.is_type judge.new) list.items) }
    ensures keeps { Keeps (J.headers judge.old) (J.headers judge.new) (J.names judge.old) (J.names judge.new)
        (J.outcomes judge.old) (J.outcomes judge.new) (J.is_spent judge.old) (J.is_spent judge.new)
        (J.world judge.old) (J.world judge.new) (J.is_type judge.old) (J.is_type judge.new)
        (J.tree judge.old) (J.tree judge.new) }
{
    let mut list = Vec::new(alloc);
    push_finals(alloc, judge, root, walker, &want, &mut list)?;
    Ok(list)
}

// Pushes those of a node that is wanted so, and those of its operands.
fn push_finals<J: Judge>(
    alloc: Global,
    judge: &mut J,
    node: &Node,
    walker: &Walker,
    want: &Option<Ty>,
    list: &mut Vec<(NodeId, Ty)>,
) -> Result<(), NoMemory>
    requires wanted { IfSome want.now (J.is_type judge.old) }
    requires walked { AreOwnOutcomes (J.is_type judge.old) walker.now }
    requires listed { AreOwnFinals (J.is_type judge.old) list.old.items }
    ensures finals { OnOk result (finals_as (J.tree judge.new) list.new.items
        ≡ finals_as (J.tree judge.old) list.old.items
        ++ spec.finals_by (J.headers judge.old) (outcome_read (outcomes_as (J.tree judge.old) walker.now))
        (option_map (J.tree judge.old) want.now) (tree_of node.now)) }
    ensures own { OnOk result (AreOwnFinals (J.is_type judge.new) list.new.items) }
    ensures keeps { Keeps (J.headers judge.old) (J.headers judge.new) (J.names judge.old) (J.names judge.new)
        (J.outcomes judge.old) (J.outcomes judge.new) (J.is_spent judge.old) (J.is_spent judge.new)
        (J.world judge.old) (J.world judge.new) (J.is_type judge.old) (J.is_type judge.new)
        (J.tree judge.old) (J.tree judge.new) }
{
    let operands = operands_of(alloc, node)?;
    let Ends { own, wants } = ends_of(alloc, judge, node, &operands, walker, want)?;
    push_own(judge, node, own, list)?;
    for place in 0..operands.len() {
        push_finals(alloc, judge, operands[place], walker, &wants[place], list)?;
    }
    Ok(())
}

// Pushes the final type of a node, where it has one.
fn push_own<J: Judge>(
    judge: &J,
    node: &Node,
    own: Option<Ty>,
    list: &mut Vec<(NodeId, Ty)>,
) -> Result<(), NoMemory>
    requires own { IfSome own (J.is_type judge.now) }
    requires listed { AreOwnFinals (J.is_type judge.now) list.old.items }
    ensures finals { OnOk result (finals_as (J.tree judge.now) list.new.items
        ≡ finals_as (J.tree judge.now) list.old.items
        ++ spec.final_of (tree_of node.now) (option_map (J.tree judge.now) own)) }
    ensures own { OnOk result (AreOwnFinals (J.is_type judge.now) list.new.items) }
{
    if let Some(ty) = own {
        list.push((node.id(), ty))?;
    }
    Ok(())
}

// The final type of a node that is wanted so, and what its operands are wanted as.
fn ends_of<J: Judge>(
    alloc: Global,
    judge: &mut J,
    node: &Node,
    operands: &[&Node],
    walker: &Walker,
    want: &Option<Ty>,
) -> Result<Ends, NoMemory>
    requires wanted { IfSome want.now (J.is_type judge.old) }
    requires walked { AreOwnOutcomes (J.is_type judge.old) walker.now }
    ensures ends { IfOk result (λ ends. ends_as (J.tree judge.new) ends
        ≡ ends_by (J.headers judge.old) (outcome_read (outcomes_as (J.tree judge.old) walker.now))
        (option_map (J.tree judge.old) want.now) (tree_of node.now) (trees_at operands.now)) }
    ensures own { IfOk result (IsOwnEnds (J.is_type judge.new)) }
    ensures keeps { Keeps (J.headers judge.old) (J.headers judge.new) (J.names judge.old) (J.names judge.new)
        (J.outcomes judge.old) (J.outcomes judge.new) (J.is_spent judge.old) (J.is_spent judge.new)
        (J.world judge.old) (J.world judge.new) (J.is_type judge.old) (J.is_type judge.new)
        (J.tree judge.old) (J.tree judge.new) }
{
    let founds = records_of(alloc, judge, walker, operands)?;
    ends_at(
        alloc,
        judge,
        node.kind(),
        record_of(judge, walker, node),
        want,
        &founds,
    )
}

// By the record of the node, where it has one, and those of its operands.
fn ends_at<J: Judge>(
    alloc: Global,
    judge: &mut J,
    kind: NodeKind,
    whole: Option<&Rec>,
    want: &Option<Ty>,
    operands: &[Option<&Rec>],
) -> Result<Ends, NoMemory>
    requires whole { IfSome whole (λ rec. IsOwnRec (J.is_type judge.old) rec.now) }
    requires wanted { IfSome want.now (J.is_type judge.old) }
    requires operands { AreOwnFounds (J.is_type judge.old) operands.now }
    ensures ends { IfOk result (λ ends. ends_as (J.tree judge.new) ends
        ≡ ends_at (J.headers judge.old) kind (found_as (J.tree judge.old) whole.entry)
        (option_map (J.tree judge.old) want.now) (founds_as (J.tree judge.old) operands.now)) }
    ensures own { IfOk result (IsOwnEnds (J.is_type judge.new)) }
    ensures keeps { Keeps (J.headers judge.old) (J.headers judge.new) (J.names judge.old) (J.names judge.new)
        (J.outcomes judge.old) (J.outcomes judge.new) (J.is_spent judge.old) (J.is_spent judge.new)
        (J.world judge.old) (J.world judge.new) (J.is_type judge.old) (J.is_type judge.new)
        (J.tree judge.old) (J.tree judge.new) }
{
    match whole {
        Some(rec) => {
            let own = final_at(alloc, judge, want, rec)?;
            with_own(alloc, judge, kind, rec, own, operands)
        }
        None => Ok(Ends {
            own: None,
            wants: each_as(alloc, judge, &None, operands)?,
        }),
    }
}

// By the final type of the node.
fn with_own<J: Judge>(
    alloc: Global,
    judge: &mut J,
    kind: NodeKind,
    whole: &Rec,
    own: Option<Ty>,
    operands: &[Option<&Rec>],
) -> Result<Ends, NoMemory>
    requires whole { IsOwnRec (J.is_type judge.old) whole.now }
    requires own { IfSome own (J.is_type judge.old) }
    requires operands { AreOwnFounds (J.is_type judge.old) operands.now }
    ensures ends { IfOk result (λ ends. ends_as (J.tree judge.new) ends
        ≡ ends_with kind (rec_as (J.tree judge.old) whole.now) (option_map (J.tree judge.old) own)
        (founds_as (J.tree judge.old) operands.now)) }
    ensures own { IfOk result (IsOwnEnds (J.is_type judge.new)) }
    ensures keeps { Keeps (J.headers judge.old) (J.headers judge.new) (J.names judge.old) (J.names judge.new)
        (J.outcomes judge.old) (J.outcomes judge.new) (J.is_spent judge.old) (J.is_spent judge.new)
        (J.world judge.old) (J.world judge.new) (J.is_type judge.old) (J.is_type judge.new)
        (J.tree judge.old) (J.tree judge.new) }
{
    let wants = wanted(alloc, judge, kind, whole, &own, operands)?;
    Ok(Ends { own, wants })
}

// The records of nodes, of those that have one.
fn records_of<'a, J: Judge>(
    alloc: Global,
    judge: &J,
    walker: &'a Walker,
    nodes: &[&Node],
) -> Result<Vec<Option<&'a Rec>>, NoMemory>
    requires { AreOwnOutcomes (J.is_type judge.now) walker.now }
    ensures records { IfOk result (λ founds. founds_as (J.tree judge.now) founds.items
        ≡ map (record_by (outcome_read (outcomes_as (J.tree judge.now) walker.now))) (trees_at nodes.now)) }
    ensures own { IfOk result (λ founds. AreOwnFounds (J.is_type judge.now) founds.items) }
{
    let mut founds = Vec::new(alloc);
    for node in nodes {
        push_record(judge, walker, node, &mut founds)?;
    }
    Ok(founds)
}

// Pushes the record of one more node.
fn push_record<'a, J: Judge>(
    judge: &J,
    walker: &'a Walker,
    node: &Node,
    founds: &mut Vec<Option<&'a Rec>>,
) -> Result<(), NoMemory>
    requires walked { AreOwnOutcomes (J.is_type judge.now) walker.now }
    requires own { AreOwnFounds (J.is_type judge.now) founds.old.items }
    ensures records { OnOk result (founds_as (J.tree judge.now) founds.new.items
        ≡ founds_as (J.tree judge.now) founds.old.items
        ++ record_by (outcome_read (outcomes_as (J.tree judge.now) walker.now)) (tree_of node.now) ∷ []) }
    ensures own { OnOk result (AreOwnFounds (J.is_type judge.now) founds.new.items) }
{
    founds.push(record_of(judge, walker, node))?;
    Ok(())
}

// The record of a node that has one.
fn record_of<'a, J: Judge>(judge: &J, walker: &'a Walker, node: &Node) -> Option<&'a Rec>
    requires { AreOwnOutcomes (J.is_type judge.now) walker.now }
    ensures record { found_as (J.tree judge.now) result
        ≡ record_by (outcome_read (outcomes_as (J.tree judge.now) walker.now)) (tree_of node.now) }
    ensures own { IfSome result (λ rec. IsOwnRec (J.is_type judge.now) rec.now) }
{
    match walker.outcome(node.id()) {
        Some(Outcome::Found(rec)) => Some(rec),
        Some(Outcome::Broken(_, _)) => None,
        Some(Outcome::Waits(_)) => None,
        Some(Outcome::Nothing) => None,
        None => None,
    }
}
