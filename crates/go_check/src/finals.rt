// The final types of the untyped expressions in a file (Go specification, "Constants").
ghost use Rattle.std.specs.Prelude.{◌≡◌, ◌++◌, IfOk, None, OnOk, Some, map};
ghost use Rattle.std.specs.List.{flat_map};
ghost use Rattle.std.specs.Option.{option_map};
ghost use Rattle.indexmap.specs.IndexMap.{insert_entry};
ghost use Rattle.go_tree.specs.Tree.{tree_of};
ghost use Rattle.go_tree.specs.declared.node.NodeId.{NodeId as Number};
ghost use Rattle.go_module.specs.Scopes.{same_node};
ghost use Rattle.go_term.specs.View.{type_of};
ghost use Rattle.go_judge.specs.HeadersView.{headers_view};
ghost use Rattle.go_judge.specs.Records.{rec_view};
ghost use Rattle.go_names.specs.Views.{spec_view, specs_view};
ghost use Rattle.go_expr.specs.Read.{outcome_read};
ghost use Rattle.go_expr.specs.Walker.{outcomes_view};
ghost use Rattle.go_final.specs.Ends.{finals_as};
ghost use Rattle.go_report.specs.Finals.Nodes as ends;
ghost use Rattle.go_report.specs.PackageLines.{finals_in};
ghost use Rattle.go_check.specs.Lines.Finals.{final_in};
ghost use Rattle.go_check.specs.Packages.Book.{standing_of};

use crate::module_judge::ModuleJudge;
use crate::uses::written;
use go_base::NoMemory;
use go_expr::Walker;
use go_final::finals;
use go_model::{NumberHasher, Rec};
use go_names::Spec;
use go_term::Ty;
use go_tree::{Node, NodeId};
use indexmap::IndexMap;
use std::alloc::Global;

/// The final types of nodes, by their numbers.
#[derive(Drop)]
pub struct Finals {
    table: IndexMap<NodeId, Ty, NumberHasher>,
}

impl Finals {
    /// The final type of a node, where it has one.
    pub fn of_node(&self, id: NodeId) -> Option<&Ty>
        ensures { option_map (λ ty. type_of ty.now) result ≡ final_in self.now id }
    {
        self.table.get(&id)
    }
}

/// The final types of what is untyped in these specs, but in copies, by the outcomes that the walker has. The judge stays
/// as it is, also on an error, which is want of memory.
pub fn finals_of(
    alloc: Global,
    judge: &mut ModuleJudge,
    specs: &[Spec],
    walker: &Walker,
) -> Result<Finals, NoMemory>
    ensures finals { IfOk result (λ finals. (id : Number) → final_in finals id ≡ ends.final_among
        (finals_in (headers_view judge.old.headers) (outcome_read (outcomes_view walker.now)) (specs_view specs.now)) id) }
    ensures headers { headers_view judge.new.headers ≡ headers_view judge.old.headers }
    ensures standing { standing_of judge.new ≡ standing_of judge.old }
{
    let mut list = Vec::new(alloc);
    let written = written(alloc, specs)?;
    push_specs(alloc, judge, &written, walker, &mut list)?;
    table_of(alloc, list)
}

// Pushes those of these specs.
fn push_specs(
    alloc: Global,
    judge: &mut ModuleJudge,
    specs: &[Spec],
    walker: &Walker,
    list: &mut Vec<(NodeId, Ty)>,
) -> Result<(), NoMemory>
    ensures finals { OnOk result (finals_as type_of list.new.items ≡ finals_as type_of list.old.items
        ++ flat_map (ends.finals_in_spec (headers_view judge.old.headers) (outcome_read (outcomes_view walker.now)))
        (specs_view specs.now)) }
    ensures headers { headers_view judge.new.headers ≡ headers_view judge.old.headers }
    ensures standing { standing_of judge.new ≡ standing_of judge.old }
{
    for spec in specs {
        push_spec(alloc, judge, spec, walker, list)?;
    }
    Ok(())
}

// Pushes those of a spec.
fn push_spec(
    alloc: Global,
    judge: &mut ModuleJudge,
    spec: &Spec,
    walker: &Walker,
    list: &mut Vec<(NodeId, Ty)>,
) -> Result<(), NoMemory>
    ensures finals { OnOk result (finals_as type_of list.new.items ≡ finals_as type_of list.old.items
        ++ ends.finals_in_spec (headers_view judge.old.headers) (outcome_read (outcomes_view walker.now))
        (spec_view spec.now)) }
    ensures headers { headers_view judge.new.headers ≡ headers_view judge.old.headers }
    ensures standing { standing_of judge.new ≡ standing_of judge.old }
{
    push_nodes(alloc, judge, spec.types, walker, list)?;
    push_nodes(alloc, judge, spec.values, walker, list)
}

// Pushes those of these nodes, which are wanted as none.
fn push_nodes(
    alloc: Global,
    judge: &mut ModuleJudge,
    nodes: &[Node],
    walker: &Walker,
    list: &mut Vec<(NodeId, Ty)>,
) -> Result<(), NoMemory>
    ensures finals { OnOk result (finals_as type_of list.new.items ≡ finals_as type_of list.old.items ++ flat_map
        (ends.finals_by (headers_view judge.old.headers) (outcome_read (outcomes_view walker.now)) None)
        (map tree_of nodes.now)) }
    ensures headers { headers_view judge.new.headers ≡ headers_view judge.old.headers }
    ensures standing { standing_of judge.new ≡ standing_of judge.old }
{
    for node in nodes {
        push_node(alloc, judge, node, walker, list)?;
    }
    Ok(())
}

fn push_node(
    alloc: Global,
    judge: &mut ModuleJudge,
    node: &Node,
    walker: &Walker,
    list: &mut Vec<(NodeId, Ty)>,
) -> Result<(), NoMemory>
    ensures finals { OnOk result (finals_as type_of list.new.items ≡ finals_as type_of list.old.items
        ++ ends.finals_by (headers_view judge.old.headers) (outcome_read (outcomes_view walker.now)) None
        (tree_of node.now)) }
    ensures headers { headers_view judge.new.headers ≡ headers_view judge.old.headers }
    ensures standing { standing_of judge.new ≡ standing_of judge.old }
{
    let mut found = finals(alloc, judge, node, walker, None)?;
    list.append(&mut found)?;
    Ok(())
}

// The types by the numbers of their nodes, of several with one number the first.
fn table_of(alloc: Global, list: Vec<(NodeId, Ty)>) -> Result<Finals, NoMemory>
    ensures { IfOk result (λ finals. (id : Number) → final_in finals id
        ≡ ends.final_among (finals_as type_of list.items) id) }
{
    let mut list = list;
    let mut finals = Finals {
        table: IndexMap::with_hasher(alloc, NumberHasher::new()),
    };
    while let Some((id, ty)) = list.pop() {
        put(&mut finals, id, ty)?;
    }
    Ok(finals)
}

// Puts the type of one more node into the table, in the place of that which has its number.
fn put(finals: &mut Finals, id: NodeId, ty: Ty) -> Result<(), NoMemory>
    ensures { OnOk result (finals.new.table.entries ≡ insert_entry same_node finals.old.table.entries id ty) }
{
    finals.table.insert(id, ty)?;
    Ok(())
}

/// The record of a node with its final type, where it has one. An error is want of memory.
pub fn in_the_end(finals: &Finals, node: &Node, found: &Rec) -> Result<Rec, NoMemory>
    ensures { IfOk result (λ rec. rec_view rec
        ≡ ends.in_the_end (final_in finals.now) (tree_of node.now) (rec_view found.now)) }
{
    match finals.of_node(node.id()) {
        Some(ty) => with_type(found, ty),
        None => Ok(found.clone()?),
    }
}

// The record with this type.
fn with_type(found: &Rec, ty: &Ty) -> Result<Rec, NoMemory>
    ensures { IfOk result (λ rec. rec_view rec ≡ ends.typed_as (Some (type_of ty.now)) (rec_view found.now)) }
{
    let mut rec = found.clone()?;
    rec.ty = Some(ty.clone()?);
    Ok(rec)
}
