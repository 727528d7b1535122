// Walks over expressions and types, node by node (Go specification, "Expressions").
ghost use Rattle.std.specs.Prelude.{◌≡◌, ◌==◌, ℕ, None, Some, IfOk, IfSome, OnErr, OnOk, if◌then◌else◌, length, map, option_and_then};
ghost use Rattle.std.specs.List.{AllByRecursion};
ghost use Rattle.std.specs.Option.{option_map};
ghost use Rattle.go_tree.specs.Tree.{id_of, kind_of, tree_of};
ghost use Rattle.go_tree.specs.declared.node_kind.NodeKind.TheVariants as kinds;
ghost use Rattle.go_term.specs.Types.{TypeData};
ghost use Rattle.go_term.specs.declared.term.Term.{Term};
ghost use Rattle.go_operands.specs.Operands.{expressions_in, operands_of};
ghost use Rattle.go_judge.specs.Judged.{judged};
ghost use Rattle.go_model.specs.Outcomes.Readings.{record_in};
ghost use Rattle.go_judge.specs.Records.{rec_as};
ghost use Rattle.go_judge.specs.View.{outcome_as};
ghost use Rattle.go_model.specs.Outcomes.Walk as walk;
ghost use Rattle.go_model.specs.Outcomes.Walked.{ArePartly, walked_over};
ghost use Rattle.go_judge.specs.Types.Own.{IsOwnOutcome, Keeps, KeepsTypes};
ghost use Rattle.go_constructs.specs.Operators.Honest.{AreHonest, GivesHonest};
ghost use Rattle.go_judge.specs.Naming.{AreThere};
ghost use Rattle.go_expr.specs.Outcomes.{arrow_by, direction_by, first_kind};
ghost use Rattle.go_expr.specs.Walker.{AreOwnOutcomes, outcome_in, outcomes_as};

use crate::array::array_type;
use crate::channel::channel_type;
use crate::function::function_type;
use crate::interface::interface_type;
use crate::literal::{integer_literal, rune_literal, string_literal};
use crate::map_type::map_type;
use crate::meaning::meaning;
use crate::name::name;
use crate::operator::operator;
use crate::parentheses::parentheses;
use crate::pointer::pointer_to;
use crate::selector::selector;
use crate::slice::slice_type;
use crate::struct_type::struct_type;
use go_base::NoMemory;
use go_model::{Judge, NumberHasher, Outcome, Rec};
use go_module::part_list;
use go_operands::operands_of;
use go_term::{Dir, Ty};
use go_tree::{Node, NodeId, NodeKind};
use indexmap::IndexMap;
use std::alloc::Global;

/// The outcomes of the nodes that walks reached, by the numbers of the nodes.
#[derive(Drop)]
pub struct Walker {
    table: IndexMap<NodeId, Outcome, NumberHasher>,
}

impl Walker {
    /// No node is reached yet.
    pub fn new(alloc: Global) -> Walker
        ensures { (n : ℕ) → outcome_in result n ≡ None }
    {
        Walker {
            table: IndexMap::with_hasher(alloc, NumberHasher::new()),
        }
    }

    /// The outcome of a node over the headers of the judge, which stays as it is, also on an error. It asks that each
    /// object that is denoted is there, and that the outcomes that are kept have types of the judge's own; so have then
    /// that of the node and all that are kept. The walk reaches the node and all that stands in its operands, the name of
    /// a package before a `.` too. `_want` is the type of the variable or the result to which the value is given; nothing is built
    /// yet that looks at it. An error is want of memory; some of these nodes may have their outcomes then.
    pub fn walk_node<J: Judge>(
        &mut self,
        alloc: Global,
        judge: &mut J,
        node: &Node,
        _want: Option<Ty>,
    ) -> Result<Outcome, NoMemory>
        requires there { AreThere (J.names judge.old) }
        requires honest { AreHonest (J.headers judge.old) }
        requires wanted { IfSome _want (J.is_type judge.old) }
        requires own { AreOwnOutcomes (J.is_type judge.old) self.old }
        ensures outcome { IfOk result (λ found. outcome_as (J.tree judge.new) found
            ≡ walk.outcome (J.names judge.old) (J.headers judge.old) (tree_of node.now)) }
        ensures own { IfOk result (IsOwnOutcome (J.is_type judge.new)) }
        ensures reached { OnOk result ((n : ℕ) → outcomes_as (J.tree judge.new) self.new n
            ≡ walked_over (J.names judge.old) (J.headers judge.old) (expressions_in (tree_of node.now))
            (outcomes_as (J.tree judge.old) self.old) n) }
        ensures err { OnErr result (ArePartly (J.names judge.old) (J.headers judge.old)
            (expressions_in (tree_of node.now)) (outcomes_as (J.tree judge.old) self.old)
            (outcomes_as (J.tree judge.new) self.new)) }
        ensures owned { AreOwnOutcomes (J.is_type judge.new) self.new }
        ensures same { J.headers judge.new ≡ J.headers judge.old }
        ensures names { J.names judge.new ≡ J.names judge.old }
        ensures world { J.world judge.new ≡ J.world judge.old }
        ensures types { KeepsTypes (J.is_type judge.old) (J.is_type judge.new) (J.tree judge.old) (J.tree judge.new) }
    {
        walk(alloc, judge, node, self)
    }

    /// The outcome of a node in the last walk that reached it, None exactly where none did.
    pub fn outcome(&self, id: NodeId) -> Option<&Outcome>
        ensures { option_map (λ found. found.now) result ≡ outcome_in self.now id.0 }
    {
        self.table.get(&id)
    }

    /// The record of a node, None exactly where the last walk that reached it gave it none, or none did. Over more
    /// headers records stay.
    pub fn found(&self, id: NodeId) -> Option<&Rec>
        ensures { (tree : Term → TypeData) → option_map (λ rec. rec_as tree rec.now) result
            ≡ option_and_then record_in (outcomes_as tree self.now id.0) }
    {
        match self.outcome(id) {
            Some(Outcome::Found(rec)) => Some(rec),
            Some(Outcome::Broken(_, _)) => None,
            Some(Outcome::Waits(_)) => None,
            Some(Outcome::Nothing) => None,
            None => None,
        }
    }
}

// Walks over a node, its last operand first, and puts each outcome into the table once, from those of the operands.
fn walk<J: Judge>(
    alloc: Global,
    judge: &mut J,
    node: &Node,
    walker: &mut Walker,
) -> Result<Outcome, NoMemory>
    requires there { AreThere (J.names judge.old) }
    requires honest { AreHonest (J.headers judge.old) }
    requires own { AreOwnOutcomes (J.is_type judge.old) walker.old }
    ensures outcome { IfOk result (λ found. outcome_as (J.tree judge.new) found
        ≡ walk.outcome (J.names judge.old) (J.headers judge.old) (tree_of node.now)) }
    ensures own { IfOk result (IsOwnOutcome (J.is_type judge.new)) }
    ensures reached { OnOk result ((n : ℕ) → outcomes_as (J.tree judge.new) walker.new n
        ≡ walked_over (J.names judge.old) (J.headers judge.old) (expressions_in (tree_of node.now))
        (outcomes_as (J.tree judge.old) walker.old) n) }
    ensures err { OnErr result (ArePartly (J.names judge.old) (J.headers judge.old)
        (expressions_in (tree_of node.now)) (outcomes_as (J.tree judge.old) walker.old)
        (outcomes_as (J.tree judge.new) walker.new)) }
    ensures owned { AreOwnOutcomes (J.is_type judge.new) walker.new }
    ensures keeps { Keeps (J.headers judge.old) (J.headers judge.new) (J.names judge.old) (J.names judge.new)
        (J.outcomes judge.old) (J.outcomes judge.new) (J.is_spent judge.old) (J.is_spent judge.new)
        (J.world judge.old) (J.world judge.new) (J.is_type judge.old) (J.is_type judge.new)
        (J.tree judge.old) (J.tree judge.new) }
{
    let operands = operands_of(alloc, node)?;
    let mut outcomes = Vec::new(alloc);
    for place in (0..operands.len()).rev() {
        outcomes.push(walk(alloc, judge, operands[place], walker)?)?;
    }
    outcomes.reverse();
    step_and_keep(alloc, judge, node, &outcomes, walker)
}

// The outcome of a node from those of its operands; the table then has it too.
fn step_and_keep<J: Judge>(
    alloc: Global,
    judge: &mut J,
    node: &Node,
    outcomes: &[Outcome],
    walker: &mut Walker,
) -> Result<Outcome, NoMemory>
    requires there { AreThere (J.names judge.old) }
    requires many { length outcomes.now ≡ length (operands_of (tree_of node.now)) }
    requires parts { AllByRecursion (IsOwnOutcome (J.is_type judge.old)) outcomes.now }
    requires honest { AllByRecursion (GivesHonest (J.headers judge.old))
        (map (outcome_as (J.tree judge.old)) outcomes.now) }
    requires own { AreOwnOutcomes (J.is_type judge.old) walker.old }
    ensures outcome { IfOk result (λ found. outcome_as (J.tree judge.new) found
        ≡ judged (J.headers judge.old) (walk.construct (J.names judge.old) (tree_of node.now))
        (map (outcome_as (J.tree judge.old)) outcomes.now)) }
    ensures own { IfOk result (IsOwnOutcome (J.is_type judge.new)) }
    ensures entered { IfOk result (λ found. (n : ℕ) → outcomes_as (J.tree judge.new) walker.new n
        ≡ (if id_of (tree_of node.now) == n then Some (outcome_as (J.tree judge.new) found)
        else outcomes_as (J.tree judge.old) walker.old n)) }
    ensures err { OnErr result ((n : ℕ) → outcomes_as (J.tree judge.new) walker.new n
        ≡ outcomes_as (J.tree judge.old) walker.old n) }
    ensures owned { AreOwnOutcomes (J.is_type judge.new) walker.new }
    ensures keeps { Keeps (J.headers judge.old) (J.headers judge.new) (J.names judge.old) (J.names judge.new)
        (J.outcomes judge.old) (J.outcomes judge.new) (J.is_spent judge.old) (J.is_spent judge.new)
        (J.world judge.old) (J.world judge.new) (J.is_type judge.old) (J.is_type judge.new)
        (J.tree judge.old) (J.tree judge.new) }
{
    let made = step(alloc, judge, node, outcomes)?;
    keep(judge, node, made, walker)
}

// Puts the outcome of a node into the table, and hands it on.
fn keep<J: Judge>(
    judge: &J,
    node: &Node,
    made: Outcome,
    walker: &mut Walker,
) -> Result<Outcome, NoMemory>
    requires made { IsOwnOutcome (J.is_type judge.now) made }
    requires own { AreOwnOutcomes (J.is_type judge.now) walker.old }
    ensures outcome { IfOk result (λ found. found ≡ made) }
    ensures entered { IfOk result (λ found. (n : ℕ) → outcomes_as (J.tree judge.now) walker.new n
        ≡ (if id_of (tree_of node.now) == n then Some (outcome_as (J.tree judge.now) found)
        else outcomes_as (J.tree judge.now) walker.old n)) }
    ensures err { OnErr result ((n : ℕ) → outcome_in walker.new n ≡ outcome_in walker.old n) }
    ensures owned { AreOwnOutcomes (J.is_type judge.now) walker.new }
{
    walker.table.insert(node.id(), made.clone()?)?;
    Ok(made)
}

// The outcome of a node, by its kind, from those of its operands.
fn step<J: Judge>(
    alloc: Global,
    judge: &mut J,
    node: &Node,
    outcomes: &[Outcome],
) -> Result<Outcome, NoMemory>
    requires there { AreThere (J.names judge.old) }
    requires many { length outcomes.now ≡ length (operands_of (tree_of node.now)) }
    requires own { AllByRecursion (IsOwnOutcome (J.is_type judge.old)) outcomes.now }
    requires honest { AllByRecursion (GivesHonest (J.headers judge.old))
        (map (outcome_as (J.tree judge.old)) outcomes.now) }
    ensures outcome { IfOk result (λ found. outcome_as (J.tree judge.new) found
        ≡ judged (J.headers judge.old) (walk.construct (J.names judge.old) (tree_of node.now))
        (map (outcome_as (J.tree judge.old)) outcomes.now)) }
    ensures own { IfOk result (IsOwnOutcome (J.is_type judge.new)) }
    ensures keeps { Keeps (J.headers judge.old) (J.headers judge.new) (J.names judge.old) (J.names judge.new)
        (J.outcomes judge.old) (J.outcomes judge.new) (J.is_spent judge.old) (J.is_spent judge.new)
        (J.world judge.old) (J.world judge.new) (J.is_type judge.old) (J.is_type judge.new)
        (J.tree judge.old) (J.tree judge.new) }
{
    match node.kind() {
        NodeKind::IntLit => integer_literal(alloc, judge, node.text()),
        NodeKind::RuneLit => rune_literal(alloc, judge, node.text()),
        NodeKind::StringLit => string_literal(alloc, judge, node.text()),
        NodeKind::Name => {
            let meaning = meaning(judge, node.id());
            name(alloc, judge, meaning)
        }
        NodeKind::SelectorExpr => match node.both_parts() {
            Some((_, f)) => {
                let meaning = meaning(judge, f.id());
                selector(alloc, judge, meaning, outcomes)
            }
            None => Ok(Outcome::Nothing),
        },
        NodeKind::ParenExpr => parentheses(judge, outcomes),
        NodeKind::StarExpr => pointer_to(alloc, judge, outcomes),
        NodeKind::EmbeddedPointer => pointer_to(alloc, judge, outcomes),
        NodeKind::SliceType => slice_type(alloc, judge, outcomes),
        NodeKind::ArrayType => array_type(alloc, judge, outcomes),
        NodeKind::MapType => map_type(alloc, judge, outcomes),
        NodeKind::ChanType => channel_type(alloc, judge, direction_of(node), outcomes),
        NodeKind::ArrowExpr => arrow(alloc, judge, node, outcomes),
        NodeKind::FuncType => function(alloc, judge, node, outcomes),
        NodeKind::StructType => struct_type(alloc, judge, node, outcomes),
        NodeKind::InterfaceType => interface_type(alloc, judge, node, outcomes),
        kind => operator(alloc, judge, kind, outcomes),
    }
}

// A function type, by the outcomes of its operands.
fn function<J: Judge>(
    alloc: Global,
    judge: &mut J,
    node: &Node,
    outcomes: &[Outcome],
) -> Result<Outcome, NoMemory>
    requires kind { kind_of (tree_of node.now) ≡ kinds.FuncType }
    requires many { length outcomes.now ≡ length (operands_of (tree_of node.now)) }
    requires own { AllByRecursion (IsOwnOutcome (J.is_type judge.old)) outcomes.now }
    ensures outcome { IfOk result (λ found. outcome_as (J.tree judge.new) found
        ≡ judged (J.headers judge.old) (walk.construct (J.names judge.old) (tree_of node.now))
        (map (outcome_as (J.tree judge.old)) outcomes.now)) }
    ensures own { IfOk result (IsOwnOutcome (J.is_type judge.new)) }
    ensures keeps { Keeps (J.headers judge.old) (J.headers judge.new) (J.names judge.old) (J.names judge.new)
        (J.outcomes judge.old) (J.outcomes judge.new) (J.is_spent judge.old) (J.is_spent judge.new)
        (J.world judge.old) (J.world judge.new) (J.is_type judge.old) (J.is_type judge.new)
        (J.tree judge.old) (J.tree judge.new) }
{
    match node.parts() {
        [signature, ..] => function_type(alloc, judge, signature, outcomes),
        [] => Ok(Outcome::Nothing),
    }
}

// What stands behind an arrow, by the outcomes of its operands: a channel type, or no type.
fn arrow<J: Judge>(
    alloc: Global,
    judge: &mut J,
    node: &Node,
    outcomes: &[Outcome],
) -> Result<Outcome, NoMemory>
    requires { AllByRecursion (IsOwnOutcome (J.is_type judge.old)) outcomes.now }
    ensures outcome { IfOk result (λ found. outcome_as (J.tree judge.new) found
        ≡ judged (J.headers judge.old) (arrow_by (first_kind (tree_of node.now)))
        (map (outcome_as (J.tree judge.old)) outcomes.now)) }
    ensures own { IfOk result (IsOwnOutcome (J.is_type judge.new)) }
    ensures keeps { Keeps (J.headers judge.old) (J.headers judge.new) (J.names judge.old) (J.names judge.new)
        (J.outcomes judge.old) (J.outcomes judge.new) (J.is_spent judge.old) (J.is_spent judge.new)
        (J.world judge.old) (J.world judge.new) (J.is_type judge.old) (J.is_type judge.new)
        (J.tree judge.old) (J.tree judge.new) }
{
    match first_kind(node) {
        Some(NodeKind::ChanType) => channel_type(alloc, judge, Dir::Receive, outcomes),
        _ => Ok(Outcome::Nothing),
    }
}

// The direction of a channel type that begins with `chan`: `chan<- T` is for sending.
fn direction_of(node: &Node) -> Dir
    ensures { result ≡ direction_by (first_kind (tree_of node.now)) }
{
    match first_kind(node) {
        Some(NodeKind::ArrowExpr) => Dir::Send,
        _ => Dir::Both,
    }
}

// The kind of the first part of a node.
fn first_kind(node: &Node) -> Option<NodeKind>
    ensures { result ≡ first_kind (tree_of node.now) }
{
    match part_list(node) {
        [first, ..] => Some(first.kind()),
        [] => None,
    }
}
