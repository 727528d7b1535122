// Walks over expressions (Go specification, "Expressions").
ghost use Rattle.std.specs.Prelude.{◌≡◌, ℕ, false, IfOk, IfSome, OnErr, OnOk};
ghost use Rattle.std.specs.Option.{option_map};
ghost use Rattle.go_tree.specs.Tree.{tree_of};
ghost use Rattle.go_operands.specs.Operands.{expressions_in};
ghost use Rattle.go_judge.specs.View.{outcome_as};
ghost use Rattle.go_model.specs.Outcomes.Walk as walk;
ghost use Rattle.go_model.specs.Outcomes.Walked.{ArePartly, walked_over};
ghost use Rattle.go_judge.specs.Types.Own.{IsOwnOutcome, KeepsTypes};
ghost use Rattle.go_constructs.specs.Operators.Honest.{AreHonest};
ghost use Rattle.go_judge.specs.Naming.{AreThere};

use go_base::NoMemory;
use go_judge::{Ask, Outcome};
use go_term::Ty;
use go_tree::{Node, NodeId};
use std::alloc::Global;

/// Who walks over expressions and types, and keeps the outcomes of their nodes.
pub trait ExprWalk: Ask {
    /// The outcome of a node over the headers, which stay, as the names and its types do, also on an error. It asks that
    /// each object that is denoted is there, and that each constant that is known is represented by its type. The walk
    /// reaches the node and all nodes in it, the name of a package before a `.` too. `want` is the type of the variable or
    /// the result to which the value is given, one of its own; nothing is built yet that looks at it. An error is want of
    /// memory; some of these nodes may have their outcomes then.
    fn walk(&mut self, alloc: Global, node: &Node, want: Option<Ty>) -> Result<Outcome, NoMemory>
        requires there { AreThere (Self.names self.old) }
        requires honest { AreHonest (Self.headers self.old) }
        requires wanted { IfSome want (Self.is_type self.old) }
        ensures outcome { IfOk result (λ found. outcome_as (Self.tree self.new) found
            ≡ walk.outcome (Self.names self.old) (Self.headers self.old) (tree_of node.now)) }
        ensures own { IfOk result (IsOwnOutcome (Self.is_type self.new)) }
        ensures reached { OnOk result ((n : ℕ) → Self.outcomes self.new n
            ≡ walked_over (Self.names self.old) (Self.headers self.old) (expressions_in (tree_of node.now))
            (Self.outcomes self.old) n) }
        ensures err { OnErr result (ArePartly (Self.names self.old) (Self.headers self.old)
            (expressions_in (tree_of node.now)) (Self.outcomes self.old) (Self.outcomes self.new)) }
        ensures same { Self.headers self.new ≡ Self.headers self.old }
        ensures names { Self.names self.new ≡ Self.names self.old }
        ensures unspent { IfOk result (λ found. Self.is_spent self.old ≡ false) }
        ensures spent { Self.is_spent self.new ≡ Self.is_spent self.old }
        ensures world { Self.world self.new ≡ Self.world self.old }
        ensures types { KeepsTypes (Self.is_type self.old) (Self.is_type self.new)
            (Self.tree self.old) (Self.tree self.new) };

    /// The outcome of a node in the last walk that reached it, None exactly where none did.
    fn outcome(&self, id: NodeId) -> Option<&Outcome>
        ensures outcome { option_map (λ found. outcome_as (Self.tree self.now) found.now) result
            ≡ Self.outcomes self.now id.0 }
        ensures own { IfSome result (λ found. IsOwnOutcome (Self.is_type self.now) found.now) };
}
