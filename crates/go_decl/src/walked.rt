// Walks over the expressions and types of a package (Go specification, "Expressions", "Constant declarations").
ghost use Rattle.std.specs.Prelude.{◌≡◌, ◌++◌, ℕ, OnOk, map};
ghost use Rattle.std.specs.List.{flat_map};
ghost use Rattle.go_tree.specs.Tree.{tree_of};
ghost use Rattle.go_operands.specs.Operands.{expressions_in, expressions_in_parts};
ghost use Rattle.go_model.specs.Outcomes.Walked.{walked_over};
ghost use Rattle.go_judge.specs.Types.Own.{KeepsTypes};
ghost use Rattle.go_judge.specs.Naming.{AreThere};
ghost use Rattle.go_constructs.specs.Operators.Honest.{AreHonest};
ghost use Rattle.go_names.specs.Views.{specs_view};

use go_base::NoMemory;
use go_model::ExprWalk;
use go_names::Spec;
use go_tree::Node;
use std::alloc::Global;

/// Walks over these specs, the last first. It asks that each object that is denoted is there, and that each constant that
/// is known is represented by its type. An error is want of memory.
pub fn walk_specs<W: ExprWalk>(alloc: Global, walks: &mut W, specs: &[Spec]) -> Result<(), NoMemory>
    requires there { AreThere (W.names walks.old) }
    requires honest { AreHonest (W.headers walks.old) }
    ensures reached { OnOk result ((n : ℕ) → W.outcomes walks.new n
        ≡ walked_over (W.names walks.old) (W.headers walks.old)
        (flat_map expressions_in_parts (specs_view specs.now)) (W.outcomes walks.old) n) }
    ensures same { W.headers walks.new ≡ W.headers walks.old }
    ensures names { W.names walks.new ≡ W.names walks.old }
    ensures world { W.world walks.new ≡ W.world walks.old }
    ensures types { KeepsTypes (W.is_type walks.old) (W.is_type walks.new) (W.tree walks.old) (W.tree walks.new) }
{
    for place in (0..specs.len()).rev() {
        let spec = specs[place];
        walk_parts(alloc, walks, spec.types, spec.values)?;
    }
    Ok(())
}

/// Walks over these types and these expressions, the last first. It asks that each object that is denoted is there, and
/// that each constant that is known is represented by its type. An error is want of memory.
pub fn walk_parts<W: ExprWalk>(
    alloc: Global,
    walks: &mut W,
    types: &[Node],
    values: &[Node],
) -> Result<(), NoMemory>
    requires there { AreThere (W.names walks.old) }
    requires honest { AreHonest (W.headers walks.old) }
    ensures reached { OnOk result ((n : ℕ) → W.outcomes walks.new n
        ≡ walked_over (W.names walks.old) (W.headers walks.old)
        (flat_map expressions_in (map tree_of types.now ++ map tree_of values.now)) (W.outcomes walks.old) n) }
    ensures same { W.headers walks.new ≡ W.headers walks.old }
    ensures names { W.names walks.new ≡ W.names walks.old }
    ensures world { W.world walks.new ≡ W.world walks.old }
    ensures types { KeepsTypes (W.is_type walks.old) (W.is_type walks.new) (W.tree walks.old) (W.tree walks.new) }
{
    walk_nodes(alloc, walks, values)?;
    walk_nodes(alloc, walks, types)
}

// Walks over these expressions and types, the last first.
fn walk_nodes<W: ExprWalk>(alloc: Global, walks: &mut W, nodes: &[Node]) -> Result<(), NoMemory>
    requires there { AreThere (W.names walks.old) }
    requires honest { AreHonest (W.headers walks.old) }
    ensures reached { OnOk result ((n : ℕ) → W.outcomes walks.new n
        ≡ walked_over (W.names walks.old) (W.headers walks.old) (flat_map expressions_in (map tree_of nodes.now))
        (W.outcomes walks.old) n) }
    ensures same { W.headers walks.new ≡ W.headers walks.old }
    ensures names { W.names walks.new ≡ W.names walks.old }
    ensures world { W.world walks.new ≡ W.world walks.old }
    ensures types { KeepsTypes (W.is_type walks.old) (W.is_type walks.new) (W.tree walks.old) (W.tree walks.new) }
{
    for place in (0..nodes.len()).rev() {
        walk_one(alloc, walks, &nodes[place])?;
    }
    Ok(())
}

// Walks over an expression or a type.
fn walk_one<W: ExprWalk>(alloc: Global, walks: &mut W, node: &Node) -> Result<(), NoMemory>
    requires there { AreThere (W.names walks.old) }
    requires honest { AreHonest (W.headers walks.old) }
    ensures reached { OnOk result ((n : ℕ) → W.outcomes walks.new n
        ≡ walked_over (W.names walks.old) (W.headers walks.old) (expressions_in (tree_of node.now))
        (W.outcomes walks.old) n) }
    ensures same { W.headers walks.new ≡ W.headers walks.old }
    ensures names { W.names walks.new ≡ W.names walks.old }
    ensures world { W.world walks.new ≡ W.world walks.old }
    ensures types { KeepsTypes (W.is_type walks.old) (W.is_type walks.new) (W.tree walks.old) (W.tree walks.new) }
{
    walks.walk(alloc, node, None)?;
    Ok(())
}
