// The numbers of a finished tree.
ghost use Rattle.std.specs.Prelude.{◌≡◌, ◌+◌, OnOk, map};
ghost use Rattle.go_tree.specs.Tree.{tree_of, trees_of, node_count, node_count_of_all};
ghost use Rattle.go_text.specs.Numbers.{numbered, all_numbered};

use go_base::NoMemory;
use go_parse_x::next_number;
use go_tree::Node;

/// Gives each node its number, from `number` on, in the order in which the nodes end.
#[cycle(number)]
pub fn number_nodes(node: &mut Node, number: &mut usize) -> Result<(), NoMemory>
    ensures tree { OnOk result (tree_of node.new ≡ numbered number.old (tree_of node.old)) }
    ensures next { OnOk result (number.new ≡ number.old + node_count (tree_of node.old)) }
{
    number_all(&mut node.parts, number)?;
    node.id = next_number(number)?;
    Ok(())
}

#[cycle(number)]
fn number_all(parts: &mut [Node], number: &mut usize) -> Result<(), NoMemory>
    ensures trees { OnOk result (trees_of (map tree_of parts.new) ≡ all_numbered number.old (trees_of (map tree_of parts.old))) }
    ensures next { OnOk result (number.new ≡ number.old + node_count_of_all (trees_of (map tree_of parts.old))) }
{
    for part in parts.iter_mut() {
        number_nodes(part, number)?;
    }
    Ok(())
}
