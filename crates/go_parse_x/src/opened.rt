// Open nodes: what is done with the nodes that are read.
ghost use Rattle.std.specs.Prelude.{◌≡◌, ℕ, ◌++◌, ◌∷◌, [], OnOk, OnErr, IfSome, option_map};
ghost use Rattle.go_tree.specs.Tree.{tree_of};
ghost use Rattle.go_tree.specs.Grammar.Trees.Reading.{reopen, adopt, tree_read};
ghost use Rattle.go_parse_x.specs.Tables.Opened.{frames, numbers, numbers_in, added, tree_without, Rises};

use go_base::NoMemory;
use go_tree::Node;
use std::alloc::Global;

/// A node whose end is not read yet, and its parts so far, in source order.
#[derive(Debug, Drop)]
pub struct OpenNode {
    pub start: usize,
    pub parts: Vec<Node>,
}

/// A node begins at that offset.
pub fn open(alloc: Global, opened: &mut Vec<OpenNode>, start: usize) -> Result<(), NoMemory>
    ensures nodes { OnOk result (frames opened.new.items ≡ record { start = start; parts = [] } ∷ frames opened.old.items) }
    ensures numbers { OnOk result (numbers opened.new.items ≡ numbers opened.old.items) }
{
    opened.push(OpenNode {
        start,
        parts: Vec::new(alloc),
    })?;
    Ok(())
}

/// The node that was read last becomes the first part of a node that begins where it does.
pub fn reopen(alloc: Global, opened: &mut Vec<OpenNode>) -> Result<(), NoMemory>
    ensures nodes { OnOk result (frames opened.new.items ≡ reopen (frames opened.old.items)) }
    ensures numbers { OnOk result (numbers opened.new.items ≡ numbers opened.old.items) }
{
    let Some(mut outer) = opened.pop() else {
        return Ok(());
    };
    let Some(first) = outer.parts.pop() else {
        opened.push(outer)?;
        return Ok(());
    };
    let start = first.start();
    let mut parts = Vec::new(alloc);
    push_part(&mut parts, first)?;
    opened.push(outer)?;
    opened.push(OpenNode { start, parts })?;
    Ok(())
}

/// The node that was read last before the innermost open node becomes the first part of that one.
pub fn adopt(opened: &mut Vec<OpenNode>) -> Result<(), NoMemory>
    ensures nodes { OnOk result (frames opened.new.items ≡ adopt (frames opened.old.items)) }
    ensures numbers { OnOk result (numbers opened.new.items ≡ numbers opened.old.items) }
{
    let Some(inner) = opened.pop() else {
        return Ok(());
    };
    let Some(mut outer) = opened.pop() else {
        opened.push(inner)?;
        return Ok(());
    };
    let Some(first) = outer.parts.pop() else {
        opened.push(outer)?;
        opened.push(inner)?;
        return Ok(());
    };
    let start = first.start();
    let OpenNode { mut parts, .. } = inner;
    parts.insert(0, first)?;
    opened.push(outer)?;
    opened.push(OpenNode { start, parts })?;
    Ok(())
}

/// The node becomes the newest part of the innermost open node; nothing happens where none is open, or
/// where there is no memory for it.
pub fn add(opened: &mut Vec<OpenNode>, node: Node) -> Result<(), NoMemory>
    ensures nodes { OnOk result (frames opened.new.items ≡ added (tree_without node) (frames opened.old.items)) }
    ensures numbers { OnOk result ((low middle next : ℕ) → Rises low (numbers opened.old.items) middle → Rises middle (numbers_in (tree_of node)) next → Rises low (numbers opened.new.items) next) }
    ensures kept { OnErr result ((frames opened.new.items ≡ frames opened.old.items) × (numbers opened.new.items ≡ numbers opened.old.items)) }
{
    let Some(mut inner) = opened.pop() else {
        return Ok(());
    };
    let added = push_part(&mut inner.parts, node);
    // behind the pop there is room
    opened.push_reserved(inner);
    added
}

/// The node becomes the last part. Most nodes that have parts have one or two, so there is room for
/// one, then for two, before there is for more.
pub fn push_part(parts: &mut Vec<Node>, node: Node) -> Result<(), NoMemory>
    ensures pushed { OnOk result (parts.new.items ≡ parts.old.items ++ node ∷ []) }
    ensures kept { OnErr result (parts.new.items ≡ parts.old.items) }
{
    if parts.len() < 2 {
        parts.reserve_exact(1)?;
    }
    parts.push(node)?;
    Ok(())
}

/// Takes the newest part of the innermost open node.
pub fn last_node(opened: &mut Vec<OpenNode>) -> Option<Node>
    ensures node { option_map tree_without result ≡ tree_read (frames opened.old.items) }
    ensures numbers { IfSome result (λ n. (low next : ℕ) → Rises low (numbers opened.old.items) next → Rises low (numbers_in (tree_of n)) next) }
{
    opened.pop()?.parts.pop()
}
