// The end of an open node: its number, its text, its place among the parts of the next one.
ghost use Rattle.std.specs.Prelude.{◌≡◌, ◌^◌, ℕ, ◌+◌, [], ◌∷◌, ◌++◌, map, OnOk, IfOk, OnErr};
ghost use Rattle.go_tree.specs.Tree.{tree_of, trees_of};
ghost use Rattle.go_tree.specs.Grammar.Trees.Reading.{has_text, text_between, node_read, close_last};
ghost use Rattle.go_parse_x.specs.Tables.Opened.{frame, frames, numbers, numbers_in, numbers_among, tree_without, Rises};

use crate::opened::{OpenNode, push_part};
use go_base::{Bytes, NoMemory};
use go_tree::{Node, NodeId, NodeKind};
use std::alloc::Global;

/// The next number of a node. Numbers that are used up count as want of memory.
pub fn next_number(number: &mut usize) -> Result<NodeId, NoMemory>
    ensures taken { IfOk result (λ id. id.0 ≡ number.old) }
    ensures next { OnOk result (number.new ≡ number.old + 1) }
    ensures kept { OnErr result (number.new ≡ number.old) }
    ensures used_up { OnErr result (number.old + 1 ≡ 2 ^ 64) }
{
    let id = NodeId(*number);
    match number.checked_add(1) {
        None => Err(NoMemory),
        Some(next) => {
            *number = next;
            Ok(id)
        }
    }
}

/// Whether nodes of that kind have the bytes of their span as text.
fn has_text(kind: NodeKind) -> bool
    ensures { result ≡ has_text kind }
{
    match kind {
        NodeKind::Name
        | NodeKind::IntLit
        | NodeKind::FloatLit
        | NodeKind::RuneLit
        | NodeKind::StringLit => true,
        _ => false,
    }
}

/// The text of a node of that kind between the offsets.
fn text_between(
    alloc: Global,
    bytes: &[u8],
    kind: NodeKind,
    from: usize,
    to: usize,
) -> Result<Bytes, NoMemory>
    ensures { IfOk result (λ text. text ≡ text_between bytes.now kind from to) }
{
    if !has_text(kind) {
        return Ok(Bytes::new(Vec::new(alloc)));
    }
    let rest = &bytes[from.min(bytes.len())..];
    let most = to.saturating_sub(from).min(rest.len());
    Ok(Bytes::new(rest[..most].to_vec(alloc)?))
}

/// The node that the open node becomes at its end. It keeps no room for more parts.
fn closed(
    alloc: Global,
    bytes: &[u8],
    inner: OpenNode,
    kind: NodeKind,
    end: usize,
    id: NodeId,
) -> Result<Node, NoMemory>
    ensures tree { IfOk result (λ n. tree_without n ≡ node_read bytes.now kind end (frame inner)) }
    ensures numbers { IfOk result (λ n. numbers_in (tree_of n) ≡ numbers_among (trees_of (map tree_of inner.parts.items)) ++ id.0 ∷ []) }
{
    let OpenNode { start, mut parts } = inner;
    parts.shrink_to_fit();
    let text = text_between(alloc, bytes, kind, start, end)?;
    Ok(Node {
        id,
        start,
        end,
        kind,
        text,
        parts,
    })
}

/// The innermost open node ends at that offset, and becomes the newest part of the next one. Where
/// fewer than two nodes are open, nothing happens.
pub fn close(
    alloc: Global,
    bytes: &[u8],
    opened: &mut Vec<OpenNode>,
    kind: NodeKind,
    end: usize,
    number: &mut usize,
) -> Result<(), NoMemory>
    ensures nodes { OnOk result (frames opened.new.items ≡ close_last bytes.now kind end (frames opened.old.items)) }
    ensures numbers { OnOk result ((low : ℕ) → Rises low (numbers opened.old.items) number.old → Rises low (numbers opened.new.items) number.new) }
{
    let Some(inner) = opened.pop() else {
        return Ok(());
    };
    let Some(mut outer) = opened.pop() else {
        opened.push(inner)?;
        return Ok(());
    };
    let id = next_number(number)?;
    let node = closed(alloc, bytes, inner, kind, end, id)?;
    push_part(&mut outer.parts, node)?;
    opened.push(outer)?;
    Ok(())
}
