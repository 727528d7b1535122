// Each call on small trees made by hand, where memory suffices.
use crate::{expressions_in, operands_of};
use go_base::Bytes;
use go_tree::{Node, NodeId, NodeKind};
use std::alloc::{AllocError, Global};
use std::test::Fail;

// A node of one byte with that number.
fn leaf(alloc: Global, id: usize, kind: NodeKind) -> Result<Node, AllocError> {
    Ok(Node {
        id: NodeId(id),
        start: id,
        end: id.saturating_add(1),
        kind,
        text: Bytes::new(b"T".to_vec(alloc)?),
        parts: Vec::new(alloc),
    })
}

// A node of these parts, with that number.
fn over(alloc: Global, id: usize, kind: NodeKind, parts: Vec<Node>) -> Node {
    Node {
        id: NodeId(id),
        start: id,
        end: id.saturating_add(1),
        kind,
        text: Bytes::new(Vec::new(alloc)),
        parts,
    }
}

// `struct { x T; *E }`, where `T` has the number 2, `*E` 5 and the whole 6
fn struct_type(alloc: Global) -> Result<Node, AllocError> {
    let name = leaf(alloc, 1, NodeKind::Name)?;
    let element = leaf(alloc, 2, NodeKind::Name)?;
    let field = over(alloc, 3, NodeKind::Field, vec![in alloc; name, element]?);
    let embedded = leaf(alloc, 4, NodeKind::Name)?;
    let pointer = over(
        alloc,
        5,
        NodeKind::EmbeddedPointer,
        vec![in alloc; embedded]?,
    );
    Ok(over(
        alloc,
        6,
        NodeKind::StructType,
        vec![in alloc; field, pointer]?,
    ))
}

#[test]
fn a_field_hands_up_its_type(rt: HostRuntime) -> Result<(), Fail> {
    let alloc = rt.alloc();
    let node = struct_type(alloc)?;
    let Ok(list) = operands_of(alloc, &node) else {
        return Err(Fail::from("no operands"));
    };
    let [element, pointer] = list.as_slice() else {
        return Err(Fail::from("more operands"));
    };
    assert_eq!(rt; (element.id(), pointer.id()), (NodeId(2), NodeId(5)));
    Ok(())
}

// `<-chan T`
#[test]
fn arrow_and_chan_are_one_node(rt: HostRuntime) -> Result<(), Fail> {
    let alloc = rt.alloc();
    let element = leaf(alloc, 1, NodeKind::Name)?;
    let channel = over(alloc, 2, NodeKind::ChanType, vec![in alloc; element]?);
    let node = over(alloc, 3, NodeKind::ArrowExpr, vec![in alloc; channel]?);
    let Ok(list) = expressions_in(alloc, &node) else {
        return Err(Fail::from("no expressions"));
    };
    let [whole, element] = list.as_slice() else {
        return Err(Fail::from("more expressions"));
    };
    assert_eq!(rt; (whole.id(), element.id()), (NodeId(3), NodeId(1)));
    Ok(())
}

#[test]
fn what_an_operand_embeds_stands_behind_it(rt: HostRuntime) -> Result<(), Fail> {
    let alloc = rt.alloc();
    let node = struct_type(alloc)?;
    let Ok(list) = expressions_in(alloc, &node) else {
        return Err(Fail::from("no expressions"));
    };
    let [whole, element, pointer, embedded] = list.as_slice() else {
        return Err(Fail::from("more expressions"));
    };
    assert_eq!(rt; (whole.id(), element.id()), (NodeId(6), NodeId(2)));
    assert_eq!(rt; (pointer.id(), embedded.id()), (NodeId(5), NodeId(4)));
    Ok(())
}
