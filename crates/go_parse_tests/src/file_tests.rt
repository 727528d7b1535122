// A file with its numbers. All other texts are rows of go_rows.
use go_parse_s::{ParseFault, parse_file};
use go_tree::{File, NodeId, NodeKind, find};
use std::alloc::Global;
use std::test::Fail;

/// Reads a file, of number 3, whose nodes have numbers from 7 on.
pub(crate) fn read(alloc: Global, text: &[u8]) -> Result<File, ParseFault> {
    parse_file(alloc, text, 3, NodeId(7))
}

// A file, and its nodes from the number 7 on: the kind and the span of each. The second spec of the group has
// a copy of the list of the first.
const NUMBERED: &str = "package p\nconst (\n\ta = 1\n\tb\n)\n";

const NODES: [(NodeKind, usize, usize); 14] = [
    (NodeKind::Name, 8, 9),
    (NodeKind::Name, 19, 20),
    (NodeKind::IdentList, 19, 20),
    (NodeKind::IntLit, 23, 24),
    (NodeKind::ExprList, 23, 24),
    (NodeKind::ConstSpec, 19, 24),
    (NodeKind::Name, 26, 27),
    (NodeKind::IdentList, 26, 27),
    (NodeKind::IntLit, 23, 24),
    (NodeKind::ExprList, 23, 24),
    (NodeKind::ConstCopy, 23, 24),
    (NodeKind::ConstSpec, 26, 27),
    (NodeKind::ConstGroup, 10, 29),
    (NodeKind::File, 0, 30),
];

#[test]
fn numbers_and_places(rt: HostRuntime) -> Result<(), Fail> {
    let file = read(rt.alloc(), NUMBERED.as_bytes())?;
    assert_eq!(&rt; file.number, 3);
    assert_eq!(&rt; file.root.id().0, 20);
    for (place, (kind, start, end)) in NODES.iter().enumerate() {
        let number = place + 7;
        let Some(node) = find(&file, NodeId(number)) else {
            return Err("a number that no node has")?;
        };
        assert!(&rt; node.is(*kind), "{number}");
        assert_eq!(&rt; (node.start(), node.end()), (*start, *end), "{number}");
    }
    assert!(&rt; find(&file, NodeId(6)).is_none());
    assert!(&rt; find(&file, NodeId(21)).is_none());
    Ok(())
}

#[test]
fn a_file_begins_at_its_first_token(rt: HostRuntime) -> Result<(), Fail> {
    let file = read(rt.alloc(), b" package p\n")?;
    assert_eq!(&rt; (file.root.start(), file.root.end()), (1, 11));
    Ok(())
}
