// Each call once on small trees made by hand, where memory suffices.
use crate::{
    Spec, declarations_of, import_specs, inner_parts, is_blank_identifier, is_exported, name_of,
    names_in_specs, specs_of,
};
use go_base::{Bytes, Name, ObjId};
use go_module::{Built, ObjKind, SourceFile};
use go_tree::{File, Node, NodeId, NodeKind};
use std::alloc::{AllocError, Global};
use std::slice::from_ref;
use std::test::Fail;

// A node of the bytes from `start` on, whose text is that long.
fn leaf(
    alloc: Global,
    id: usize,
    start: usize,
    kind: NodeKind,
    text: &str,
) -> Result<Node, AllocError> {
    Ok(Node {
        id: NodeId(id),
        start,
        end: start.saturating_add(text.len()),
        kind,
        text: Bytes::new(text.as_bytes().to_vec(alloc)?),
        parts: Vec::new(alloc),
    })
}

// A node of these parts, with the number behind that of the last part.
fn over(alloc: Global, kind: NodeKind, parts: Vec<Node>) -> Result<Node, Fail> {
    let start = parts.first().ok_or("no part")?.start;
    let last = parts.last().ok_or("no part")?;
    let id = NodeId(last.id.0.saturating_add(1));
    let end = last.end;
    Ok(Node {
        id,
        start,
        end,
        kind,
        text: Bytes::new(Vec::new(alloc)),
        parts,
    })
}

// `struct { x T "t" }`, where `T` has the number 2
fn struct_type(alloc: Global) -> Result<Node, Fail> {
    let name = leaf(alloc, 1, 9, NodeKind::Name, "x")?;
    let element = leaf(alloc, 2, 11, NodeKind::Name, "T")?;
    let tag = leaf(alloc, 3, 13, NodeKind::StringLit, "\"t\"")?;
    let field = over(alloc, NodeKind::Field, vec![in alloc; name, element, tag]?)?;
    over(alloc, NodeKind::StructType, vec![in alloc; field]?)
}

#[test]
fn inner_part_of_a_field_is_its_type(rt: HostRuntime) -> Result<(), Fail> {
    let alloc = rt.alloc();
    let node = struct_type(alloc)?;
    let Ok(fields) = inner_parts(alloc, &node) else {
        return Err(Fail::from("no fields"));
    };
    let [field] = fields.as_slice() else {
        return Err(Fail::from("more fields"));
    };
    let Ok(types) = inner_parts(alloc, field) else {
        return Err(Fail::from("no types"));
    };
    let [element] = types.as_slice() else {
        return Err(Fail::from("more types"));
    };
    assert_eq!(rt; element.id(), NodeId(2));
    Ok(())
}

#[test]
fn type_of_a_field_occurs_alone(rt: HostRuntime) -> Result<(), Fail> {
    let alloc = rt.alloc();
    let node = struct_type(alloc)?;
    let spec = Spec {
        file: 1,
        kind: ObjKind::Const,
        node: &node,
        names: &[],
        types: from_ref(&node),
        values: &[],
        told_at: None,
    };
    let Ok(found) = names_in_specs(alloc, &[spec]) else {
        return Err(Fail::from("no names"));
    };
    let [element] = found.as_slice() else {
        return Err(Fail::from("more names"));
    };
    assert_eq!(rt; element.id, NodeId(2));
    assert_eq!(rt; (element.file, element.at), (1, 11));
    assert_eq!(rt; element.name.as_str(), "T");
    assert!(rt; element.selected.is_none());
    Ok(())
}

// The list `b` with these numbers
fn values(alloc: Global, id: usize, start: usize) -> Result<Node, Fail> {
    let value = leaf(alloc, id, start, NodeKind::Name, "b")?;
    over(alloc, NodeKind::ExprList, vec![in alloc; value]?)
}

// A spec of this name, and what stands behind it.
fn constant(
    alloc: Global,
    id: usize,
    start: usize,
    name: &str,
    behind: Node,
) -> Result<Node, Fail> {
    let name = leaf(alloc, id, start, NodeKind::Name, name)?;
    let names = over(alloc, NodeKind::IdentList, vec![in alloc; name]?)?;
    over(alloc, NodeKind::ConstSpec, vec![in alloc; names, behind]?)
}

// `import "a"; const ( A = b; C )`, where `A` has the number 10, `C` 20, and the copy behind `C` is written at 40
fn root(alloc: Global) -> Result<Node, Fail> {
    let package = leaf(alloc, 1, 8, NodeKind::Name, "p")?;
    let path = leaf(alloc, 2, 17, NodeKind::StringLit, "\"a\"")?;
    let import = over(alloc, NodeKind::ImportSpec, vec![in alloc; path]?)?;
    let imports = over(alloc, NodeKind::ImportDecl, vec![in alloc; import]?)?;
    let first = constant(alloc, 10, 36, "A", values(alloc, 12, 40)?)?;
    let copy = over(
        alloc,
        NodeKind::ConstCopy,
        vec![in alloc; values(alloc, 22, 40)?]?,
    )?;
    let second = constant(alloc, 20, 44, "C", copy)?;
    let constants = over(alloc, NodeKind::ConstGroup, vec![in alloc; first, second]?)?;
    over(
        alloc,
        NodeKind::File,
        vec![in alloc; package, imports, constants]?,
    )
}

fn file(alloc: Global) -> Result<SourceFile, Fail> {
    let tree = File {
        number: 0,
        root: root(alloc)?,
    };
    let path = Name::new(String::from_str(alloc, "a.go")?);
    Ok(SourceFile::new(alloc, path, Bytes::new(Vec::new(alloc)), tree)?)
}

#[test]
fn import_has_its_spec(rt: HostRuntime) -> Result<(), Fail> {
    let alloc = rt.alloc();
    let root = root(alloc)?;
    let Ok(specs) = import_specs(alloc, &root) else {
        return Err(Fail::from("no specs"));
    };
    let [spec] = specs.as_slice() else {
        return Err(Fail::from("more specs"));
    };
    assert_eq!(rt; spec.id(), NodeId(3));
    Ok(())
}

#[test]
fn names_of_a_copy_are_told_at_its_spec(rt: HostRuntime) -> Result<(), Fail> {
    let alloc = rt.alloc();
    let files = vec![in alloc; file(alloc)?]?;
    let Ok(lists) = specs_of(alloc, &files) else {
        return Err(Fail::from("no specs"));
    };
    let [specs] = lists.as_slice() else {
        return Err(Fail::from("more files"));
    };
    let Ok(found) = names_in_specs(alloc, specs) else {
        return Err(Fail::from("no names"));
    };
    let [written, copied] = found.as_slice() else {
        return Err(Fail::from("more names"));
    };
    assert_eq!(rt; (written.id, written.at), (NodeId(12), 40));
    assert_eq!(rt; (copied.id, copied.at), (NodeId(22), 44));
    Ok(())
}

#[test]
fn each_name_of_a_group_is_declared(rt: HostRuntime) -> Result<(), Fail> {
    let alloc = rt.alloc();
    let files = vec![in alloc; file(alloc)?]?;
    let Ok(lists) = specs_of(alloc, &files) else {
        return Err(Fail::from("no specs"));
    };
    let Ok(list) = declarations_of(alloc, &lists) else {
        return Err(Fail::from("no declarations"));
    };
    let [first, second] = list.as_slice() else {
        return Err(Fail::from("more declarations"));
    };
    assert_eq!(rt; first.number(), ObjId(10));
    assert_eq!(rt; (second.number(), second.kind), (ObjId(20), ObjKind::Const));
    assert_eq!(rt; (second.built, second.values.len()), (Built::Pair, 1));
    Ok(())
}

#[test]
fn capital_letter_is_exported(rt: HostRuntime) -> Result<(), Fail> {
    let alloc = rt.alloc();
    for (text, exported, blank) in [
        ("Ab", true, false),
        ("É", true, false),
        ("aB", false, false),
        ("_A", false, false),
        ("_", false, true),
    ] {
        let Ok(name) = name_of(alloc, &leaf(alloc, 1, 0, NodeKind::Name, text)?) else {
            return Err(Fail::from("no name"));
        };
        assert_eq!(rt; is_exported(&name), exported, "{text}");
        assert_eq!(rt; is_blank_identifier(&name), blank, "{text}");
    }
    Ok(())
}
