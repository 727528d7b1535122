// The rules on chains of type declarations, on a small package made by hand, where memory suffices.
use crate::{CYCLIC_DEFINITION, CYCLIC_EMBEDDING, shapes};
use go_base::{Bytes, Name, ObjId, Rule};
use go_module::{Package, Scopes, SourceFile};
use go_tree::{File, Node, NodeId, NodeKind};
use std::alloc::{AllocError, Global};
use std::test::Fail;

// A node of this kind and these parts, whose first byte stands at its number.
fn node(alloc: Global, id: usize, kind: NodeKind, parts: Vec<Node>) -> Result<Node, AllocError> {
    Ok(Node {
        id: NodeId(id),
        start: id,
        end: id,
        kind,
        text: Bytes::new(Vec::new(alloc)),
        parts,
    })
}

// `type A B`, where `A` has this number, and `B` the next
fn definition(alloc: Global, id: usize) -> Result<Node, Fail> {
    let name = node(alloc, id, NodeKind::Name, Vec::new(alloc))?;
    let side = node(alloc, id.saturating_add(1), NodeKind::Name, Vec::new(alloc))?;
    declared(alloc, name, side)
}

// `type I interface{ ~J | int }`, where `I` has this number, and `J` the next
fn interface(alloc: Global, id: usize) -> Result<Node, Fail> {
    let name = node(alloc, id, NodeKind::Name, Vec::new(alloc))?;
    let embedded = node(alloc, id.saturating_add(1), NodeKind::Name, Vec::new(alloc))?;
    let int = node(alloc, id.saturating_add(2), NodeKind::Name, Vec::new(alloc))?;
    let tilde = node(alloc, 0, NodeKind::TildeType, vec![in alloc; embedded]?)?;
    let union = node(alloc, 0, NodeKind::Union, vec![in alloc; tilde, int]?)?;
    let side = node(alloc, 0, NodeKind::InterfaceType, vec![in alloc; union]?)?;
    declared(alloc, name, side)
}

// `type I interface{ m() I }`, where `I` has this number, and the result the next
fn method(alloc: Global, id: usize) -> Result<Node, Fail> {
    let name = node(alloc, id, NodeKind::Name, Vec::new(alloc))?;
    let result = node(alloc, id.saturating_add(1), NodeKind::Name, Vec::new(alloc))?;
    let params = node(alloc, 0, NodeKind::Params, Vec::new(alloc))?;
    let signature = node(
        alloc,
        0,
        NodeKind::Signature,
        vec![in alloc; params, result]?,
    )?;
    let m = node(alloc, 0, NodeKind::Name, Vec::new(alloc))?;
    let element = node(
        alloc,
        0,
        NodeKind::MethodElem,
        vec![in alloc; m, signature]?,
    )?;
    let side = node(alloc, 0, NodeKind::InterfaceType, vec![in alloc; element]?)?;
    declared(alloc, name, side)
}

fn declared(alloc: Global, name: Node, side: Node) -> Result<Node, Fail> {
    let spec = node(alloc, 0, NodeKind::TypeSpec, vec![in alloc; name, side]?)?;
    Ok(node(alloc, 0, NodeKind::TypeDecl, vec![in alloc; spec]?)?)
}

// A package of one file, the fourth of its module, with these declarations.
fn package(alloc: Global, declarations: Vec<Node>) -> Result<Package, Fail> {
    let root = node(alloc, 0, NodeKind::File, declarations)?;
    let tree = File { number: 3, root };
    let path = Name::new(String::from_str(alloc, "a.go")?);
    let file = SourceFile::new(alloc, path, Bytes::new(Vec::new(alloc)), tree)?;
    Ok(Package {
        path: Name::new(String::from_str(alloc, "m")?),
        name: Name::new(String::from_str(alloc, "p")?),
        stub: false,
        files: vec![in alloc; file]?,
        imports: Vec::new(alloc),
    })
}

// What such a package breaks, where the nodes of the first numbers denote the objects of the second.
fn broken(
    alloc: Global,
    declarations: Vec<Node>,
    uses: &[(usize, usize)],
) -> Result<Vec<(usize, usize, Rule)>, Fail> {
    let mut scopes = Scopes::empty(alloc)?;
    for (id, d) in uses {
        scopes.uses.insert(NodeId(*id), ObjId(*d))?;
    }
    let Ok(list) = shapes(alloc, &scopes, &package(alloc, declarations)?) else {
        return Err(Fail::from("no list"));
    };
    let mut places = Vec::new(alloc);
    for found in &list {
        places.push((found.pos.file, found.pos.offset, found.rule))?;
    }
    Ok(places)
}

#[test]
fn chain_of_names_never_ends(rt: HostRuntime) -> Result<(), Fail> {
    let alloc = rt.alloc();
    // `type A B; type B A; type C A; type D int`
    let declarations = vec![in alloc;
        definition(alloc, 50)?,
        definition(alloc, 60)?,
        definition(alloc, 70)?,
        definition(alloc, 80)?,
    ]?;
    let found = broken(
        alloc,
        declarations,
        &[(51, 60), (61, 50), (71, 50), (81, 1)],
    )?;
    let [a, b, c] = found.as_slice() else {
        return Err(Fail::from("not three"));
    };
    assert!(rt; *a == (3, 50, CYCLIC_DEFINITION));
    assert!(rt; *b == (3, 60, CYCLIC_DEFINITION));
    assert!(rt; *c == (3, 70, CYCLIC_DEFINITION));
    Ok(())
}

#[test]
fn interface_embeds_itself(rt: HostRuntime) -> Result<(), Fail> {
    let alloc = rt.alloc();
    // `type I interface{ ~J | int }; type J I; type K interface{ ~I | int }`
    let declarations = vec![in alloc;
        interface(alloc, 50)?,
        definition(alloc, 60)?,
        interface(alloc, 70)?,
    ]?;
    let found = broken(
        alloc,
        declarations,
        &[(51, 60), (52, 1), (61, 50), (71, 50), (72, 1)],
    )?;
    let [i, j] = found.as_slice() else {
        return Err(Fail::from("not two"));
    };
    assert!(rt; *i == (3, 50, CYCLIC_EMBEDDING));
    assert!(rt; *j == (3, 60, CYCLIC_EMBEDDING));
    Ok(())
}

#[test]
fn method_embeds_nothing(rt: HostRuntime) -> Result<(), Fail> {
    let alloc = rt.alloc();
    let found = broken(alloc, vec![in alloc; method(alloc, 50)?]?, &[(51, 50)])?;
    assert!(rt; found.is_empty());
    Ok(())
}
