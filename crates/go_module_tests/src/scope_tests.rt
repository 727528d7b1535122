// The scopes of a package whose tree is made by hand, each call on them once, where memory suffices.
ghost use Rattle.std.specs.Prelude.{[], IfOk};
ghost use Rattle.go_module.specs.Modules.Module.{module_view};
ghost use Rattle.go_scope.specs.Collecting.{AreBefore};

use go_base::{Broken, Bytes, Family, Name, Pos, Rule};
use go_module::{Module, ObjId, ObjKind, Package, SourceFile};
use go_scope::{ScopeFault, collect};
use go_tree::{File, Node, NodeId, NodeKind};
use std::alloc::{AllocError, Global};
use std::test::Fail;

const SOURCE: &[u8] = b"package p\n\nconst A = B\nconst B = 1\n";

// A node of the bytes from `start` on, whose text is that long.
fn leaf(
    alloc: Global,
    id: usize,
    start: usize,
    kind: NodeKind,
    text: &str,
) -> Result<Node, AllocError> {
    Ok(Node {
        id: NodeId(id),
        start,
        end: start.saturating_add(text.len()),
        kind,
        text: Bytes::new(text.as_bytes().to_vec(alloc)?),
        parts: Vec::new(alloc),
    })
}

// A node of these parts, with the number behind that of the last part.
fn over(alloc: Global, kind: NodeKind, parts: Vec<Node>) -> Result<Node, Fail> {
    let start = parts.first().ok_or("no part")?.start;
    let last = parts.last().ok_or("no part")?;
    let id = NodeId(last.id.0.saturating_add(1));
    let end = last.end;
    Ok(Node {
        id,
        start,
        end,
        kind,
        text: Bytes::new(Vec::new(alloc)),
        parts,
    })
}

// A constant declaration, of a name that begins at a byte and has that number, and its value.
fn constant(
    alloc: Global,
    id: usize,
    start: usize,
    name: &str,
    value: (NodeKind, &str),
) -> Result<Node, Fail> {
    let (kind, text) = value;
    let left = leaf(alloc, id, start, NodeKind::Name, name)?;
    let behind = left.end.saturating_add(3);
    let left = over(alloc, NodeKind::IdentList, vec![in alloc; left]?)?;
    let right = leaf(alloc, id.saturating_add(2), behind, kind, text)?;
    let right = over(alloc, NodeKind::ExprList, vec![in alloc; right]?)?;
    let spec = over(alloc, NodeKind::ConstSpec, vec![in alloc; left, right]?)?;
    over(alloc, NodeKind::ConstDecl, vec![in alloc; spec]?)
}

// A file of these bytes, with these constants behind its package name, which has the number 50.
fn file(alloc: Global, bytes: &[u8], constants: Vec<Node>) -> Result<SourceFile, Fail> {
    let mut parts = vec![in alloc; leaf(alloc, 50, 8, NodeKind::Name, "p")?]?;
    for constant in constants {
        parts.push(constant)?;
    }
    let root = over(alloc, NodeKind::File, parts)?;
    let bytes = Bytes::new(bytes.to_vec(alloc)?);
    let tree = File { number: 0, root };
    Ok(SourceFile::new(alloc, name(alloc, "a.go")?, bytes, tree)?)
}

// The module of one package that has this file.
pub(crate) fn module_of(alloc: Global, file: SourceFile) -> Result<Module, Fail>
    ensures { IfOk result (λ made. AreBefore (module_view made) 0 []) }
{
    let own = Package {
        path: name(alloc, "m")?,
        name: name(alloc, "p")?,
        stub: false,
        files: vec![in alloc; file]?,
        imports: Vec::new(alloc),
    };
    Ok(Module {
        path: name(alloc, "m")?,
        version: 21,
        packages: vec![in alloc; own]?,
    })
}

// `A` has the number 51, its value 53, and `B` 57.
fn two_constants(alloc: Global, value: &str) -> Result<SourceFile, Fail> {
    let first = constant(alloc, 51, 17, "A", (NodeKind::Name, value))?;
    let second = constant(alloc, 57, 29, "B", (NodeKind::IntLit, "1"))?;
    file(alloc, SOURCE, vec![in alloc; first, second]?)
}

pub(crate) fn name(alloc: Global, text: &str) -> Result<Name, AllocError> {
    Ok(Name::new(String::from_str(alloc, text)?))
}

#[test]
fn scopes_of_a_package_answer_each_call(rt: HostRuntime) -> Result<(), Fail> {
    let alloc = rt.alloc();
    let made = module_of(alloc, two_constants(alloc, "B")?)?;
    let Ok(scopes) = collect(alloc, 0, &made, &[]) else {
        return Err(Fail::from("no scopes"));
    };
    let object = ObjId(57);
    assert_eq!(rt; scopes.resolve(NodeId(53)), Some(object));
    assert_eq!(rt; scopes.resolve(NodeId(51)), None);
    assert_eq!(rt;
        scopes.names.get(&name(alloc, "A")?).copied(),
        Some(ObjId(51))
    );
    assert!(rt; scopes.objects.contains_key(&object));
    let found = scopes.object(object);
    assert_eq!(rt; found.name.as_str(), "B");
    assert_eq!(rt; found.kind, ObjKind::Const);
    assert_eq!(rt; found.at, NodeId(57));
    assert_eq!(rt; (found.package, found.params), (0, 0));
    assert!(rt; scopes.methods(object).is_empty());
    Ok(())
}

#[test]
fn a_name_that_is_not_declared_breaks_a_rule(rt: HostRuntime) -> Result<(), Fail> {
    let alloc = rt.alloc();
    let made = module_of(alloc, two_constants(alloc, "C")?)?;
    let Err(ScopeFault::Broken(list)) = collect(alloc, 0, &made, &[]) else {
        return Err(Fail::from("no list"));
    };
    let wanted = [Broken {
        pos: Pos {
            file: 0,
            offset: 21,
        },
        rule: Rule {
            family: Family::P,
            number: 7,
        },
    }];
    assert_eq!(rt; list.as_slice(), &wanted[..]);
    Ok(())
}

// Constants, each the one behind it, and the last one 1, as if all stood on one line.
fn chain(alloc: Global, count: usize) -> Result<Vec<Node>, Fail> {
    let mut constants = Vec::new(alloc);
    let mut id = 51usize;
    let mut start = 17usize;
    for i in 0..count {
        let name = format!(in alloc; "C{i}")?;
        let next = i.saturating_add(1);
        let value = format!(in alloc; "C{next}")?;
        let value = (NodeKind::Name, value.as_str());
        let node = constant(alloc, id, start, name.as_str(), value)?;
        id = id.saturating_add(6);
        start = node.end.saturating_add(8);
        constants.push(node)?;
    }
    let name = format!(in alloc; "C{count}")?;
    constants.push(constant(alloc, id, start, name.as_str(), (NodeKind::IntLit, "1"))?)?;
    Ok(constants)
}

#[test]
fn each_of_many_constants_is_found(rt: HostRuntime) -> Result<(), Fail> {
    let alloc = rt.alloc();
    let made = module_of(alloc, file(alloc, b"", chain(alloc, 50_000)?)?)?;
    let Ok(scopes) = collect(alloc, 0, &made, &[]) else {
        return Err(Fail::from("no scopes"));
    };
    assert_eq!(rt; scopes.names.len(), 50_001);
    assert_eq!(rt; scopes.uses.len(), 50_000);
    Ok(())
}
