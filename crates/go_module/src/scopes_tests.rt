// Tables of scopes: those of the universe, and tables with one entry.
use crate::object::{Method, ObjKind, Object};
use crate::scopes::Scopes;
use go_base::{Name, NoMemory, ObjId};
use go_tree::NodeId;
use std::alloc::Global;
use std::test::Fail;

const OBJECT: ObjId = ObjId(50);

fn name(alloc: Global, text: &str) -> Result<Name, NoMemory> {
    Ok(Name::new(String::from_str(alloc, text)?))
}

fn constant(alloc: Global) -> Result<Object, NoMemory> {
    Ok(Object {
        name: name(alloc, "one")?,
        kind: ObjKind::Const,
        at: NodeId(50),
        package: 0,
        params: 0,
    })
}

fn method(alloc: Global) -> Result<Method, NoMemory> {
    let name_of_it = name(alloc, "String")?;
    Ok(Method {
        object: ObjId(60),
        name: name_of_it,
        package: name(alloc, "m")?,
        pointer: false,
    })
}

fn with_use(alloc: Global) -> Result<Scopes, NoMemory> {
    let mut scopes = Scopes::empty(alloc)?;
    scopes.uses.insert(NodeId(55), OBJECT)?;
    Ok(scopes)
}

fn with_object(alloc: Global) -> Result<Scopes, NoMemory> {
    let mut scopes = Scopes::empty(alloc)?;
    scopes.objects.insert(OBJECT, constant(alloc)?)?;
    Ok(scopes)
}

fn with_method(alloc: Global) -> Result<Scopes, NoMemory> {
    let mut scopes = Scopes::empty(alloc)?;
    let list = vec![in alloc; method(alloc)?]?;
    scopes.methods.insert(OBJECT, list)?;
    Ok(scopes)
}

#[test]
fn an_occurrence_resolves(rt: HostRuntime) -> Result<(), Fail> {
    let scopes = with_use(rt.alloc())?;
    assert_eq!(rt; scopes.resolve(NodeId(55)), Some(OBJECT));
    assert_eq!(rt; scopes.resolve(NodeId(50)), None);
    Ok(())
}

#[test]
fn an_object_is_found(rt: HostRuntime) -> Result<(), Fail> {
    let scopes = with_object(rt.alloc())?;
    assert!(rt; scopes.objects.contains_key(&OBJECT));
    assert_eq!(rt; scopes.object(OBJECT).at, NodeId(50));
    Ok(())
}

#[test]
fn a_type_has_its_methods(rt: HostRuntime) -> Result<(), Fail> {
    let scopes = with_method(rt.alloc())?;
    assert_eq!(rt; scopes.methods(OBJECT).len(), 1);
    assert!(rt; scopes.methods(ObjId(60)).is_empty());
    Ok(())
}

// Predeclared identifiers by their numbers (Go specification, "Predeclared identifiers"): the first and the
// last of each list, and the aliases.
const PREDECLARED: [(usize, &str, ObjKind); 10] = [
    (0, "any", ObjKind::Alias),
    (1, "bool", ObjKind::Defined),
    (2, "byte", ObjKind::Alias),
    (14, "rune", ObjKind::Alias),
    (21, "uintptr", ObjKind::Defined),
    (22, "true", ObjKind::Const),
    (24, "iota", ObjKind::Const),
    (25, "nil", ObjKind::Nil),
    (26, "append", ObjKind::Builtin),
    (43, "recover", ObjKind::Builtin),
];

#[test]
fn the_universe_is_there(rt: HostRuntime) -> Result<(), Fail> {
    let scopes = Scopes::empty(rt.alloc())?;
    assert_eq!(rt; scopes.objects.len(), 44);
    for (number, name, kind) in &PREDECLARED {
        let found = scopes.objects.get(&ObjId(*number)).ok_or("no object")?;
        assert_eq!(rt; found.name.as_str(), *name);
        assert_eq!(rt; found.kind, *kind);
    }
    Ok(())
}
