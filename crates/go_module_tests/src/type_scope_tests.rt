// The scopes of a package that declares types and variables, and the rules on names within types. No module that is
// loaded has such declarations yet, so that the file is parsed by itself.
use crate::scope_tests::{module_of, name};
use go_base::{Broken, Bytes, Family};
use go_module::{ObjId, ObjKind, Scopes, SourceFile};
use go_parse_s::parse_file;
use go_scope::{ScopeFault, collect};
use go_tree::NodeId;
use std::alloc::Global;
use std::test::Fail;

// Sources, in which each `@` stands before a place where the rule of family P with that number is broken.
const BROKEN: [(&str, u16); 21] = [
    ("type T struct{ a, b int; c string }", 5),
    ("type T struct{ @a, b int; @a string }", 5),
    ("type T struct{ a struct{ @a, @a int } }", 5),
    ("type T struct{ _, _ int; _ string }", 5),
    ("type T struct{ @A int; *@A }; type A int", 5),
    ("type T struct{ @A \"tag\"; @A int \"tag\" }; type A int", 5),
    ("type T interface{ m(); n(); A }; type A int", 5),
    ("type T interface{ @m(); n(); @m(int) }", 5),
    ("type T interface{ m(); @_() }", 5),
    ("type T interface{ m(struct{ @m, @m int }) }", 5),
    ("var v struct{ @a, @a int }", 5),
    ("type T = []map[string]*struct{ @a, @a int }", 5),
    ("type T func(@x, y int, @x string)", 4),
    ("type T func(@x int) (@x int)", 4),
    ("type T func(x, y int) struct{ x int }", 4),
    ("type T func(x func(x int) int) func(x int)", 4),
    ("type T func(_, _ int) (_ int)", 4),
    ("type T func(int, int, ...int) int", 4),
    ("type T interface{ m(@x int, @x ...int) }", 4),
    ("type @T int; type @T = string; var @T int", 4),
    ("type T [n]@U; var v, w *@U; const n = 1", 7),
];

// The source without its marks, behind a package clause, and the offsets of the marks.
fn unmarked(alloc: Global, text: &str) -> Result<(Vec<u8>, Vec<usize>), Fail> {
    let mut source = b"package p; ".to_vec(alloc)?;
    let mut places = Vec::new(alloc);
    for byte in text.as_bytes() {
        if *byte == b'@' {
            places.push(source.len())?;
        } else {
            source.push(*byte)?;
        }
    }
    Ok((source, places))
}

fn scopes_of(alloc: Global, source: Vec<u8>) -> Result<Result<Scopes, Vec<Broken>>, Fail> {
    let Ok(tree) = parse_file(alloc, &source, 0, NodeId(45)) else {
        return Err(Fail::from("no file"));
    };
    let file = SourceFile::new(alloc, name(alloc, "a.go")?, Bytes::new(source), tree)?;
    let made = module_of(alloc, file)?;
    match collect(alloc, 0, &made, &[]) {
        Ok(scopes) => Ok(Ok(scopes)),
        Err(ScopeFault::Broken(list)) => Ok(Err(list)),
        Err(ScopeFault::NoMemory) => Err(Fail::from("no memory")),
    }
}

#[test]
fn names_within_types_are_told(rt: HostRuntime) -> Result<(), Fail> {
    let alloc = rt.alloc();
    for (text, number) in BROKEN {
        let (source, places) = unmarked(alloc, text)?;
        let list = match scopes_of(alloc, source)? {
            Ok(_) => Vec::new(alloc),
            Err(list) => list,
        };
        assert_eq!(rt; list.len(), places.len(), "{text}");
        for (broken, place) in list.iter().zip(&places) {
            assert_eq!(rt; broken.pos.offset, *place, "{text}");
            assert_eq!(rt;
                (broken.rule.family, broken.rule.number),
                (Family::P, number),
                "{text}"
            );
        }
    }
    Ok(())
}

// The kind of the object that a name of the package denotes.
fn kind_of(alloc: Global, scopes: &Scopes, text: &str) -> Result<Option<ObjKind>, Fail> {
    let Some(d) = scopes.names.get(&name(alloc, text)?) else {
        return Ok(None);
    };
    Ok(scopes.objects.get(&ObjId(d.0)).map(|object| object.kind))
}

#[test]
fn types_and_variables_are_declared(rt: HostRuntime) -> Result<(), Fail> {
    let alloc = rt.alloc();
    let (source, _) = unmarked(
        alloc,
        "type ( T struct{ f A }; A = []T ); var v, w T; var ( x [c]A; y, z func(a T) ); const c = 2",
    )?;
    let Ok(scopes) = scopes_of(alloc, source)? else {
        return Err(Fail::from("a rule is broken"));
    };
    let wanted = [
        ("T", Some(ObjKind::Defined)),
        ("A", Some(ObjKind::Alias)),
        ("v", Some(ObjKind::Var)),
        ("w", Some(ObjKind::Var)),
        ("x", Some(ObjKind::Var)),
        ("y", Some(ObjKind::Var)),
        ("z", Some(ObjKind::Var)),
        ("c", Some(ObjKind::Const)),
        ("f", None),
        ("a", None),
    ];
    for (text, kind) in wanted {
        assert_eq!(rt; kind_of(alloc, &scopes, text)?, kind, "{text}");
    }
    assert_eq!(rt; scopes.uses.len(), 6);
    Ok(())
}
