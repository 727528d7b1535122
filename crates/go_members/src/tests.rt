// What two type literals made by hand declare, where memory is ample.
use crate::push_members;
use go_base::{Bytes, Name, NoMemory, ObjId};
use go_module::SourceFile;
use go_report::{DefKind, Line, What};
use go_term::{Basic, ElemTerm, FieldTerm, FuncTerm, Term};
use go_tree::{File, Node, NodeId, NodeKind};
use std::alloc::Global;
use std::test::Fail;

fn node(alloc: Global, kind: NodeKind, text: &str, parts: Vec<Node>) -> Result<Node, NoMemory> {
    Ok(Node {
        id: NodeId(1),
        start: 0,
        end: 0,
        kind,
        text: Bytes::new(text.as_bytes().to_vec(alloc)?),
        parts,
    })
}

// A node whose parts are these names.
fn over(alloc: Global, kind: NodeKind, names: &[&str]) -> Result<Node, NoMemory> {
    let mut parts = Vec::new(alloc);
    for text in names {
        parts.push(node(alloc, NodeKind::Name, text, Vec::new(alloc))?)?;
    }
    node(alloc, kind, "", parts)
}

// `interface{ M(x ...int) (n string) }`
fn interface_type(alloc: Global) -> Result<Node, NoMemory> {
    let param = over(alloc, NodeKind::VariadicParam, &["x", "int"])?;
    let result = over(alloc, NodeKind::Param, &["n", "string"])?;
    let params = node(alloc, NodeKind::Params, "", vec![in alloc; param]?)?;
    let results = node(alloc, NodeKind::Params, "", vec![in alloc; result]?)?;
    let name = node(alloc, NodeKind::Name, "M", Vec::new(alloc))?;
    let signature = node(
        alloc,
        NodeKind::Signature,
        "",
        vec![in alloc; params, results]?,
    )?;
    let method = node(
        alloc,
        NodeKind::MethodElem,
        "",
        vec![in alloc; name, signature]?,
    )?;
    node(alloc, NodeKind::InterfaceType, "", vec![in alloc; method]?)
}

fn name(alloc: Global, text: &str) -> Result<Name, NoMemory> {
    Ok(Name::new(String::from_str(alloc, text)?))
}

fn interface_term(alloc: Global) -> Result<Term, NoMemory> {
    let signature = FuncTerm {
        params: vec![in alloc; Term::Basic(Basic::Int)]?,
        variadic: true,
        results: vec![in alloc; Term::Basic(Basic::String)]?,
    };
    let method = ElemTerm::Method(ObjId(1), name(alloc, "M")?, name(alloc, "m")?, signature);
    Ok(Term::Interface(vec![in alloc; method]?))
}

// `struct{ a, b int }`
fn struct_type(alloc: Global) -> Result<Node, NoMemory> {
    let field = over(alloc, NodeKind::Field, &["a", "b", "int"])?;
    node(alloc, NodeKind::StructType, "", vec![in alloc; field]?)
}

fn field(alloc: Global, text: &str) -> Result<FieldTerm, NoMemory> {
    Ok(FieldTerm {
        object: ObjId(1),
        name: name(alloc, text)?,
        package: name(alloc, "m")?,
        embedded: false,
        ty: Term::Basic(Basic::Int),
        tag: Bytes::new(Vec::new(alloc)),
    })
}

fn struct_term(alloc: Global) -> Result<Term, NoMemory> {
    Ok(Term::Struct(vec![in alloc; field(alloc, "a")?, field(alloc, "b")?]?))
}

fn word(kind: &DefKind) -> &'static [u8] {
    match kind {
        DefKind::Func(_) => b" func ",
        DefKind::Var(Term::Slice(_)) => b" [] ",
        DefKind::Var(_) => b" var ",
        DefKind::Field(_) => b" field ",
        _ => b" other ",
    }
}

// Each name and a word for what it is declared as.
fn told(alloc: Global, lines: &[Line]) -> Result<Vec<u8>, NoMemory> {
    let mut text = Vec::new(alloc);
    for line in lines {
        if let What::Def(name, kind) = &line.what {
            text.extend_from_slice(name.as_bytes())?;
            text.extend_from_slice(word(kind))?;
        }
    }
    Ok(text)
}

#[test]
fn each_name_has_its_line(rt: HostRuntime) -> Result<(), Fail> {
    let alloc = rt.alloc();
    let root = over(alloc, NodeKind::Name, &[])?;
    let bytes = Bytes::new(Vec::new(alloc));
    let file = SourceFile::new(alloc, name(alloc, "a.go")?, bytes, File { number: 0, root })?;
    let mut lines = Vec::new(alloc);
    push_members(
        alloc,
        false,
        &file,
        &interface_type(alloc)?,
        &interface_term(alloc)?,
        &mut lines,
    )?;
    push_members(
        alloc,
        false,
        &file,
        &struct_type(alloc)?,
        &struct_term(alloc)?,
        &mut lines,
    )?;
    let wanted = b"M func x [] n var a field b field ";
    assert_eq!(rt; told(alloc, &lines)?.as_slice(), &wanted[..]);
    Ok(())
}
