// Types, as the Go specification writes them.
use crate::names::Names;
use crate::tests::{name, object};
use crate::types::type_text;
use go_base::{Bytes, NoMemory, ObjId};
use go_report::NamedObject;
use go_term::{Basic, Dir, ElemTerm, FieldTerm, FuncTerm, Term, UnionTerm};
use std::alloc::{AllocError, Global};
use std::test::Fail;

// m.T, which has a type parameter P, and m.E.
const T: ObjId = ObjId(50);

const E: ObjId = ObjId(52);

const INT: Term = Term::Basic(Basic::Int);

const STRING: Term = Term::Basic(Basic::String);

fn named(alloc: Global) -> Result<Vec<NamedObject>, NoMemory> {
    let mut t = object(alloc, T, "m", "T")?;
    t.params.push(name(alloc, "P")?)?;
    Ok(vec![in alloc; t, object(alloc, E, "m", "E")?]?)
}

fn channel(alloc: Global, d: Dir, term: Term) -> Result<Term, AllocError> {
    Ok(Term::Chan(d, Box::new(alloc, term)?))
}

fn slice(alloc: Global, term: Term) -> Result<Term, AllocError> {
    Ok(Term::Slice(Box::new(alloc, term)?))
}

fn map_of_slices(alloc: Global) -> Result<Term, AllocError> {
    let ints = slice(alloc, INT)?;
    Ok(Term::Map(Box::new(alloc, STRING)?, Box::new(alloc, ints)?))
}

fn variadic(alloc: Global) -> Result<Term, AllocError> {
    Ok(Term::Func(FuncTerm {
        params: vec![in alloc; INT, STRING]?,
        variadic: true,
        results: vec![in alloc; Term::Basic(Basic::Bool), Term::Basic(Basic::Error)]?,
    }))
}

fn field(alloc: Global, text: &str, ty: Term, tag: &[u8]) -> Result<FieldTerm, NoMemory> {
    Ok(FieldTerm {
        object: E,
        name: name(alloc, text)?,
        package: name(alloc, "m")?,
        embedded: text == "E",
        ty,
        tag: Bytes::new(tag.to_vec(alloc)?),
    })
}

fn fields(alloc: Global) -> Result<Term, NoMemory> {
    Ok(Term::Struct(vec![in alloc;
        field(alloc, "a", INT, b"")?,
        field(alloc, "E", Term::Named(E, Vec::new(alloc)), b"")?,
        field(alloc, "b", Term::Basic(Basic::Uint8), b"tag")?,
    ]?))
}

fn method(alloc: Global) -> Result<ElemTerm, NoMemory> {
    let f = FuncTerm {
        params: vec![in alloc; INT]?,
        variadic: false,
        results: vec![in alloc; STRING]?,
    };
    Ok(ElemTerm::Method(E, name(alloc, "M")?, name(alloc, "m")?, f))
}

fn elements(alloc: Global) -> Result<Term, NoMemory> {
    let terms = vec![in alloc;
        UnionTerm {
            tilde: true,
            ty: INT
        },
        UnionTerm {
            tilde: false,
            ty: STRING
        },
    ]?;
    Ok(Term::Interface(vec![in alloc; method(alloc)?, ElemTerm::Union(terms)]?))
}

fn simple_rows(alloc: Global) -> Result<Vec<(Term, &'static str)>, NoMemory> {
    let t = Term::Named(T, Vec::new(alloc));
    Ok(vec![in alloc;
        (Term::Pointer(Box::new(alloc, t)?), "*m.T"),
        (Term::Array(3, Box::new(alloc, INT)?), "[3]int"),
        (map_of_slices(alloc)?, "map[string][]int"),
        (
            channel(alloc, Dir::Both, channel(alloc, Dir::Receive, INT)?)?,
            "chan (<-chan int)"
        ),
        (channel(alloc, Dir::Send, INT)?, "chan<- int"),
    ]?)
}

fn rows(alloc: Global) -> Result<Vec<(Term, &'static str)>, NoMemory> {
    Ok(vec![in alloc;
        (variadic(alloc)?, "func(int, ...string) (bool, error)"),
        (fields(alloc)?, "struct{a int; m.E; b uint8 \"tag\"}"),
        (elements(alloc)?, "interface{M(int) string; ~int|string}"),
        (
            Term::Named(T, vec![in alloc; INT, STRING]?),
            "m.T[int, string]"
        ),
        (Term::Tuple(vec![in alloc; INT, STRING]?), "(int, string)"),
        (Term::Param(T, 0), "P"),
    ]?)
}

#[test]
fn types_have_their_text(rt: HostRuntime) -> Result<(), Fail> {
    let alloc = rt.alloc();
    let objects = named(alloc)?;
    let named = Names::of(alloc, &objects)?;
    for (term, text) in simple_rows(alloc)? {
        assert_eq!(rt;
            type_text(alloc, &named, &term)?.as_slice(),
            text.as_bytes()
        );
    }
    for (term, text) in rows(alloc)? {
        assert_eq!(rt;
            type_text(alloc, &named, &term)?.as_slice(),
            text.as_bytes()
        );
    }
    Ok(())
}
