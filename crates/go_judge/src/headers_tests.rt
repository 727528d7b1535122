// A map of headers, where memory suffices.
use crate::{Ask, Header, Headers, TypeParam};
use go_base::{Bytes, Name, NoMemory, ObjId};
use go_module::Method;
use go_num::Value;
use go_term::{Basic, Term};
use std::alloc::Global;
use std::test::Fail;

#[test]
fn a_map_of_headers_has_what_was_added(rt: HostRuntime) -> Result<(), Fail> {
    let alloc = rt.alloc();
    let text = Bytes::new(b"ab".to_vec(alloc)?);
    let mut map = Headers::new(alloc);
    map.add(ObjId(45), constant_of(Value::Bool(true)))?;
    map.add(ObjId(46), constant_of(Value::Text(text)))?;
    assert!(rt; map.get(ObjId(47)).is_none());
    assert!(rt; map.ask(ObjId(47))?.is_none());
    assert!(rt;
        matches!(
            map.get(ObjId(45)),
            Some(Header::Const(_, Value::Bool(true)))
        )
    );
    match &map.ask(ObjId(46))? {
        Some(Header::Const(_, Value::Text(bytes))) => {
            assert_eq!(rt; bytes.as_slice(), b"ab".as_slice());
        }
        _ => return Err(Fail::from("the text is lost")),
    }
    Ok(())
}

fn constant_of(value: Value) -> Header {
    Header::Const(Term::Basic(Basic::UntypedInt), value)
}

// `type T[P error] []P` with a method `m` of `*T`
fn defined(alloc: Global) -> Result<Header, NoMemory> {
    let param = TypeParam {
        object: ObjId(50),
        bound: Term::Basic(Basic::Error),
    };
    let method = Method {
        object: ObjId(51),
        name: Name::new(String::from_str(alloc, "m")?),
        package: Name::new(String::from_str(alloc, "p")?),
        pointer: true,
    };
    Ok(Header::Defined(
        vec![in alloc; param]?,
        Term::Slice(Box::new(alloc, Term::Param(ObjId(45), 0))?),
        vec![in alloc; method]?,
    ))
}

#[test]
fn a_header_is_told_whole(rt: HostRuntime) -> Result<(), Fail> {
    let alloc = rt.alloc();
    let mut map = Headers::new(alloc);
    map.add(ObjId(45), defined(alloc)?)?;
    let Some(Header::Defined(params, right, methods)) = map.ask(ObjId(45))? else {
        return Err(Fail::from("another header"));
    };
    assert_eq!(rt; params.len(), 1);
    assert_eq!(rt; methods.len(), 1);
    assert_eq!(rt;
        (params[0].object, methods[0].object),
        (ObjId(50), ObjId(51))
    );
    assert!(rt; matches!(params[0].bound, Term::Basic(Basic::Error)));
    assert!(rt; matches!(right, Term::Slice(_)));
    assert_eq!(rt;
        (methods[0].name.as_str(), methods[0].package.as_str()),
        ("m", "p")
    );
    assert!(rt; methods[0].pointer);
    Ok(())
}
