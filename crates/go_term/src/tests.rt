// Each call on types, where memory is ample: what is made is compared by its debug text.
use crate::{Arguments, Basic, FieldTerm, Shape, Term, TermFault, TermSize, place_of};
use go_base::{Bytes, Name, NoMemory, ObjId};
use std::alloc::{AllocError, Global};
use std::test::Fail;

// `map[string][]*P`, where P is a type parameter.
fn layers(alloc: Global) -> Result<Term, NoMemory> {
    let pointer = Term::Pointer(Box::new(alloc, Term::Param(ObjId(50), 0))?);
    let slice = Term::Slice(Box::new(alloc, pointer)?);
    let key = Box::new(alloc, Term::Basic(Basic::String))?;
    Ok(Term::Map(key, Box::new(alloc, slice)?))
}

const LAYERS: &str = "Map(Basic(String), Slice(Pointer(Param(ObjId(50), 0))))";

// A struct with a field of type `int`.
fn one_field(alloc: Global) -> Result<Term, NoMemory> {
    let field = FieldTerm {
        object: ObjId(60),
        name: Name::new(String::from_str(alloc, "a")?),
        package: Name::new(String::from_str(alloc, "m")?),
        embedded: false,
        ty: Term::Basic(Basic::Int),
        tag: Bytes::new(b"t".to_vec(alloc)?),
    };
    Ok(Term::Struct(vec![in alloc; field]?))
}

// This many pointers to `int`.
fn pointers(alloc: Global, count: usize) -> Result<Term, NoMemory> {
    let mut t = Term::Basic(Basic::Int);
    for _ in 0..count {
        t = Term::Pointer(Box::new(alloc, t)?);
    }
    Ok(t)
}

#[test]
fn basic_types(rt: HostRuntime) -> Result<(), AllocError> {
    let rows = [(Basic::UntypedInt, "untyped int"), (Basic::Uint8, "uint8")];
    for (basic, text) in rows {
        assert_eq!(rt; format!(in rt.alloc(); "{basic}")?.as_str(), text);
    }
    Ok(())
}

#[test]
fn copy_is_the_same(rt: HostRuntime) -> Result<(), Fail> {
    let copy = layers(rt.alloc())?.clone()?;
    assert_eq!(rt; format!(in rt.alloc(); "{copy:?}")?.as_str(), LAYERS);
    Ok(())
}

#[test]
fn size_counts_layers(rt: HostRuntime) -> Result<(), Fail> {
    assert_eq!(rt; layers(rt.alloc())?.size(), TermSize { depth: 4, nodes: 5 });
    Ok(())
}

#[test]
fn size_counts_an_argument(rt: HostRuntime) -> Result<(), Fail> {
    let to = [pointers(rt.alloc(), 3)?];
    let with = Arguments {
        from: &[(ObjId(50), 0)],
        to: &to,
        sizes: &[to[0].size()],
    };
    assert_eq!(rt;
        layers(rt.alloc())?.size_with(&with),
        TermSize { depth: 7, nodes: 8 }
    );
    Ok(())
}

#[test]
fn limits_on_sizes(rt: HostRuntime) {
    let rows = [
        (256, 65_536, Ok(())),
        (257, 65_537, Err(TermFault::Deep)),
        (256, 65_537, Err(TermFault::Large)),
    ];
    for (depth, nodes, answer) in rows {
        assert_eq!(rt;
            TermSize { depth, nodes }.check(),
            answer,
            "at {depth} and {nodes}"
        );
    }
}

#[test]
fn shape_is_the_outer_layer(rt: HostRuntime) -> Result<(), Fail> {
    let shape = layers(rt.alloc())?.shape(rt.alloc())?;
    assert_eq!(rt; format!(in rt.alloc(); "{shape:?}")?.as_str(), LAYERS);
    Ok(())
}

#[test]
fn shape_is_made_again(rt: HostRuntime) -> Result<(), Fail> {
    let term = one_field(rt.alloc())?;
    let again = term.shape(rt.alloc())?.make(rt.alloc());
    let text = format!(in rt.alloc(); "Ok({term:?})")?;
    assert_eq!(rt;
        format!(in rt.alloc(); "{again:?}")?.as_str(),
        text.as_str()
    );
    Ok(())
}

#[test]
fn too_deep_to_make(rt: HostRuntime) -> Result<(), Fail> {
    for (count, fault) in [(254, None), (255, Some(TermFault::Deep))] {
        let shape = Shape::Pointer(pointers(rt.alloc(), count)?);
        assert_eq!(rt;
            shape.make(rt.alloc()).err(),
            fault,
            "over {count} pointers"
        );
    }
    Ok(())
}

#[test]
fn place_of_a_parameter(rt: HostRuntime) {
    let params = [(ObjId(50), 0), (ObjId(60), 0), (ObjId(60), 1)];
    assert_eq!(rt; place_of(&params, ObjId(60), 1), Some(2));
    assert_eq!(rt; place_of(&params, ObjId(50), 1), None);
}
