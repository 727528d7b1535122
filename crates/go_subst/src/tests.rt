// Substitution and underlying types where memory is ample: what is made is compared by its debug text.
use crate::{subst, under};
use go_base::{NoMemory, ObjId};
use go_judge::{Header, Headers, TypeParam};
use go_term::{Basic, Term, TermFault};
use std::alloc::Global;
use std::test::Fail;

// A declaration that has the type parameters P and Q.
const DECLARED: ObjId = ObjId(50);

// 300 values: this many of type P, and the others of type `int`.
fn values(alloc: Global, params: usize) -> Result<Term, NoMemory> {
    let mut all = Vec::new(alloc);
    for i in 0..300 {
        all.push(if i < params {
            Term::Param(DECLARED, 0)
        } else {
            Term::Basic(Basic::Int)
        })?;
    }
    Ok(Term::Tuple(all))
}

#[test]
fn arguments_are_put_in_at_once(rt: HostRuntime) -> Result<(), Fail> {
    let p = Box::new(rt.alloc(), Term::Param(DECLARED, 0))?;
    let q = Box::new(rt.alloc(), Term::Param(DECLARED, 1))?;
    let to = [Term::Param(DECLARED, 1), Term::Basic(Basic::Int)];
    let made = subst(
        rt.alloc(),
        &Term::Map(p, q),
        &[(DECLARED, 0), (DECLARED, 1)],
        &to,
    );
    assert_eq!(rt;
        format!(in rt.alloc(); "{made:?}")?.as_str(),
        "Ok(Map(Param(ObjId(50), 1), Basic(Int)))"
    );
    Ok(())
}

#[test]
fn parameter_of_another_declaration_stays(rt: HostRuntime) -> Result<(), Fail> {
    let other = Term::Param(ObjId(60), 0);
    let made = subst(
        rt.alloc(),
        &other,
        &[(DECLARED, 0)],
        &[Term::Basic(Basic::Int)],
    );
    assert_eq!(rt;
        format!(in rt.alloc(); "{made:?}")?.as_str(),
        "Ok(Param(ObjId(60), 0))"
    );
    Ok(())
}

#[test]
fn large_for_many_parameters(rt: HostRuntime) -> Result<(), Fail> {
    let to = [values(rt.alloc(), 0)?];
    for (params, fault) in [(210, None), (300, Some(TermFault::Large))] {
        let t = values(rt.alloc(), params)?;
        let made = subst(rt.alloc(), &t, &[(DECLARED, 0)], &to);
        assert_eq!(rt; made.err(), fault, "with {params} parameters");
    }
    Ok(())
}

// What is told of a type definition with these type parameters and this right side.
fn defined(alloc: Global, params: Vec<TypeParam>, right: Term) -> Header {
    Header::Defined(params, right, Vec::new(alloc))
}

// The type without arguments that a declaration defines.
fn named(alloc: Global, d: usize) -> Term {
    Term::Named(ObjId(d), Vec::new(alloc))
}

// One type parameter, with this constraint.
fn one_param(alloc: Global, bound: Term) -> Result<Vec<TypeParam>, NoMemory> {
    let mut params = Vec::new(alloc);
    params.push(TypeParam {
        object: ObjId(60),
        bound,
    })?;
    Ok(params)
}

#[test]
fn chain_of_two_definitions_leads_to_a_struct(rt: HostRuntime) -> Result<(), Fail> {
    let alloc = rt.alloc();
    let mut map = Headers::new(alloc);
    let fields = Term::Struct(Vec::new(alloc));
    map.add(ObjId(50), defined(alloc, Vec::new(alloc), named(alloc, 51)))?;
    map.add(ObjId(51), defined(alloc, Vec::new(alloc), fields))?;
    let reached = under(alloc, &mut map, &named(alloc, 50));
    assert_eq!(rt;
        format!(in alloc; "{reached:?}")?.as_str(),
        "Ok(Is(Struct([])))"
    );
    Ok(())
}

#[test]
fn two_definitions_of_each_other_are_a_cycle(rt: HostRuntime) -> Result<(), Fail> {
    let alloc = rt.alloc();
    let mut map = Headers::new(alloc);
    map.add(ObjId(50), defined(alloc, Vec::new(alloc), named(alloc, 51)))?;
    map.add(ObjId(51), defined(alloc, Vec::new(alloc), named(alloc, 50)))?;
    let reached = under(alloc, &mut map, &named(alloc, 50));
    assert_eq!(rt; format!(in alloc; "{reached:?}")?.as_str(), "Ok(Cycle)");
    Ok(())
}

#[test]
fn first_header_that_is_lacking_is_told(rt: HostRuntime) -> Result<(), Fail> {
    let alloc = rt.alloc();
    let mut map = Headers::new(alloc);
    map.add(ObjId(50), defined(alloc, Vec::new(alloc), named(alloc, 51)))?;
    let reached = under(alloc, &mut map, &named(alloc, 50));
    assert_eq!(rt;
        format!(in alloc; "{reached:?}")?.as_str(),
        "Ok(Unknown(ObjId(51)))"
    );
    Ok(())
}

#[test]
fn argument_stands_in_the_right_side(rt: HostRuntime) -> Result<(), Fail> {
    let alloc = rt.alloc();
    let mut map = Headers::new(alloc);
    let element = Box::new(alloc, Term::Param(DECLARED, 0))?;
    let right = Term::Slice(element);
    let params = one_param(alloc, Term::Interface(Vec::new(alloc)))?;
    map.add(DECLARED, defined(alloc, params, right))?;
    let of_int = Term::Named(DECLARED, vec![in alloc; Term::Basic(Basic::Int)]?);
    let reached = under(alloc, &mut map, &of_int);
    assert_eq!(rt;
        format!(in alloc; "{reached:?}")?.as_str(),
        "Ok(Is(Slice(Basic(Int))))"
    );
    let reached = under(alloc, &mut map, &Term::Param(DECLARED, 0));
    assert_eq!(rt;
        format!(in alloc; "{reached:?}")?.as_str(),
        "Ok(Is(Interface([])))"
    );
    Ok(())
}

// type G[P C] interface{}; type C G[int]
#[test]
fn constraint_may_name_an_instance_of_its_own_declaration(rt: HostRuntime) -> Result<(), Fail> {
    let alloc = rt.alloc();
    let mut map = Headers::new(alloc);
    let params = one_param(alloc, named(alloc, 51))?;
    map.add(
        DECLARED,
        defined(alloc, params, Term::Interface(Vec::new(alloc))),
    )?;
    let of_int = Term::Named(DECLARED, vec![in alloc; Term::Basic(Basic::Int)]?);
    map.add(ObjId(51), defined(alloc, Vec::new(alloc), of_int))?;
    let reached = under(alloc, &mut map, &Term::Param(DECLARED, 0));
    assert_eq!(rt;
        format!(in alloc; "{reached:?}")?.as_str(),
        "Ok(Is(Interface([])))"
    );
    Ok(())
}

// type G[P P] interface{}
#[test]
fn parameter_that_is_its_own_constraint_is_a_cycle(rt: HostRuntime) -> Result<(), Fail> {
    let alloc = rt.alloc();
    let mut map = Headers::new(alloc);
    let params = one_param(alloc, Term::Param(DECLARED, 0))?;
    map.add(
        DECLARED,
        defined(alloc, params, Term::Interface(Vec::new(alloc))),
    )?;
    let reached = under(alloc, &mut map, &Term::Param(DECLARED, 0));
    assert_eq!(rt; format!(in alloc; "{reached:?}")?.as_str(), "Ok(Cycle)");
    Ok(())
}

// type E error
#[test]
fn error_is_an_interface(rt: HostRuntime) -> Result<(), Fail> {
    let alloc = rt.alloc();
    let mut map = Headers::new(alloc);
    map.add(
        ObjId(50),
        defined(alloc, Vec::new(alloc), Term::Basic(Basic::Error)),
    )?;
    for t in [Term::Basic(Basic::Error), named(alloc, 50)] {
        let reached = under(alloc, &mut map, &t);
        assert_eq!(rt;
            format!(in alloc; "{reached:?}")?.as_str(),
            "Ok(Is(Interface([Method(ObjId(44), Name { text: \"Error\" }, Name { text: \"\" }, FuncTerm { params: [], variadic: false, results: [Basic(String)] })])))",
            "for {t:?}"
        );
    }
    Ok(())
}
