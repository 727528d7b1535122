// Methods by their names (Go specification, "Uniqueness of identifiers", "Interface types").
ghost use Rattle.std.specs.Prelude.{◌≡◌, ◌+◌, ◌<◌, IfOk, IfSome, OnOk, Some, length, slice_get};
ghost use Rattle.go_judge.specs.Types.TypeSets.{home_of};
ghost use Rattle.go_obligations.specs.Firsts.{AreFirsts, first_by, is_declared_before, key_of, same_key};
ghost use Rattle.go_obligations.specs.declared.methods.Method.{Method};

use crate::methods::Method;
use go_base::{Name, NoMemory};
use go_names::is_exported;
use indexmap::IndexMap;
use std::alloc::Global;

/// For each name of a method, with the path of the package where it is not exported, the place of one of that name
/// before which none is declared.
pub(crate) type Firsts = IndexMap<(Name, Name), usize>;

/// The firsts of all names of these methods. An error is want of memory.
pub(crate) fn firsts_of(alloc: Global, methods: &[Method]) -> Result<Firsts, NoMemory>
    ensures { IfOk result (λ firsts. AreFirsts methods.now (length methods.now) firsts.entries) }
{
    let mut firsts = IndexMap::new(alloc);
    for place in 0..methods.len() {
        add_method(alloc, methods, place, &mut firsts)?;
    }
    Ok(firsts)
}

// Adds the method at a place to those before it.
fn add_method(
    alloc: Global,
    methods: &[Method],
    place: usize,
    firsts: &mut Firsts,
) -> Result<(), NoMemory>
    requires within { place < length methods.now }
    requires before { AreFirsts methods.now place firsts.old.entries }
    ensures { OnOk result (AreFirsts methods.now (place + 1) firsts.new.entries) }
{
    let key = key_of(alloc, &methods[place])?;
    if is_declared_before(methods, place, place_by(firsts, &key)) {
        firsts.insert(key, place)?;
    }
    Ok(())
}

// The place that a name has, if any.
fn place_by(firsts: &Firsts, key: &(Name, Name)) -> Option<usize>
    ensures { result ≡ first_by firsts.now.entries key.now }
{
    firsts.get(key).copied()
}

// Whether the method at a place is declared before the first so far, if there is one.
fn is_declared_before(methods: &[Method], place: usize, first: Option<usize>) -> bool
    requires within { place < length methods.now }
    requires first { IfSome first (λ i. i < length methods.now) }
    ensures { (m : Method) → slice_get methods.now place ≡ Some m → result ≡ is_declared_before methods.now m first }
{
    match first {
        Some(first) => methods[place].object.0 < methods[first].object.0,
        None => true,
    }
}

/// The place of the first of the name that the method at a place has. An error is want of memory.
pub(crate) fn first_of(
    alloc: Global,
    methods: &[Method],
    firsts: &Firsts,
    place: usize,
) -> Result<usize, NoMemory>
    requires within { place < length methods.now }
    requires firsts { AreFirsts methods.now (length methods.now) firsts.now.entries }
    ensures within { IfOk result (λ first. first < length methods.now) }
    ensures found { IfOk result (λ first. (m : Method) → slice_get methods.now place ≡ Some m
        → first_by firsts.now.entries (key_of m) ≡ Some first) }
{
    let key = key_of(alloc, &methods[place])?;
    Ok(place_by(firsts, &key).unwrap_or(place))
}

// The name of a method, and the path of its package where the name is not exported.
fn key_of(alloc: Global, method: &Method) -> Result<(Name, Name), NoMemory>
    ensures { IfOk result (λ key. key ≡ key_of method.now) }
{
    let name = method.name.clone()?;
    let home = home_of(alloc, method)?;
    Ok((name, home))
}

// The path of the package of a method, where the name is not exported.
fn home_of(alloc: Global, method: &Method) -> Result<Name, NoMemory>
    ensures { IfOk result (λ home. home ≡ home_of method.now.name method.now.«package») }
{
    if is_exported(&method.name) {
        Ok(Name::new(String::from_str(alloc, "")?))
    } else {
        Ok(method.package.clone()?)
    }
}

/// Whether two methods have one name, and one package where it is not exported.
pub(crate) fn are_named_alike(a: &Method, b: &Method) -> bool
    ensures { result ≡ same_key (key_of a.now) (key_of b.now) }
{
    a.name == b.name && home_bytes(a) == home_bytes(b)
}

// The bytes of the path of the package of a method, where the name is not exported.
fn home_bytes(method: &Method) -> &[u8]
    ensures { result.now ≡ home_of method.now.name method.now.«package» }
{
    if is_exported(&method.name) {
        &[]
    } else {
        method.package.as_bytes()
    }
}
