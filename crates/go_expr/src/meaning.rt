// What identifiers mean (Go specification, "Declarations and scope", "Predeclared identifiers").
ghost use Rattle.std.specs.Prelude.{◌≡◌, IsSome};
ghost use Rattle.go_constructs.specs.Meaning as spec;
ghost use Rattle.go_judge.specs.Naming.{AreThere};

use go_model::{Forms, Meaning};
use go_module::{FIRST_NUMBER, ObjId, ObjKind};
use go_term::Basic;
use go_tree::NodeId;

/// What an identifier means, by the object that it denotes, which must be there.
pub fn meaning<F: Forms>(forms: &F, id: NodeId) -> Meaning
    requires { AreThere (F.names forms.now) }
    ensures { result ≡ spec.meaning_by (F.names forms.now) id.0 }
{
    match forms.resolve(id) {
        Some(d) => object_meaning(forms, id, d),
        None => Meaning::Other,
    }
}

// What an object means that an identifier denotes.
fn object_meaning<F: Forms>(forms: &F, id: NodeId, d: ObjId) -> Meaning
    requires { IsSome ((F.names forms.now).objects d.0) }
    ensures { result ≡ spec.object_meaning (F.names forms.now).objects ((F.names forms.now).iota id.0) d }
{
    if d.0 < FIRST_NUMBER {
        predeclared_meaning(forms.iota_of(id), d)
    } else {
        kind_meaning(d, forms.object(d).kind)
    }
}

// What a universe name means, of iota by the number of the constant spec around it: the types and the constants are
// listed in the order of `PREDECLARED` of go_module.
fn predeclared_meaning(iota: Option<usize>, d: ObjId) -> Meaning
    ensures { result ≡ spec.predeclared_meaning iota d }
{
    let meanings = [
        Meaning::AnyType(d),
        Meaning::BasicType(d, Basic::Bool),
        Meaning::BasicType(d, Basic::Uint8),
        Meaning::Predeclared,
        Meaning::Predeclared,
        Meaning::Predeclared,
        Meaning::BasicType(d, Basic::Error),
        Meaning::BasicType(d, Basic::Float32),
        Meaning::BasicType(d, Basic::Float64),
        Meaning::BasicType(d, Basic::Int),
        Meaning::BasicType(d, Basic::Int8),
        Meaning::BasicType(d, Basic::Int16),
        Meaning::BasicType(d, Basic::Int32),
        Meaning::BasicType(d, Basic::Int64),
        Meaning::BasicType(d, Basic::Int32),
        Meaning::BasicType(d, Basic::String),
        Meaning::BasicType(d, Basic::Uint),
        Meaning::BasicType(d, Basic::Uint8),
        Meaning::BasicType(d, Basic::Uint16),
        Meaning::BasicType(d, Basic::Uint32),
        Meaning::BasicType(d, Basic::Uint64),
        Meaning::BasicType(d, Basic::Uintptr),
        Meaning::Truth(d, true),
        Meaning::Truth(d, false),
        Meaning::Iota(d, iota),
    ];
    match meanings.get(d.0) {
        Some(meaning) => *meaning,
        None => Meaning::Predeclared,
    }
}

// What an object of that kind means that is no universe name: a constant, a variable and an alias are asked for their
// headers.
fn kind_meaning(d: ObjId, kind: ObjKind) -> Meaning
    ensures { result ≡ spec.kind_meaning d kind }
{
    match kind {
        ObjKind::Const => Meaning::Declared(d),
        ObjKind::Var => Meaning::Declared(d),
        ObjKind::Alias => Meaning::Declared(d),
        ObjKind::Defined => Meaning::DefinedType(d),
        ObjKind::Package => Meaning::Other,
        ObjKind::Builtin => Meaning::Other,
        ObjKind::Nil => Meaning::Other,
    }
}
