// Type sets of one method or one term (Go specification, "Interface types").
ghost use Rattle.std.specs.Prelude.{◌≡◌, ◌∷◌, [], true, false, IfOk, codes, map};
ghost use Rattle.std.specs.List.{AllByRecursion};
ghost use Rattle.go_term.specs.Shapes.{func_parts};
ghost use Rattle.go_term.specs.Types.{basic_type};
ghost use Rattle.go_term.specs.declared.basic.Basic.TheVariants as B;
ghost use Rattle.go_judge.specs.Types.Own.{AreOwnFunc, Keeps};
ghost use Rattle.go_judge.specs.Types.TypeSets.{all_types, error_set, home_of, method_set, plain, plain_all, term_set};
ghost use Rattle.go_judge.specs.Quests.{Decided};
ghost use Rattle.go_same.specs.Sets.{IsOwnFound, IsOwnSet, found_as, set_view};

use crate::set::{FoundSet, Method, TypeSet, UnionPart};
use go_base::{Name, NoMemory};
use go_judge::Forms;
use go_names::is_exported;
use go_term::{Basic, FuncShape, Shape, Ty};
use std::alloc::Global;

/// The set of all types.
pub(crate) fn every_type(alloc: Global) -> TypeSet
    ensures methods { result.methods.items ≡ [] }
    ensures unions { result.unions.items ≡ [] }
    ensures comparable { result.comparable ≡ false }
{
    TypeSet {
        methods: Vec::new(alloc),
        unions: Vec::new(alloc),
        comparable: false,
    }
}

/// The set of all comparable types.
pub(crate) fn every_comparable(alloc: Global) -> TypeSet
    ensures methods { result.methods.items ≡ [] }
    ensures unions { result.unions.items ≡ [] }
    ensures comparable { result.comparable ≡ true }
{
    TypeSet {
        methods: Vec::new(alloc),
        unions: Vec::new(alloc),
        comparable: true,
    }
}

/// The set of one term. An error is want of memory.
pub(crate) fn one_term(alloc: Global, tilde: bool, ty: Ty) -> Result<TypeSet, NoMemory>
    ensures methods { IfOk result (λ s. s.methods.items ≡ []) }
    ensures unions { IfOk result (λ s. map (λ u. u.items) s.unions.items
        ≡ (record { tilde = tilde; ty = ty; opened = 0 } ∷ []) ∷ []) }
    ensures comparable { IfOk result (λ s. s.comparable ≡ false) }
{
    let term = vec![in alloc;
        UnionPart {
            tilde,
            ty,
            opened: 0
        },
    ]?;
    Ok(TypeSet {
        methods: Vec::new(alloc),
        unions: vec![in alloc; term]?,
        comparable: false,
    })
}

// The path of a package, where a name is its own. An error is want of memory.
fn path_of(alloc: Global, name: &Name, path: Name) -> Result<Name, NoMemory>
    ensures { IfOk result (λ home. home ≡ home_of name.now path) }
{
    if is_exported(name) {
        Ok(Name::new(String::from_str(alloc, "")?))
    } else {
        Ok(path)
    }
}

/// The set of the types that have one method. An error is want of memory.
pub(crate) fn one_method(
    alloc: Global,
    name: Name,
    path: Name,
    signature: FuncShape,
) -> Result<TypeSet, NoMemory>
    ensures methods { IfOk result (λ s. s.methods.items
        ≡ record { name = name; home = home_of name path; signature = signature; opened = 0 } ∷ []) }
    ensures unions { IfOk result (λ s. s.unions.items ≡ []) }
    ensures comparable { IfOk result (λ s. s.comparable ≡ false) }
{
    let home = path_of(alloc, &name, path)?;
    Ok(TypeSet {
        methods: vec![in alloc;
            Method {
                name,
                home,
                signature,
                opened: 0
            },
        ]?,
        unions: Vec::new(alloc),
        comparable: false,
    })
}

fn text_type<J: Forms>(alloc: Global, judge: &mut J) -> Result<Ty, NoMemory>
    ensures same { IfOk result (λ t. J.tree judge.new t ≡ basic_type B.String) }
    ensures own { IfOk result (J.is_type judge.new) }
    ensures keeps { Keeps (J.headers judge.old) (J.headers judge.new) (J.names judge.old) (J.names judge.new)
        (J.outcomes judge.old) (J.outcomes judge.new) (J.is_spent judge.old) (J.is_spent judge.new)
        (J.world judge.old) (J.world judge.new) (J.is_type judge.old) (J.is_type judge.new)
        (J.tree judge.old) (J.tree judge.new) }
{
    match judge.make(alloc, Shape::Basic(Basic::String)) {
        Ok(t) => Ok(t),
        Err(_) => Err(NoMemory),
    }
}

// The method `Error() string`, with this type of its result.
fn error_method(alloc: Global, text: Ty) -> Result<TypeSet, NoMemory>
    ensures methods { IfOk result (λ s. (map (λ m. m.name) s.methods.items ≡ codes "Error" ∷ [])
        × (map (λ m. m.home) s.methods.items ≡ [] ∷ [])
        × (map (λ m. m.opened) s.methods.items ≡ 0 ∷ [])
        × (map (λ m. m.signature.variadic) s.methods.items ≡ false ∷ [])
        × (map (λ m. m.signature.params.items) s.methods.items ≡ [] ∷ [])
        × (map (λ m. m.signature.results.items) s.methods.items ≡ (text ∷ []) ∷ [])) }
    ensures unions { IfOk result (λ s. s.unions.items ≡ []) }
    ensures comparable { IfOk result (λ s. s.comparable ≡ false) }
{
    let signature = FuncShape {
        params: Vec::new(alloc),
        variadic: false,
        results: vec![in alloc; text]?,
    };
    let name = Name::new(String::from_str(alloc, "Error")?);
    let home = Name::new(String::from_str(alloc, "")?);
    Ok(TypeSet {
        methods: vec![in alloc;
            Method {
                name,
                home,
                signature,
                opened: 0
            },
        ]?,
        unions: Vec::new(alloc),
        comparable: false,
    })
}

/// The set of `error`.
pub(crate) fn error_types<J: Forms>(alloc: Global, judge: &mut J) -> Result<TypeSet, NoMemory>
    ensures made { IfOk result (λ s. set_view (J.tree judge.new) s ≡ error_set) }
    ensures own { IfOk result (IsOwnSet (J.is_type judge.new)) }
    ensures keeps { Keeps (J.headers judge.old) (J.headers judge.new) (J.names judge.old) (J.names judge.new)
        (J.outcomes judge.old) (J.outcomes judge.new) (J.is_spent judge.old) (J.is_spent judge.new)
        (J.world judge.old) (J.world judge.new) (J.is_type judge.old) (J.is_type judge.new)
        (J.tree judge.old) (J.tree judge.new) }
{
    let text = text_type(alloc, judge)?;
    error_method(alloc, text)
}
