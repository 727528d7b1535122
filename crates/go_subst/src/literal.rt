// The type at which a chain of types ends (Go specification, "Underlying types", "Errors").
ghost use Rattle.std.specs.Prelude.{◌≡◌, ◌∷◌, [], false, IfOk};
ghost use Rattle.go_term.specs.View.{type_of};
ghost use Rattle.go_judge.specs.Types.UnderlyingType as spec;
ghost use Rattle.go_subst.specs.Chains as chain;

use go_base::{Name, NoMemory, ObjId};
use go_term::{Basic, ElemTerm, FuncTerm, Term, Ty};
use std::alloc::Global;

// Functions of no parameters with a string as their result.
fn text_function(alloc: Global) -> Result<FuncTerm, NoMemory>
    ensures variadic { IfOk result (λ f. f.variadic ≡ false) }
    ensures params { IfOk result (λ f. f.params.items ≡ []) }
    ensures results { IfOk result (λ f. f.results.items ≡ Term.Basic Basic.String ∷ []) }
{
    Ok(FuncTerm {
        params: Vec::new(alloc),
        variadic: false,
        results: vec![in alloc; Term::Basic(Basic::String)]?,
    })
}

// The interface that `error` is.
fn error_interface(alloc: Global) -> Result<Ty, NoMemory>
    ensures { IfOk result (λ u. type_of u ≡ spec.error_interface) }
{
    let name = Name::new(String::from_str(alloc, "Error")?);
    let package = Name::new(String::from_str(alloc, "")?);
    let method = ElemTerm::Method(ObjId(44), name, package, text_function(alloc)?);
    Ok(Term::Interface(vec![in alloc; method]?))
}

/// The type itself, and for `error` the interface that it is. An error is want of memory.
pub(crate) fn literal_of(alloc: Global, t: Ty) -> Result<Ty, NoMemory>
    ensures { IfOk result (λ u. type_of u ≡ chain.literal (type_of t)) }
{
    match t {
        Term::Basic(Basic::Error) => error_interface(alloc),
        other => Ok(other),
    }
}
