// Underlying types, or that there is none (Go specification, "Underlying types").
ghost use Rattle.std.specs.Prelude.{◌≡◌, IfOk};
ghost use Rattle.go_term.specs.View.{type_of};
ghost use Rattle.go_judge.specs.Types.Forms.{form_as, underlying_over};
ghost use Rattle.go_judge.specs.Types.Own.{KeepsTypes};

use crate::underlying::under;
use go_base::NoMemory;
use go_judge::{Ask, Form, Reached};
use go_term::{TermFault, Ty};
use std::alloc::Global;

/// The underlying type of a type (Go specification, "Underlying types"): Absent where the chain of right sides comes
/// back to a declaration or a type parameter, or leads to a type that is too deep or too large; Unknown with the first
/// header that is lacking. An error is want of memory. What `ask` has stays as it was, also on an error.
pub fn underlying_type<A: Ask>(alloc: Global, ask: &mut A, t: &Ty) -> Result<Form, NoMemory>
    ensures answer { IfOk result (λ form. form_as type_of form
        ≡ underlying_over (A.headers ask.old) (type_of t.now)) }
    ensures same { A.headers ask.new ≡ A.headers ask.old }
    ensures names { A.names ask.new ≡ A.names ask.old }
    ensures outcomes { A.outcomes ask.new ≡ A.outcomes ask.old }
    ensures spent { A.is_spent ask.new ≡ A.is_spent ask.old }
    ensures world { A.world ask.new ≡ A.world ask.old }
    ensures types { KeepsTypes (A.is_type ask.old) (A.is_type ask.new) (A.tree ask.old) (A.tree ask.new) }
{
    match under(alloc, ask, t) {
        Ok(Reached::Is(u)) => Ok(Form::Is(u)),
        Ok(Reached::Cycle) => Ok(Form::Absent),
        Ok(Reached::Unknown(d)) => Ok(Form::Unknown(d)),
        Err(TermFault::Deep) => Ok(Form::Absent),
        Err(TermFault::Large) => Ok(Form::Absent),
        Err(TermFault::NoMemory) => Err(NoMemory),
    }
}
