// Underlying types (Go specification, "Underlying types").
ghost use Rattle.std.specs.Prelude.{◌≡◌, ℕ, suc, List, IfErr, IfOk};
ghost use Rattle.go_term.specs.View.{type_of};
ghost use Rattle.go_judge.specs.Records.{header_as};
ghost use Rattle.go_judge.specs.Headers.{Headers};
ghost use Rattle.go_judge.specs.Types.Forms.{IsReachCause, reached_as};
ghost use Rattle.go_judge.specs.Types.Own.{KeepsTypes};
ghost use Rattle.go_judge.specs.Types.UnderlyingType as spec;
ghost use Rattle.go_judge.specs.Quests.{run};
ghost use Rattle.go_subst.specs.Chains as chain;
ghost use Rattle.go_subst.specs.Chains.{path_of};

use crate::literal::literal_of;
use crate::path::Path;
use crate::referred::{origin_of, referred};
use go_base::ObjId;
use go_judge::{Ask, Header, Reached};
use go_term::{TermFault, Ty};
use std::alloc::Global;

// What a turn of a chain leaves: its end, or the type from which it goes on.
#[derive(Drop)]
enum Turn {
    End(Reached),
    On(Ty),
}

/// Where the chain of right sides from a type leads (Go specification, "Underlying types"): to its underlying type;
/// Cycle where it comes back to a declaration or a type parameter; Unknown with the first header that is lacking.
/// Besides want of memory an error is Deep where a type on the chain is deeper than 256, else Large where one has more
/// than 65,536 nodes. What `ask` has stays as it was, also on an error.
pub fn under<A: Ask>(alloc: Global, ask: &mut A, t: &Ty) -> Result<Reached, TermFault>
    ensures answer { IfOk result (λ reached. reached_as type_of reached
        ≡ run (A.headers ask.old) (spec.under (type_of t.now))) }
    ensures cause { IfErr result (λ fault. IsReachCause fault (A.headers ask.old) (type_of t.now)) }
    ensures same { A.headers ask.new ≡ A.headers ask.old }
    ensures names { A.names ask.new ≡ A.names ask.old }
    ensures outcomes { A.outcomes ask.new ≡ A.outcomes ask.old }
    ensures spent { A.is_spent ask.new ≡ A.is_spent ask.old }
    ensures world { A.world ask.new ≡ A.world ask.old }
    ensures types { KeepsTypes (A.is_type ask.old) (A.is_type ask.new) (A.tree ask.old) (A.tree ask.new) }
{
    let mut path = Path::new(alloc);
    let mut here = t.clone()?;
    for _turns in 0..u64::MAX {
        match next_turn(alloc, ask, &mut path, here)? {
            Turn::End(reached) => return Ok(reached),
            Turn::On(next) => here = next,
        }
    }
    Err(TermFault::NoMemory)
}

// A turn of a chain that has come to this type through the named types of the path.
fn next_turn<A: Ask>(
    alloc: Global,
    ask: &mut A,
    path: &mut Path,
    here: Ty,
) -> Result<Turn, TermFault>
    ensures turn { IfOk result (λ turn. (n : ℕ)
        → run (A.headers ask.old) (spec.under_from (suc n) (path_of path.old) (type_of here))
        ≡ chain.turn_as (A.headers ask.old) n (path_of path.new) turn) }
    ensures cause { IfErr result (λ fault. chain.IsTurnCause fault (A.headers ask.old)
        (λ n. spec.under_from (suc n) (path_of path.old) (type_of here))) }
    ensures same { A.headers ask.new ≡ A.headers ask.old }
    ensures names { A.names ask.new ≡ A.names ask.old }
    ensures outcomes { A.outcomes ask.new ≡ A.outcomes ask.old }
    ensures spent { A.is_spent ask.new ≡ A.is_spent ask.old }
    ensures world { A.world ask.new ≡ A.world ask.old }
    ensures types { KeepsTypes (A.is_type ask.old) (A.is_type ask.new) (A.tree ask.old) (A.tree ask.new) }
{
    match origin_of(&here) {
        None => Ok(Turn::End(Reached::Is(literal_of(alloc, here)?))),
        Some(origin) if path.add(origin)? => asked(alloc, ask, origin.declaration, here),
        Some(_) => Ok(Turn::End(Reached::Cycle)),
    }
}

// The turn of a chain that comes to a named type for the first time, by the header of its declaration.
fn asked<A: Ask>(alloc: Global, ask: &mut A, d: ObjId, here: Ty) -> Result<Turn, TermFault>
    ensures turn { IfOk result (λ turn. (n : ℕ) (path : List spec.Origin)
        → run (A.headers ask.old) (chain.asked_from n path (type_of here) d)
        ≡ chain.turn_as (A.headers ask.old) n path turn) }
    ensures cause { IfErr result (λ fault. (path : List spec.Origin) → chain.IsTurnCause fault (A.headers ask.old)
        (λ n. chain.asked_from n path (type_of here) d)) }
    ensures same { A.headers ask.new ≡ A.headers ask.old }
    ensures names { A.names ask.new ≡ A.names ask.old }
    ensures outcomes { A.outcomes ask.new ≡ A.outcomes ask.old }
    ensures spent { A.is_spent ask.new ≡ A.is_spent ask.old }
    ensures world { A.world ask.new ≡ A.world ask.old }
    ensures types { KeepsTypes (A.is_type ask.old) (A.is_type ask.new) (A.tree ask.old) (A.tree ask.new) }
{
    match ask.ask(d)? {
        Some(header) => by_header(alloc, &header, here),
        None => Ok(Turn::End(Reached::Unknown(d))),
    }
}

// The turn of a chain by the header of the declaration that its type names.
fn by_header(alloc: Global, header: &Header, here: Ty) -> Result<Turn, TermFault>
    ensures turn { IfOk result (λ turn. (headers : Headers) (n : ℕ) (path : List spec.Origin)
        → run headers (spec.on_with (spec.under_from n path) (type_of here)
        (chain.referred (type_of here) (header_as type_of header.now)))
        ≡ chain.turn_as headers n path turn) }
    ensures cause { IfErr result (λ fault. chain.IsReferredCause fault
        (chain.referred (type_of here) (header_as type_of header.now))) }
{
    Ok(match referred(alloc, &here, header)? {
        Some(next) => Turn::On(next),
        None => Turn::End(Reached::Is(here)),
    })
}
