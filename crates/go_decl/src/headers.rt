// The headers of declarations, found in rounds, told to rules, and kept (Go specification, "Constant declarations").
ghost use Rattle.std.specs.Prelude.{◌≡◌, ◌<◌, ◌↔◌, ◌∷◌, [], ℕ, None, Some, false, is_some, length, IfOk, OnErr, OnOk, IsTrue};
ghost use Rattle.std.specs.Map.{lookup};
ghost use Rattle.go_base.specs.declared.ids.ObjId.{ObjId as Object};
ghost use Rattle.go_module.specs.Scopes.{same_object};
ghost use Rattle.go_judge.specs.Records.{HeaderData, header_as};
ghost use Rattle.go_judge.specs.Types.Own.{IsOwnHeader, KeepsTypes};
ghost use Rattle.go_values.specs.Headers.{Known};
ghost use Rattle.go_judge.specs.Headers.{headers_of};
ghost use Rattle.go_judge.specs.HeadersView.{AreOwnHeaders, header_in, headers_as};
ghost use Rattle.go_judge.specs.Naming.{AreThere};
ghost use Rattle.go_constructs.specs.Operators.Honest.{AreHonest, IsHonestHeader};
ghost use Rattle.go_decl.specs.Places.{ArePlaces};
ghost use Rattle.go_decl.specs.Rounds.{IsBacked, IsSettled, IsToldOrNot, open_in};
ghost use Rattle.go_names.specs.Views.{declarations_view};

use crate::header::header_over;
use crate::places::Places;
use go_base::{NoMemory, Steps};
use go_model::{Header, Headers, Rules};
use go_module::ObjId;
use go_names::Declaration;
use std::alloc::Global;
use std::sync::ledger::Ledger;

/// Goes round until a round adds no header. The rules and `known` have the same headers, whose types are the rules' own.
/// It asks that each object that is denoted is there, and that each constant that is known is represented by its type,
/// which stays so. An error is want of memory; some headers may be known then, and no others.
pub fn add_rounds<R: Rules, L: Ledger>(
    alloc: Global,
    rules: &mut R,
    known: &mut Headers,
    places: &Places,
    declarations: &[Declaration],
    steps: &mut Steps<L>,
) -> Result<(), NoMemory>
    requires there { AreThere (R.names rules.old) }
    requires honest { AreHonest (R.headers rules.old) }
    requires same { headers_as (R.tree rules.old) known.old ≡ R.headers rules.old }
    requires own { AreOwnHeaders (R.is_type rules.old) known.old }
    requires places { ArePlaces (declarations_view declarations.now) places.now.entries }
    ensures exact { OnOk result ((d : ℕ) (h : HeaderData) → (R.headers rules.new d ≡ Some h)
        ↔ Known (R.headers rules.old) (R.names rules.old) (declarations_view declarations.now) d h) }
    ensures backed { IsBacked (R.headers rules.old) (R.names rules.old)
        (declarations_view declarations.now) (R.headers rules.new) }
    ensures known { OnOk result (headers_as (R.tree rules.new) known.new ≡ R.headers rules.new) }
    ensures own { AreOwnHeaders (R.is_type rules.new) known.new }
    ensures kept { OnErr result (IsBacked (R.headers rules.old) (R.names rules.old)
        (declarations_view declarations.now) (headers_as (R.tree rules.new) known.new)) }
    ensures honest { AreHonest (R.headers rules.new) }
    ensures names { R.names rules.new ≡ R.names rules.old }
    ensures world { R.world rules.new ≡ R.world rules.old }
    ensures types { KeepsTypes (R.is_type rules.old) (R.is_type rules.new) (R.tree rules.old) (R.tree rules.new) }
{
    while add_round(alloc, rules, known, places, declarations, steps)? {}
    Ok(())
}

// Tries each declaration without a header, and says whether it added one.
fn add_round<R: Rules, L: Ledger>(
    alloc: Global,
    rules: &mut R,
    known: &mut Headers,
    places: &Places,
    declarations: &[Declaration],
    steps: &mut Steps<L>,
) -> Result<bool, NoMemory>
    requires there { AreThere (R.names rules.old) }
    requires honest { AreHonest (R.headers rules.old) }
    requires same { headers_as (R.tree rules.old) known.old ≡ R.headers rules.old }
    requires own { AreOwnHeaders (R.is_type rules.old) known.old }
    requires places { ArePlaces (declarations_view declarations.now) places.now.entries }
    ensures backed { IsBacked (R.headers rules.old) (R.names rules.old)
        (declarations_view declarations.now) (R.headers rules.new) }
    ensures fewer { IfOk result (λ added. IsTrue added
        → open_in (R.headers rules.new) (declarations_view declarations.now)
        < open_in (R.headers rules.old) (declarations_view declarations.now)) }
    ensures settled { IfOk result (λ added. added ≡ false → (d : ℕ) → IsSettled (R.headers rules.new)
        (R.names rules.old) (declarations_view declarations.now) (R.headers rules.new) d) }
    ensures known { OnOk result (headers_as (R.tree rules.new) known.new ≡ R.headers rules.new) }
    ensures own { AreOwnHeaders (R.is_type rules.new) known.new }
    ensures kept { OnErr result (IsBacked (R.headers rules.old) (R.names rules.old)
        (declarations_view declarations.now) (headers_as (R.tree rules.new) known.new)) }
    ensures honest { AreHonest (R.headers rules.new) }
    ensures names { R.names rules.new ≡ R.names rules.old }
    ensures world { R.world rules.new ≡ R.world rules.old }
    ensures types { KeepsTypes (R.is_type rules.old) (R.is_type rules.new) (R.tree rules.old) (R.tree rules.new) }
{
    let mut added = false;
    for place in 0..declarations.len() {
        if add_one(alloc, rules, known, places, declarations, place, steps)? {
            added = true;
        }
    }
    Ok(added)
}

// Tries one declaration, and says whether it added its header.
fn add_one<R: Rules, L: Ledger>(
    alloc: Global,
    rules: &mut R,
    known: &mut Headers,
    places: &Places,
    declarations: &[Declaration],
    place: usize,
    steps: &mut Steps<L>,
) -> Result<bool, NoMemory>
    requires there { AreThere (R.names rules.old) }
    requires honest { AreHonest (R.headers rules.old) }
    requires same { headers_as (R.tree rules.old) known.old ≡ R.headers rules.old }
    requires own { AreOwnHeaders (R.is_type rules.old) known.old }
    requires places { ArePlaces (declarations_view declarations.now) places.now.entries }
    requires within { place < length declarations.now }
    ensures backed { IsBacked (R.headers rules.old) (R.names rules.old)
        (declarations_view declarations.now) (R.headers rules.new) }
    ensures fewer { IfOk result (λ added. IsTrue added
        → open_in (R.headers rules.new) (declarations_view declarations.now)
        < open_in (R.headers rules.old) (declarations_view declarations.now)) }
    ensures same { IfOk result (λ added. added ≡ false → R.headers rules.new ≡ R.headers rules.old) }
    ensures settled { IfOk result (λ added. added ≡ false → (d : Object)
        → lookup (same_object d) places.now.entries ≡ Some place → IsSettled (R.headers rules.new)
        (R.names rules.old) (declarations_view declarations.now) (R.headers rules.new) d.0) }
    ensures known { OnOk result (headers_as (R.tree rules.new) known.new ≡ R.headers rules.new) }
    ensures own { AreOwnHeaders (R.is_type rules.new) known.new }
    ensures kept { OnErr result (IsBacked (R.headers rules.old) (R.names rules.old)
        (declarations_view declarations.now) (headers_as (R.tree rules.new) known.new)) }
    ensures honest { AreHonest (R.headers rules.new) }
    ensures names { R.names rules.new ≡ R.names rules.old }
    ensures world { R.world rules.new ≡ R.world rules.old }
    ensures types { KeepsTypes (R.is_type rules.old) (R.is_type rules.new) (R.tree rules.old) (R.tree rules.new) }
{
    let declaration = &declarations[place];
    let number = declaration.number();
    if is_known(known, number) {
        return Ok(false);
    }
    if !stands_at(places, number, place) {
        return Ok(false);
    }
    steps.tick();
    match header_over(alloc, rules, declaration)? {
        Some(header) => {
            tell(rules, known, number, header)?;
            Ok(true)
        }
        None => Ok(false),
    }
}

// Whether a declaration has a header.
fn is_known(known: &Headers, d: ObjId) -> bool
    ensures { result ≡ is_some (header_in known.now d.0) }
{
    known.get(d).is_some()
}

// Tells the rules a header with types of their own, and keeps it. Each constant that is known is represented by its type
// as before, where this one is.
fn tell<R: Rules>(
    rules: &mut R,
    known: &mut Headers,
    d: ObjId,
    header: Header,
) -> Result<(), NoMemory>
    requires honest { AreHonest (R.headers rules.old) }
    requires vacant { R.headers rules.old d.0 ≡ None }
    requires same { headers_as (R.tree rules.old) known.old ≡ R.headers rules.old }
    requires own { AreOwnHeaders (R.is_type rules.old) known.old }
    requires header { IsOwnHeader (R.is_type rules.old) header }
    requires represented { IsHonestHeader (R.headers rules.old) (header_as (R.tree rules.old) header) }
    ensures learned { OnOk result ((e : ℕ) → R.headers rules.new e
        ≡ headers_of (R.headers rules.old) ((d.0, header_as (R.tree rules.old) header) ∷ []) e) }
    ensures err { OnErr result (IsToldOrNot (R.headers rules.old) d.0 (header_as (R.tree rules.old) header)
        (R.headers rules.new)) }
    ensures known { OnOk result (headers_as (R.tree rules.new) known.new ≡ R.headers rules.new) }
    ensures own { AreOwnHeaders (R.is_type rules.new) known.new }
    ensures kept { OnErr result (headers_as (R.tree rules.new) known.new ≡ headers_as (R.tree rules.old) known.old) }
    ensures honest { AreHonest (R.headers rules.new) }
    ensures names { R.names rules.new ≡ R.names rules.old }
    ensures world { R.world rules.new ≡ R.world rules.old }
    ensures types { KeepsTypes (R.is_type rules.old) (R.is_type rules.new) (R.tree rules.old) (R.tree rules.new) }
{
    rules.learn(d, &header)?;
    known.add(d, header)
}

// Whether a number has that place.
fn stands_at(places: &Places, d: ObjId, place: usize) -> bool
    ensures { IsTrue result ↔ (lookup (same_object d) places.now.entries ≡ Some place) }
{
    places.get(&d).copied() == Some(place)
}
