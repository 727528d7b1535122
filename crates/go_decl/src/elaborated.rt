// A declaration by itself: its header, and what it breaks (Go specification, "Constant declarations", "Declarations and
// scope").
ghost use Rattle.std.specs.Prelude.{◌≡◌, ◌+◌, ◌≤◌, [], IfOk, IfSome, None, OnOk, Some};
ghost use Rattle.std.specs.List.{Contains};
ghost use Rattle.std.specs.Option.{option_map};
ghost use Rattle.go_module.specs.Modules.Module.{module_view};
ghost use Rattle.go_module.specs.Names.Declarations.{declared_in};
ghost use Rattle.go_module.specs.Order.{IsListOf};
ghost use Rattle.go_judge.specs.Records.{header_as};
ghost use Rattle.go_model.specs.Outcomes.Walked.{AreNumbered, NodesAreNumbered};
ghost use Rattle.go_judge.specs.Types.Own.{IsOwnHeader, KeepsTypes};
ghost use Rattle.go_judge.specs.Naming.{AreThere};
ghost use Rattle.go_constructs.specs.Operators.Honest.{AreHonest};
ghost use Rattle.go_values.specs.Records.{header_over};
ghost use Rattle.go_expr.specs.Read.{nodes_under, outcome_read};
ghost use Rattle.go_decl.specs.Parts.{Part, broken_part, broken_part_by, part_named, part_view};

use crate::broken::push_part;
use crate::header::header_by;
use crate::parts::{FoundPart, part_named};
use crate::walked::walk_parts;
use go_base::{Broken, NoMemory, Steps};
use go_model::{ExprWalk, Header, Rules};
use go_module::{Module, ObjId, Scopes, ordered, with_numbers};
use std::alloc::Global;
use std::sync::ledger::Ledger;

/// The header of a declaration over the headers that are known, where one follows from them, and what the part of the
/// declaration that the header rests on breaks over these headers, as the list of a report.
#[derive(Drop)]
pub struct Elaborated {
    pub header: Option<Header>,
    pub broken: Vec<Broken>,
}

/// Walks once over the type and the expressions on which the header of a declaration of the module rests, and answers
/// what follows over the headers that are known, which stay: its header, whose types are the rules' own, and what it
/// breaks. Identifiers mean what the rules say, which so have to speak of the package of the declaration. It asks that
/// each object that is denoted is there, that no two nodes of a package have one number, and that each constant that is
/// known is represented by its type. Of several declarations with one number the first is meant. A call is a step. An
/// error is want of memory.
pub fn elaborate<R: Rules, L: Ledger>(
    alloc: Global,
    d: ObjId,
    module: &Module,
    _scopes: &[Scopes],
    rules: &mut R,
    steps: &mut Steps<L>,
) -> Result<Elaborated, NoMemory>
    requires there { AreThere (R.names rules.old) }
    requires honest { AreHonest (R.headers rules.old) }
    requires numbered { NodesAreNumbered (module_view «module».now) }
    ensures header { IfOk result (λ made. (part : Part) → part_named (module_view «module».now) d.0 ≡ Some part
        → option_map (header_as (R.tree rules.new)) made.header
        ≡ header_over (R.names rules.old) (R.headers rules.old) part.declaration) }
    ensures own { IfOk result (λ made. IfSome made.header (IsOwnHeader (R.is_type rules.new))) }
    ensures broken { IfOk result (λ made. (part : Part) → part_named (module_view «module».now) d.0 ≡ Some part
        → IsListOf (broken_part (R.names rules.old) (R.headers rules.old) part) made.broken.items) }
    ensures none { IfOk result (λ made. part_named (module_view «module».now) d.0 ≡ None
        → (made.header ≡ None) × (made.broken.items ≡ [])) }
    ensures same { R.headers rules.new ≡ R.headers rules.old }
    ensures steps { OnOk result (steps.new ≡ steps.old + 1) }
    ensures at_most { steps.new ≤ steps.old + 1 }
    ensures names { R.names rules.new ≡ R.names rules.old }
    ensures world { R.world rules.new ≡ R.world rules.old }
    ensures types { KeepsTypes (R.is_type rules.old) (R.is_type rules.new) (R.tree rules.old) (R.tree rules.new) }
{
    let found = part_named(alloc, module, d)?;
    steps.tick();
    match found {
        Some(part) => elaborate_part(alloc, rules, &part),
        None => Ok(Elaborated {
            header: None,
            broken: Vec::new(alloc),
        }),
    }
}

// The same for a declaration that is there.
fn elaborate_part<R: Rules>(
    alloc: Global,
    rules: &mut R,
    part: &FoundPart,
) -> Result<Elaborated, NoMemory>
    requires there { AreThere (R.names rules.old) }
    requires honest { AreHonest (R.headers rules.old) }
    requires declared { Contains (declared_in (part_view part.now).spec) (part_view part.now).declaration }
    requires numbered { AreNumbered (nodes_under (part_view part.now).declaration) }
    ensures header { IfOk result (λ made. option_map (header_as (R.tree rules.new)) made.header
        ≡ header_over (R.names rules.old) (R.headers rules.old) (part_view part.now).declaration) }
    ensures own { IfOk result (λ made. IfSome made.header (IsOwnHeader (R.is_type rules.new))) }
    ensures broken { IfOk result (λ made. IsListOf
        (broken_part (R.names rules.old) (R.headers rules.old) (part_view part.now)) made.broken.items) }
    ensures same { R.headers rules.new ≡ R.headers rules.old }
    ensures names { R.names rules.new ≡ R.names rules.old }
    ensures world { R.world rules.new ≡ R.world rules.old }
    ensures types { KeepsTypes (R.is_type rules.old) (R.is_type rules.new) (R.tree rules.old) (R.tree rules.new) }
{
    let declaration = &part.declaration;
    walk_parts(alloc, rules, declaration.types, declaration.values)?;
    let header = header_by(alloc, rules, declaration)?;
    let broken = broken_part(alloc, rules, part)?;
    Ok(Elaborated { header, broken })
}

// What a part breaks by the outcomes of its nodes, as the list of a report.
fn broken_part<W: ExprWalk>(
    alloc: Global,
    walks: &W,
    part: &FoundPart,
) -> Result<Vec<Broken>, NoMemory>
    ensures { IfOk result (λ list.
        IsListOf (broken_part_by (outcome_read (W.outcomes walks.now)) (part_view part.now)) list.items) }
{
    let mut found = Vec::new(alloc);
    push_part(alloc, walks, &part.spec, &part.declaration, &mut found)?;
    Ok(ordered(with_numbers(alloc, &part.own.files, &found)?))
}
