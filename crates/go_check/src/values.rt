// What the values and the types of a package break (Go specification, "Declarations and scope", "Types").
ghost use Rattle.std.specs.Prelude.{◌≡◌, ◌↔◌, ◌<◌, [], ℕ, Some, IfOk, OnOk, length, slice_get};
ghost use Rattle.go_module.specs.Modules.Module.{PackageData, module_view};
ghost use Rattle.go_model.specs.Outcomes.Walked.{AreWalked, NodesAreNumbered, nodes_of};
ghost use Rattle.go_report.specs.Phases.{BreaksShapes, BreaksValues};
ghost use Rattle.go_judge.specs.HeadersView.{AreOwnHeaders, headers_as};
ghost use Rattle.go_judge.specs.Naming.{AreThere};
ghost use Rattle.go_constructs.specs.Operators.Honest.{AreHonest};
ghost use Rattle.go_model.specs.Naming.{names_in};

use go_base::{Broken, NoMemory, Steps};
use go_by_value::by_value;
use go_decl::rounds;
use go_model::{Headers, Rules};
use go_module::{Module, Scopes, ordered};
use go_obligations::obligations;
use std::alloc::Global;
use std::sync::ledger::Ledger;

/// Finds the headers of the package at a place of the module, and tells them to the rules and to `known`, which have the
/// same headers before; and answers what the values and the types of the package break over them, as the list of a
/// report. It asks what `rounds` of go_decl does; that each constant that is known is represented by its type stays so.
/// An error is want of memory.
pub fn broken_values<R: Rules, L: Ledger>(
    alloc: Global,
    rules: &mut R,
    known: &mut Headers,
    package: usize,
    module: &Module,
    scopes: &[Scopes],
    steps: &mut Steps<L>,
) -> Result<Vec<Broken>, NoMemory>
    requires within { «package» < length «module».now.packages.items }
    requires there { AreThere (R.names rules.old) }
    requires honest { AreHonest (R.headers rules.old) }
    requires numbered { NodesAreNumbered (module_view «module».now) }
    requires same { headers_as (R.tree rules.old) known.old ≡ R.headers rules.old }
    requires own { AreOwnHeaders (R.is_type rules.old) known.old }
    ensures list { IfOk result (λ list. (p : PackageData)
        → slice_get (module_view «module».now).packages «package» ≡ Some p
        → R.names rules.old ≡ names_in (module_view «module».now) «package» p
        → BreaksShapes (module_view «module».now) «package» p []
        → BreaksValues (module_view «module».now) «package» p (R.headers rules.old) (R.headers rules.new) list.items) }
    ensures nodes { OnOk result ((p : PackageData) → slice_get (module_view «module».now).packages «package» ≡ Some p
        → AreWalked (R.names rules.old) (R.headers rules.new) (nodes_of p) (R.outcomes rules.new)) }
    ensures known { OnOk result (headers_as (R.tree rules.new) known.new ≡ R.headers rules.new) }
    ensures honest { AreHonest (R.headers rules.new) }
    ensures names { R.names rules.new ≡ R.names rules.old }
    ensures world { R.world rules.new ≡ R.world rules.old }
{
    let mut found = rounds(alloc, rules, known, package, module, scopes, steps)?;
    let mut contained = by_value(alloc, rules, package, module, scopes)?;
    let mut obliged = obligations(alloc, rules, package, module, scopes)?;
    found.append(&mut contained)?;
    found.append(&mut obliged)?;
    Ok(ordered(found))
}
