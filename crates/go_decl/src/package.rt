// The headers of a package, and what its values break (Go specification, "Constant declarations", "Declarations and
// scope").
ghost use Rattle.std.specs.Prelude.{◌≡◌, ◌↔◌, ◌<◌, ℕ, Some, IfOk, OnErr, OnOk, length, slice_get};
ghost use Rattle.go_module.specs.Modules.Module.{PackageData, module_view, package_view};
ghost use Rattle.go_module.specs.Names.Declarations.{declarations_of, specs_of};
ghost use Rattle.go_judge.specs.Records.{HeaderData};
ghost use Rattle.go_model.specs.Outcomes.Walked.{AreNumbered, AreWalked, NodesAreNumbered, nodes_of};
ghost use Rattle.go_judge.specs.Types.Own.{KeepsTypes};
ghost use Rattle.go_values.specs.Headers.{Known};
ghost use Rattle.go_judge.specs.HeadersView.{AreOwnHeaders, headers_as};
ghost use Rattle.go_judge.specs.Naming.{AreThere};
ghost use Rattle.go_constructs.specs.Operators.Honest.{AreHonest};
ghost use Rattle.go_names.specs.Views.{specs_view};
ghost use Rattle.go_decl.specs.Broken.{AreBroken};
ghost use Rattle.go_decl.specs.Rounds.{IsBacked};

use crate::headers::add_rounds;
use crate::places::places_of;
use crate::values::broken_values;
use crate::waits::cyclic_declarations;
use crate::walked::walk_specs;
use go_base::{Broken, NoMemory, Steps};
use go_model::{Headers, Rules};
use go_module::{Module, Package, Scopes};
use go_names::{Spec, declarations_in, specs_in_file};
use std::alloc::Global;
use std::sync::ledger::Ledger;

/// Finds the headers of the package at a place of the module in rounds, and tells them to the rules and to `known`,
/// which have the same headers before, with types of the rules' own; then walks once over all that stands behind the
/// names of its specs, and answers what its values break, as the list of a report: each declaration that waits for its
/// own header, and each rule that a spec or a node breaks over these headers. Identifiers mean what the rules say,
/// which so have to speak of this package. It asks that each object that is denoted is there, that no two nodes of a
/// package have one number, and that each constant that is known is represented by its type, which stays so. Of several
/// declarations with one number the first is meant. Each try to find a header is a step. An error is want of memory;
/// some of these headers may be known then, and no others.
pub fn rounds<R: Rules, L: Ledger>(
    alloc: Global,
    rules: &mut R,
    known: &mut Headers,
    package: usize,
    module: &Module,
    _scopes: &[Scopes],
    steps: &mut Steps<L>,
) -> Result<Vec<Broken>, NoMemory>
    requires within { «package» < length «module».now.packages.items }
    requires there { AreThere (R.names rules.old) }
    requires honest { AreHonest (R.headers rules.old) }
    requires numbered { NodesAreNumbered (module_view «module».now) }
    requires same { headers_as (R.tree rules.old) known.old ≡ R.headers rules.old }
    requires own { AreOwnHeaders (R.is_type rules.old) known.old }
    ensures exact { OnOk result ((p : PackageData) → slice_get (module_view «module».now).packages «package» ≡ Some p
        → (d : ℕ) (h : HeaderData) → (R.headers rules.new d ≡ Some h)
        ↔ Known (R.headers rules.old) (R.names rules.old) (declarations_of p) d h) }
    ensures known { OnOk result (headers_as (R.tree rules.new) known.new ≡ R.headers rules.new) }
    ensures own { AreOwnHeaders (R.is_type rules.new) known.new }
    ensures nodes { OnOk result ((p : PackageData) → slice_get (module_view «module».now).packages «package» ≡ Some p
        → AreWalked (R.names rules.old) (R.headers rules.new) (nodes_of p) (R.outcomes rules.new)) }
    ensures list { IfOk result (λ list. (p : PackageData)
        → slice_get (module_view «module».now).packages «package» ≡ Some p
        → AreBroken (R.names rules.old) (R.headers rules.new) p list.items) }
    ensures err { OnErr result ((p : PackageData) → slice_get (module_view «module».now).packages «package» ≡ Some p
        → IsBacked (R.headers rules.old) (R.names rules.old) (declarations_of p)
        (headers_as (R.tree rules.new) known.new)) }
    ensures honest { AreHonest (R.headers rules.new) }
    ensures names { R.names rules.new ≡ R.names rules.old }
    ensures world { R.world rules.new ≡ R.world rules.old }
    ensures types { KeepsTypes (R.is_type rules.old) (R.is_type rules.new) (R.tree rules.old) (R.tree rules.new) }
{
    rounds_in(alloc, rules, known, &module.packages[package], steps)
}

// The same for a package.
fn rounds_in<R: Rules, L: Ledger>(
    alloc: Global,
    rules: &mut R,
    known: &mut Headers,
    own: &Package,
    steps: &mut Steps<L>,
) -> Result<Vec<Broken>, NoMemory>
    requires there { AreThere (R.names rules.old) }
    requires honest { AreHonest (R.headers rules.old) }
    requires numbered { AreNumbered (nodes_of (package_view own.now)) }
    requires same { headers_as (R.tree rules.old) known.old ≡ R.headers rules.old }
    requires own { AreOwnHeaders (R.is_type rules.old) known.old }
    ensures exact { OnOk result ((d : ℕ) (h : HeaderData) → (R.headers rules.new d ≡ Some h)
        ↔ Known (R.headers rules.old) (R.names rules.old) (declarations_of (package_view own.now)) d h) }
    ensures known { OnOk result (headers_as (R.tree rules.new) known.new ≡ R.headers rules.new) }
    ensures own { AreOwnHeaders (R.is_type rules.new) known.new }
    ensures nodes { OnOk result (AreWalked (R.names rules.old) (R.headers rules.new)
        (nodes_of (package_view own.now)) (R.outcomes rules.new)) }
    ensures list { IfOk result (λ list. AreBroken (R.names rules.old) (R.headers rules.new)
        (package_view own.now) list.items) }
    ensures err { OnErr result (IsBacked (R.headers rules.old) (R.names rules.old)
        (declarations_of (package_view own.now)) (headers_as (R.tree rules.new) known.new)) }
    ensures honest { AreHonest (R.headers rules.new) }
    ensures names { R.names rules.new ≡ R.names rules.old }
    ensures world { R.world rules.new ≡ R.world rules.old }
    ensures types { KeepsTypes (R.is_type rules.old) (R.is_type rules.new) (R.tree rules.old) (R.tree rules.new) }
{
    let specs = package_specs(alloc, own)?;
    let declarations = declarations_in(alloc, &specs)?;
    let places = places_of(alloc, &declarations)?;
    add_rounds(alloc, rules, known, &places, &declarations, steps)?;
    walk_specs(alloc, rules, &specs)?;
    let cyclic = cyclic_declarations(alloc, &places, rules, &declarations)?;
    broken_values(alloc, &places, rules, &cyclic, &specs, &declarations, own)
}

/// The specs of a package, file after file. An error is want of memory.
pub fn package_specs<'a>(alloc: Global, own: &'a Package) -> Result<Vec<Spec<'a>>, NoMemory>
    ensures { IfOk result (λ specs. specs_view specs.items ≡ specs_of (package_view own.now)) }
{
    let mut specs = Vec::new(alloc);
    for (place, file) in own.files.iter().enumerate() {
        let mut found = specs_in_file(alloc, place, &file.tree.root)?;
        specs.append(&mut found)?;
    }
    Ok(specs)
}
