// What the types of a package break, over the headers that are known at the end (Go specification, "Struct types",
// "General interfaces", "Interface types", "Embedded interfaces").
ghost use Rattle.std.specs.Prelude.{◌≡◌, ◌↔◌, ◌<◌, Contains, IfOk, Some, length, slice_get};
ghost use Rattle.go_base.specs.declared.rule.Broken.{Broken};
ghost use Rattle.go_module.specs.Modules.Module.{PackageData, module_view, package_view};
ghost use Rattle.go_model.specs.Obligations.Obliged.{Obliged};
ghost use Rattle.go_model.specs.Outcomes.Walk.{outcome};
ghost use Rattle.go_model.specs.Outcomes.Walked.{AreWalked, nodes_of};
ghost use Rattle.go_judge.specs.Types.Own.{Keeps};

use crate::obligation::broken_of;
use crate::spec::owed_by;
use go_base::{Broken, NoMemory};
use go_model::Rules;
use go_module::{Module, Package, Scopes, with_numbers};
use go_names::specs_of;
use std::alloc::Global;

/// What the types of a package break that needs headers no node waits for, in any order, by the headers that the
/// rules know: C9 at an embedded field whose type may not be embedded, C15 where an interface that is not basic is
/// the type of a variable, a parameter or a result, or a component of a type that is no interface, and C19 at an
/// interface that gets one method with two types; each told by the number of its file and an offset, that of a copy
/// where one is written. It asks that the package is one of the module, and that its nodes have their outcomes. Where
/// a node has no record or a header is not known, nothing is broken. An error is want of memory; the rules stay as
/// they were (Go specification, "Struct types", "General interfaces", "Interface types", "Embedded interfaces").
pub fn obligations<R: Rules>(
    alloc: Global,
    rules: &mut R,
    package: usize,
    module: &Module,
    _scopes: &[Scopes],
) -> Result<Vec<Broken>, NoMemory>
    requires within { «package» < length «module».now.packages.items }
    requires walked { (p : PackageData) → slice_get (module_view «module».now).packages «package» ≡ Some p
        → AreWalked (R.names rules.old) (R.headers rules.old) (nodes_of p) (R.outcomes rules.old) }
    ensures list { IfOk result (λ list. (p : PackageData)
        → slice_get (module_view «module».now).packages «package» ≡ Some p
        → (b : Broken) → Contains list.items b
        ↔ Obliged (outcome (R.names rules.old) (R.headers rules.old)) (R.headers rules.old) p b) }
    ensures keeps { Keeps (R.headers rules.old) (R.headers rules.new) (R.names rules.old) (R.names rules.new)
        (R.outcomes rules.old) (R.outcomes rules.new) (R.is_spent rules.old) (R.is_spent rules.new)
        (R.world rules.old) (R.world rules.new) (R.is_type rules.old) (R.is_type rules.new)
        (R.tree rules.old) (R.tree rules.new) }
{
    obligations_in(alloc, rules, &module.packages[package])
}

// Those of this package.
fn obligations_in<R: Rules>(
    alloc: Global,
    rules: &mut R,
    package: &Package,
) -> Result<Vec<Broken>, NoMemory>
    requires { AreWalked (R.names rules.old) (R.headers rules.old) (nodes_of (package_view «package».now))
        (R.outcomes rules.old) }
    ensures list { IfOk result (λ list. (b : Broken) → Contains list.items b
        ↔ Obliged (outcome (R.names rules.old) (R.headers rules.old)) (R.headers rules.old)
        (package_view «package».now) b) }
    ensures keeps { Keeps (R.headers rules.old) (R.headers rules.new) (R.names rules.old) (R.names rules.new)
        (R.outcomes rules.old) (R.outcomes rules.new) (R.is_spent rules.old) (R.is_spent rules.new)
        (R.world rules.old) (R.world rules.new) (R.is_type rules.old) (R.is_type rules.new)
        (R.tree rules.old) (R.tree rules.new) }
{
    let specs = specs_of(alloc, &package.files)?;
    let owed = owed_by(alloc, rules, &specs)?;
    let found = broken_of(alloc, rules, &owed)?;
    with_numbers(alloc, &package.files, &found)
}
