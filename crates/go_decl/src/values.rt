// What the values of a package break (Go specification, "Constants", "Constant expressions", "Constant declarations",
// "Qualified identifiers").
ghost use Rattle.std.specs.Prelude.{◌≡◌, ◌++◌, ℕ, IfOk, OnOk, map};
ghost use Rattle.std.specs.List.{flat_map};
ghost use Rattle.go_module.specs.Order.{IsListOf};
ghost use Rattle.go_module.specs.Modules.Module.{package_view};
ghost use Rattle.go_module.specs.Names.Declarations.{declarations_of, specs_of};
ghost use Rattle.go_values.specs.Rules as rules;
ghost use Rattle.go_names.specs.Views.{declaration_view, declarations_view, specs_view};
ghost use Rattle.go_judge.specs.Naming.{Naming};
ghost use Rattle.go_judge.specs.Headers.{Headers};
ghost use Rattle.go_model.specs.Outcomes.Walked.{AreWalked, nodes_of};
ghost use Rattle.go_expr.specs.Read.{outcome_read};
ghost use Rattle.go_values.specs.Rules.{broken_spec_by};
ghost use Rattle.go_decl.specs.Places.{placed_by};
ghost use Rattle.go_decl.specs.Waits.{marked_by};

use crate::broken::push_spec;
use crate::places::Places;
use crate::rules::CYCLIC_DECLARATION;
use crate::waits::is_cyclic;
use go_base::{Broken, NoMemory};
use go_model::ExprWalk;
use go_module::{ObjId, Package, add_if, broken_at, ordered, with_numbers};
use go_names::{Declaration, Spec};
use std::alloc::Global;

/// What the values of a package with these specs and declarations break, as the list of a report: C1 at each
/// declaration that is marked as cyclic, and what its specs break by the outcomes of their nodes, each told by the
/// number of its file. An error is want of memory.
pub fn broken_values<W: ExprWalk>(
    alloc: Global,
    places: &Places,
    walks: &W,
    cyclic: &[bool],
    specs: &[Spec],
    declarations: &[Declaration],
    own: &Package,
) -> Result<Vec<Broken>, NoMemory>
    requires specs { specs_view specs.now ≡ specs_of (package_view own.now) }
    requires declarations { declarations_view declarations.now ≡ declarations_of (package_view own.now) }
    ensures { IfOk result (λ list. (naming : Naming) (headers : Headers)
        → AreWalked naming headers (nodes_of (package_view own.now)) (W.outcomes walks.now)
        → IsListOf (rules.broken_values naming headers (marked_by (placed_by places.now.entries) cyclic.now)
        (package_view own.now)) list.items) }
{
    let mut found = Vec::new(alloc);
    push_cycles(places, cyclic, declarations, &mut found)?;
    push_specs(alloc, walks, specs, &mut found)?;
    Ok(ordered(with_numbers(alloc, &own.files, &found)?))
}

// Pushes C1 at the name of each declaration that is marked as cyclic.
fn push_cycles(
    places: &Places,
    cyclic: &[bool],
    declarations: &[Declaration],
    list: &mut Vec<Broken>,
) -> Result<(), NoMemory>
    ensures { OnOk result (list.new.items ≡ list.old.items ++ rules.broken_cycles
        (marked_by (placed_by places.now.entries) cyclic.now) (declarations_view declarations.now)) }
{
    for declaration in declarations {
        let marked = is_cyclic(places, cyclic, declaration.number());
        push_cyclic(marked, declaration, list)?;
    }
    Ok(())
}

// Pushes C1 at the name of a declaration that is cyclic.
fn push_cyclic(
    cyclic: bool,
    declaration: &Declaration,
    list: &mut Vec<Broken>,
) -> Result<(), NoMemory>
    ensures { OnOk result (list.new.items
        ≡ list.old.items ++ rules.cyclic_at cyclic (declaration_view declaration.now)) }
{
    let start = declaration.name.start();
    add_if(
        list,
        cyclic,
        broken_at(declaration.file, start, CYCLIC_DECLARATION),
    )
}

// Pushes what these specs break.
fn push_specs<W: ExprWalk>(
    alloc: Global,
    walks: &W,
    specs: &[Spec],
    found: &mut Vec<Broken>,
) -> Result<(), NoMemory>
    ensures { OnOk result (found.new.items ≡ found.old.items
        ++ flat_map (broken_spec_by (outcome_read (W.outcomes walks.now))) (specs_view specs.now)) }
{
    for spec in specs {
        push_spec(alloc, walks, spec, found)?;
    }
    Ok(())
}
