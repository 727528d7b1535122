// What the packages of a module are known by to those that import them (Go specification, "Import
// declarations", "Qualified identifiers").
ghost use Rattle.std.specs.Prelude.{◌≡◌, IfOk, option_and_then};
ghost use Rattle.std.specs.Map.{lookup};
ghost use Rattle.std.specs.Option.{option_copied};
ghost use Rattle.go_module.specs.Modules.Paths.{same_text};
ghost use Rattle.go_module.specs.Scopes.{same_object};
ghost use Rattle.go_scope.specs.Known.{known_by};

use go_base::{Name, NoMemory};
use go_module::{Object, Package, Scopes};
use go_names::is_exported;
use std::alloc::Global;

/// What the packages of a module are known by: the packages, by their places in the module, and the scopes of those
/// that stand before the one that imports.
#[derive(Clone, Copy)]
pub struct Before<'a> {
    pub packages: &'a [Package],
    pub scopes: &'a [Scopes],
}

/// The name in the package clauses of a package. An error is want of memory.
pub fn clause_name(alloc: Global, before: &Before, place: usize) -> Result<Name, NoMemory>
    ensures { IfOk result (λ name. name ≡ (known_by before.now place).clause) }
{
    match before.packages.get(place) {
        Some(found) => Ok(found.name.clone()?),
        None => Ok(Name::new(String::new(alloc))),
    }
}

/// The object that an exported name of a package denotes.
pub fn exported<'a>(before: &Before<'a>, place: usize, name: &Name) -> Option<&'a Object>
    ensures { option_copied result ≡ (known_by before.now place).exported name.now }
{
    if !is_exported(name) {
        return None;
    }
    match before.scopes.get(place) {
        Some(found) => named(found, name),
        None => None,
    }
}

// The object that a name of the package block denotes.
fn named<'a>(scopes: &'a Scopes, name: &Name) -> Option<&'a Object>
    ensures { option_copied result ≡ option_and_then (λ d. lookup (same_object d) scopes.now.objects.entries)
        (lookup (same_text name.now) scopes.now.names.entries) }
{
    match scopes.names.get(name) {
        Some(id) => scopes.objects.get(id),
        None => None,
    }
}
