// What the names of the packages of a module denote or break (Go specification, "Declarations and scope").
ghost use Rattle.std.specs.Prelude.{◌≡◌, ◌∷◌, ◌++◌, [], ◌<◌, ◌+◌, ℕ, IfOk, OnOk, length};
ghost use Rattle.std.specs.List.{list_all};
ghost use Rattle.go_module.specs.Modules.Module.{ModuleData, module_view};
ghost use Rattle.go_module.specs.Names.Tables.{IsScopesOf};
ghost use Rattle.go_check.specs.Packages.Names as spec;

use go_base::{Broken, NoMemory};
use go_module::{Module, Scopes};
use go_scope::{ScopeFault, collect};
use std::alloc::Global;

/// What is said of the names of a package: that they break no rule; all that they break; or nothing, since the names of
/// a package that it imports break rules, or were not asked.
#[derive(Drop)]
pub enum NamesVerdict {
    Sound,
    Broken(Vec<Broken>),
    Unasked,
}

/// The scopes of packages, empty where the names of one break rules or were not asked, and what is said of the names of
/// each.
#[derive(Drop)]
pub struct Names {
    pub scopes: Vec<Scopes>,
    pub verdicts: Vec<NamesVerdict>,
}

/// The scopes of the packages of a module, and what their names break, before any value is asked. An error is want of
/// memory.
pub fn names_of(alloc: Global, module: &Module) -> Result<Names, NoMemory>
    ensures { IfOk result (λ names.
        spec.AreNames (module_view «module».now) (length «module».now.packages.items) names) }
{
    let mut names = Names {
        scopes: Vec::new(alloc),
        verdicts: Vec::new(alloc),
    };
    for place in 0..module.packages.len() {
        add_next(alloc, module, place, &mut names)?;
    }
    Ok(names)
}

// Adds the scopes of one more package, and what its names break.
fn add_next(alloc: Global, module: &Module, place: usize, names: &mut Names) -> Result<(), NoMemory>
    requires within { place < length «module».now.packages.items }
    requires before { spec.AreNames (module_view «module».now) place names.old }
    ensures { OnOk result (spec.AreNames (module_view «module».now) (place + 1) names.new) }
{
    if !imports_sound(&names.verdicts, &module.packages[place].imports) {
        return add_empty(alloc, NamesVerdict::Unasked, names);
    }
    match collect(alloc, place, module, &names.scopes) {
        Ok(scopes) => add(shrunk(scopes), NamesVerdict::Sound, names),
        Err(ScopeFault::Broken(list)) => add_empty(alloc, NamesVerdict::Broken(list), names),
        Err(ScopeFault::NoMemory) => Err(NoMemory),
    }
}

// The same scopes in no more room than they need, since those of all packages are kept.
fn shrunk(scopes: Scopes) -> Scopes
    ensures { (m : ModuleData) (k : ℕ) → IsScopesOf m k scopes → IsScopesOf m k result }
{
    let mut shrunk = scopes;
    shrunk.objects.shrink_to_fit();
    shrunk.uses.shrink_to_fit();
    shrunk.iotas.shrink_to_fit();
    shrunk
}

// Adds what is said of the names of a package, with the scopes of the universe alone.
fn add_empty(alloc: Global, verdict: NamesVerdict, names: &mut Names) -> Result<(), NoMemory>
    ensures scopes { OnOk result (spec.AddsOne names.old.scopes.items names.new.scopes.items) }
    ensures verdicts { OnOk result (names.new.verdicts.items ≡ names.old.verdicts.items ++ verdict ∷ []) }
{
    add(Scopes::empty(alloc)?, verdict, names)
}

fn add(scopes: Scopes, verdict: NamesVerdict, names: &mut Names) -> Result<(), NoMemory>
    ensures scopes { OnOk result (names.new.scopes.items ≡ names.old.scopes.items ++ scopes ∷ []) }
    ensures verdicts { OnOk result (names.new.verdicts.items ≡ names.old.verdicts.items ++ verdict ∷ []) }
{
    names.scopes.push(scopes)?;
    names.verdicts.push(verdict)?;
    Ok(())
}

// Whether the names of all these packages break no rule.
fn imports_sound(verdicts: &[NamesVerdict], imports: &[usize]) -> bool
    ensures { result ≡ list_all (spec.sound_at verdicts.now) imports.now }
{
    imports.iter().all(|import| sound_at(verdicts, *import))
}

fn sound_at(verdicts: &[NamesVerdict], place: usize) -> bool
    ensures { result ≡ spec.sound_at verdicts.now place }
{
    match verdicts.get(place) {
        Some(verdict) => is_sound(verdict),
        None => false,
    }
}

fn is_sound(verdict: &NamesVerdict) -> bool
    ensures { result ≡ spec.is_sound verdict.now }
{
    match verdict {
        NamesVerdict::Sound => true,
        NamesVerdict::Broken(_) => false,
        NamesVerdict::Unasked => false,
    }
}
