// The names that one block declares (Go specification, "Declarations and scope").
ghost use Rattle.std.specs.Prelude.{◌≡◌, ℕ, List, IfOk, OnOk};
ghost use Rattle.std.specs.List.{list_any};
ghost use Rattle.std.specs.Option.{option_copied};
ghost use Rattle.go_module.specs.Names.Rules.BlockRules as rules;
ghost use Rattle.go_module.specs.Names.Regions.{has_name};
ghost use Rattle.go_module.specs.Modules.Paths.{same_text};
ghost use Rattle.std.specs.Map.{lookup};
ghost use Rattle.go_scope.specs.Held.{ArePlaces, only_of, with_place};

use go_base::{Name, NoMemory};
use go_module::Region;
use indexmap::IndexMap;
use std::alloc::Global;
use std::marker::Model;

/// Where a name is declared first in a block, by the place of its region, and whether again.
#[derive(Clone, Copy, Debug)]
pub struct Held {
    pub first: usize,
    pub several: bool,
}

/// The regions of a block, which are found by their names.
#[derive(Drop)]
pub struct Declared<'a> {
    regions: &'a [Region],
    places: IndexMap<Name, Held>,
}

impl<'a> Model for Declared<'a> {
    ghost use Rattle.std.specs.Prelude.{List};
    ghost use Rattle.go_module.specs.declared.block.Region.{Region};
    ghost use Rattle.go_scope.specs.Held.{ArePlaces};

    ghost Value = { List Region };

    ghost view = { λ d. d.regions.now };

    ghost invariant = { λ d. ArePlaces d.regions.now d.places.entries };
}

impl<'a> Declared<'a> {
    /// The block of these regions. An error is want of memory.
    pub fn of(alloc: Global, regions: &'a [Region]) -> Result<Declared<'a>, NoMemory>
        ensures { IfOk result (λ block. block ≡ regions.now) }
    {
        let places = places_of(alloc, regions)?;
        Ok(Declared { regions, places })
    }

    /// Its regions.
    pub fn regions(&self) -> &[Region]
        ensures { result.now ≡ self.now }
    {
        self.regions
    }

    /// Whether the block declares the name.
    pub fn has(&self, name: &Name) -> bool
        ensures { result ≡ list_any (has_name name.now) self.now }
    {
        self.places.contains_key(name)
    }

    /// Whether the block declares the name several times.
    pub fn is_repeated(&self, name: &Name) -> bool
        ensures { result ≡ rules.is_repeated self.now name.now }
    {
        match self.places.get(name) {
            Some(held) => held.several,
            None => false,
        }
    }

    /// The one region of the name; None where there is none, or several.
    pub fn only(&self, name: &Name) -> Option<&Region>
        ensures { option_copied result ≡ only_of self.now name.now }
    {
        match self.places.get(name) {
            Some(held) => {
                if held.several {
                    None
                } else {
                    self.regions.get(held.first)
                }
            }
            None => None,
        }
    }
}

// Where each name is declared.
fn places_of(alloc: Global, regions: &[Region]) -> Result<IndexMap<Name, Held>, NoMemory>
    ensures { IfOk result (λ places. ArePlaces regions.now places.entries) }
{
    let mut places = IndexMap::new(alloc);
    for (i, region) in regions.iter().enumerate() {
        add_place(&mut places, &region.object.name, i)?;
    }
    Ok(places)
}

// Adds a declaration of the name at a place behind all others.
fn add_place(places: &mut IndexMap<Name, Held>, name: &Name, place: usize) -> Result<(), NoMemory>
    ensures { OnOk result ((other : List ℕ) → lookup (same_text other) places.new.entries
        ≡ with_place place (same_text other name.now) (lookup (same_text other) places.old.entries)) }
{
    let held = match places.get(name) {
        Some(held) => Held {
            first: held.first,
            several: true,
        },
        None => Held {
            first: place,
            several: false,
        },
    };
    places.insert(name.clone()?, held)?;
    Ok(())
}
