// The places of broken rules, by the files of their package (Go specification, "Source code representation").
ghost use Rattle.std.specs.Prelude.{◌≡◌, ◌==◌, ℕ, [], IfOk, false, find, map, nat_eq};
ghost use Rattle.std.specs.Option.{option_copied};
ghost use Rattle.indexmap.specs.IndexMap.{get};
ghost use Rattle.go_module.specs.Places as spec;
ghost use Rattle.go_module.specs.Modules.Module.{file_view, package_view};
ghost use Rattle.go_check.specs.Lines.Sources.{source_of};

use go_base::{Broken, Name, NoMemory};
use go_module::{At, Package, Placed, SourceFile};
use indexmap::IndexMap;
use std::alloc::Global;

/// The broken rules of a package with their places written out, each in the file that has the number of its
/// place. An error is want of memory.
pub fn placed_list(alloc: Global, own: &Package, list: &[Broken]) -> Result<Vec<Placed>, NoMemory>
    ensures { IfOk result (λ placed.
        placed.items ≡ map (spec.placed_by (package_view own.now)) list.now) }
{
    let table = by_number(alloc, &own.files)?;
    placed_each(alloc, own.stub, &table, list)
}

// The broken rules at their places, by the files that have the numbers of those.
fn placed_each(
    alloc: Global,
    stub: bool,
    table: &IndexMap<usize, &SourceFile>,
    list: &[Broken],
) -> Result<Vec<Placed>, NoMemory>
    ensures { IfOk result (λ placed. placed.items ≡ map (λ (b : Broken).
        spec.placed_in (source_of stub (option_copied (get nat_eq table.now b.pos.file))) b) list.now) }
{
    let mut placed = Vec::new(alloc);
    for broken in list {
        placed.push(placed_in(alloc, stub, table, *broken)?)?;
    }
    Ok(placed)
}

// The files by their numbers: of files with one number the first.
fn by_number(alloc: Global, files: &[SourceFile]) -> Result<IndexMap<usize, &SourceFile>, NoMemory>
    ensures { IfOk result (λ table. (number : ℕ) → option_copied (get nat_eq table number)
        ≡ find (λ file. (file_view file).number == number) files.now) }
{
    let mut table = IndexMap::new(alloc);
    for place in (0..files.len()).rev() {
        let file = &files[place];
        table.insert(file.tree.number, file)?;
    }
    Ok(table)
}

// A broken rule at its place.
fn placed_in(
    alloc: Global,
    stub: bool,
    table: &IndexMap<usize, &SourceFile>,
    broken: Broken,
) -> Result<Placed, NoMemory>
    ensures { IfOk result (λ placed. placed ≡ spec.placed_in
        (source_of stub (option_copied (get nat_eq table.now broken.pos.file))) broken) }
{
    Ok(Placed {
        at: place_in(alloc, stub, table, broken)?,
        rule: broken.rule,
    })
}

// Where a rule is broken: in the file that has the number, and else in an empty one.
fn place_in(
    alloc: Global,
    stub: bool,
    table: &IndexMap<usize, &SourceFile>,
    broken: Broken,
) -> Result<At, NoMemory>
    ensures { IfOk result (λ at. at ≡ (spec.placed_in
        (source_of stub (option_copied (get nat_eq table.now broken.pos.file))) broken).at) }
{
    match table.get(&broken.pos.file) {
        Some(file) => file.at(stub, broken.pos.offset),
        None => Ok(place_in_nothing(alloc)),
    }
}

// The one place in an empty text.
fn place_in_nothing(alloc: Global) -> At
    ensures { result ≡ record { stub = false; file = []; line = 1; col = 1 } }
{
    At {
        stub: false,
        file: Name::new(String::new(alloc)),
        line: 1,
        col: 1,
    }
}
