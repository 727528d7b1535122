// The folders of a listing that have a go.mod of their own.
ghost use Rattle.std.specs.Prelude.{◌≡◌, ◌||◌, [], false, ℕ, List, IfOk, OnOk, nat_eq};
ghost use Rattle.std.specs.Cmp.Lexicographic.{pointwise};
ghost use Rattle.std.specs.List.{list_any};
ghost use Rattle.std.specs.Option.{option_map_or};
ghost use Rattle.go_mod.specs.Listing.{has_own_module};
ghost use Rattle.go_mod.specs.ModuleFolders.{is_one, is_own_module_file};

use go_base::{Name, NoMemory};
use indexmap::IndexSet;
use std::alloc::Global;
use std::marker::Model;

/// Folders, each once.
#[derive(Drop)]
pub(crate) struct ModuleFolders<'a> {
    folders: IndexSet<&'a [u8]>,
}

impl<'a> Model for ModuleFolders<'a> {
    ghost use Rattle.std.specs.Prelude.{ℕ, List, map};

    ghost Value = { List (List ℕ) };

    ghost view = { λ m. map (λ folder. folder.now) m.folders.keys };
}

impl<'a> ModuleFolders<'a> {
    fn new(alloc: Global) -> ModuleFolders<'a>
        ensures { result ≡ [] }
    {
        ModuleFolders {
            folders: IndexSet::new(alloc),
        }
    }

    // The folders, other than the root, whose go.mod is among the paths.
    pub(crate) fn of(alloc: Global, paths: &'a [Name]) -> Result<ModuleFolders<'a>, NoMemory>
        ensures { IfOk result (λ modules. (folder : List ℕ) →
            is_one modules folder ≡ has_own_module paths.now folder) }
    {
        let mut modules = ModuleFolders::new(alloc);
        for path in paths {
            modules.add_own(path.as_bytes())?;
        }
        Ok(modules)
    }

    // Adds the folder of which the path is the go.mod.
    fn add_own(&mut self, path: &'a [u8]) -> Result<(), NoMemory>
        ensures { OnOk result ((folder : List ℕ) →
            is_one self.new folder
            ≡ (is_one self.old folder || is_own_module_file folder path.now)) }
    {
        match module_folder(path) {
            Some(folder) => self.add(folder),
            None => Ok(()),
        }
    }

    fn add(&mut self, folder: &'a [u8]) -> Result<(), NoMemory>
        ensures { OnOk result ((other : List ℕ) →
            is_one self.new other ≡ (is_one self.old other || pointwise nat_eq other folder.now)) }
    {
        self.folders.insert(folder)?;
        Ok(())
    }

    pub(crate) fn has(&self, folder: &[u8]) -> bool
        ensures { result ≡ is_one self.now folder.now }
    {
        self.folders.contains(folder)
    }
}

// The folder, other than the root, of which a path is the go.mod.
fn module_folder(path: &[u8]) -> Option<&[u8]>
    ensures { (folder : List ℕ) →
        option_map_or (λ own. pointwise nat_eq folder own.now) result false
        ≡ is_own_module_file folder path.now }
{
    let folder = path.strip_suffix(b"/go.mod")?;
    if folder.is_empty() {
        None
    } else {
        Some(folder)
    }
}
