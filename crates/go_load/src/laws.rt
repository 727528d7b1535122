//! Laws of what is loaded.
ghost use Rattle.std.specs.Prelude.{ℕ, List, Option, Some};
ghost use Rattle.go_base.specs.declared.tree.MemFile.{MemFile};
ghost use Rattle.go_mod.specs.Folders.{Folder};
ghost use Rattle.go_load.specs.FileNumbers.{NumbersAscend};
ghost use Rattle.go_load.specs.Loading.{IsModule};
ghost use Rattle.go_load.specs.OneLoad.{OneLoad};
ghost use Rattle.go_module.specs.Modules.Module.{IsLoaded, ModuleData};
ghost use Rattle.go_module.specs.Modules.ModuleLaws.{ImportsStandBefore};

/// In a module each package stands once, behind all that it imports: no two packages have one path.
pub fn imports_stand_before()
    ensures { (own stubs : Folder) (m : ModuleData) → IsModule own stubs m → ImportsStandBefore m }
{}

/// From a tree that tells its files at most one module is loaded, at most one list of broken rules is told, and
/// not both.
pub fn one_load()
    ensures { (files : List MemFile) (root : List ℕ) (stubs_root : Option (List ℕ))
        → OneLoad (Some files) root stubs_root }
{}

/// In a package of a module that is loaded the numbers of the files ascend: no two files have one number.
pub fn numbers_ascend()
    ensures { (m : ModuleData) → IsLoaded m → NumbersAscend m }
{}
