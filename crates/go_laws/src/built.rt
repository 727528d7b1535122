// What the declarations of a loaded module are made of (Go specification, "Constant declarations", "Variable
// declarations", "Type declarations", "Types", "Operators"). A law is the contract of a function that does nothing.
ghost use Rattle.go_mod.specs.Folders.{Folder};
ghost use Rattle.go_load.specs.Loading.{IsModule};
ghost use Rattle.go_module.specs.Modules.Module.{ModuleData};
ghost use Rattle.go_laws.specs.BuiltTrees.{PartsAreBuilt, SpecsAreBuilt};

/// In a module that is loaded each type and each expression of a declaration is built: each of its nodes has a form whose
/// construct is known, with as many operands as that asks.
pub fn parts_are_built()
    ensures { (own stubs : Folder) (m : ModuleData) → IsModule own stubs m → PartsAreBuilt m }
{}

/// In a module that is loaded each spec is of constants with values and without a type, or of variables, a type or an
/// alias with a type alone.
pub fn specs_are_built()
    ensures { (own stubs : Folder) (m : ModuleData) → IsModule own stubs m → SpecsAreBuilt m }
{}
