// Which numbers the nodes of a module have (Go specification, "Source file organization", "Packages"). A law is the
// contract of a function that does nothing.
ghost use Rattle.go_mod.specs.Folders.{Folder};
ghost use Rattle.go_module.specs.Modules.Module.{ModuleData};
ghost use Rattle.go_load.specs.Loading.{IsModule};
ghost use Rattle.go_model.specs.Outcomes.Walked.{NodesAreNumbered};
ghost use Rattle.go_laws.specs.NodeNumbers.{NodeNumbersAscend};

/// In a module that is loaded each node of each file has a number of its own: in a package the numbers ascend, file
/// after file and in each in the order in which its nodes end; none is below the first number of a module; and no
/// node of one package has the number of a node of another.
pub fn node_numbers_ascend()
    ensures { (own stubs : Folder) (m : ModuleData) → IsModule own stubs m → NodeNumbersAscend m }
{}

/// In a module that is loaded no two nodes of the types and the expressions of a package's declarations have one
/// number.
pub fn nodes_are_numbered()
    ensures { (own stubs : Folder) (m : ModuleData) → IsModule own stubs m → NodesAreNumbered m }
{}
