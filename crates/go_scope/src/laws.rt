// Laws of what names denote. A module that is loaded is one as `IsLoaded` says; each module that `load` of
// go_load answers is such.
ghost use Rattle.go_scope.specs.Laws.{DenotesInnermost, EachSpecIsNamed, ResolvesExactly};

/// An occurrence denotes the region that holds it and lies inside all others of its name that hold it, and
/// nothing where there is none such (Go specification, "Declarations and scope").
pub fn denotes_innermost()
    ensures { DenotesInnermost }
{}

/// In the scopes of a package of a module that is loaded, `Scopes::resolve` answers for each identifier behind the
/// names of a spec exactly the object that it denotes (Go specification, "Declarations and scope").
pub fn resolves_exactly()
    ensures { ResolvesExactly }
{}

/// In a module that is loaded the import specs of a package's files stand beside the package's imports, each
/// beside the package that its path names (Go specification, "Import declarations").
pub fn each_spec_is_named()
    ensures { EachSpecIsNamed }
{}
