// The declarations of a module, as its reports name them.
use go_base::Name;
use go_module::At;

/// A declaration: the name, the place in the module of its package, and where it stands.
#[derive(Debug, Drop)]
pub struct DeclaredObject {
    pub name: Name,
    pub home: usize,
    pub at: At,
}
