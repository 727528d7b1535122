// What the names of a package denote (Go specification, "Declarations and scope").
ghost use Rattle.std.specs.Prelude.{◌≡◌, ℕ, [], IfOk, IfSome, IsSome, Some, Contains};
ghost use Rattle.std.specs.Option.{option_map_or};
ghost use Rattle.indexmap.specs.IndexMap.{ContainsKey, IsEmpty, get, insert_all};
ghost use Rattle.go_base.specs.declared.ids.ObjId.{ObjId};
ghost use Rattle.go_module.specs.Modules.Module.{ModuleData, PackageData};
ghost use Rattle.go_module.specs.Names.Imports.{known_in};
ghost use Rattle.go_module.specs.Names.Iotas.{iotas_of};
ghost use Rattle.go_module.specs.Names.PackageBlock.{region_entries};
ghost use Rattle.go_module.specs.Names.Tables.{HasTables, objects_in, uses_of};
ghost use Rattle.go_module.specs.Names.Universe.{universe};
ghost use Rattle.go_module.specs.Scopes.{same_node, same_object};

use crate::object::{Method, Object};
use crate::object_table::add_objects;
use crate::predeclared::universe;
use go_base::{Name, NoMemory, ObjId};
use go_tree::NodeId;
use indexmap::IndexMap;
use std::alloc::Global;

/// What the names of a package denote: its objects, the object that each occurrence resolves to, the number
/// of each `iota` in a constant spec, the methods of each defined type, and the names of the package block.
#[derive(Debug, Drop)]
pub struct Scopes {
    pub objects: IndexMap<ObjId, Object>,
    pub uses: IndexMap<NodeId, ObjId>,
    pub iotas: IndexMap<NodeId, usize>,
    pub methods: IndexMap<ObjId, Vec<Method>>,
    pub names: IndexMap<Name, ObjId>,
}

impl Scopes {
    /// The scopes of the universe alone. An error is want of memory.
    pub fn empty(alloc: Global) -> Result<Scopes, NoMemory>
        ensures objects { IfOk result (λ scopes.
            scopes.objects.entries ≡ insert_all same_object [] (region_entries universe)) }
        ensures uses { IfOk result (λ scopes. IsEmpty scopes.uses) }
        ensures iotas { IfOk result (λ scopes. IsEmpty scopes.iotas) }
        ensures methods { IfOk result (λ scopes. IsEmpty scopes.methods) }
        ensures names { IfOk result (λ scopes. IsEmpty scopes.names) }
    {
        let mut objects = IndexMap::new(alloc);
        add_objects(&mut objects, &universe(alloc)?)?;
        Ok(Scopes {
            objects,
            uses: IndexMap::new(alloc),
            iotas: IndexMap::new(alloc),
            methods: IndexMap::new(alloc),
            names: IndexMap::new(alloc),
        })
    }

    /// The object that an occurrence of an identifier denotes. In the scopes of a package: None exactly
    /// where the node is no identifier that denotes an object.
    pub fn resolve(&self, id: NodeId) -> Option<ObjId>
        ensures table { result ≡ get same_node self.now.uses id }
        ensures denotes { (m : ModuleData) (k : ℕ) (p : PackageData) → HasTables m k p self.now
            → IfSome result (λ d. Contains (uses_of (known_in m) k p) (id, d)) }
        ensures found { (m : ModuleData) (k : ℕ) (p : PackageData) (d : ObjId) → HasTables m k p self.now
            → Contains (uses_of (known_in m) k p) (id, d) → IsSome result }
    {
        self.uses.get(&id).copied()
    }

    /// The number of the innermost constant spec around an identifier `iota`, from 0 in each declaration (Go
    /// specification, "Iota"). In the scopes of a package: None exactly where the node is no identifier of this
    /// name in a constant spec.
    pub fn iota_of(&self, id: NodeId) -> Option<usize>
        ensures table { result ≡ get same_node self.now.iotas id }
        ensures numbered { (m : ModuleData) (k : ℕ) (p : PackageData) → HasTables m k p self.now
            → IfSome result (λ n. Contains (iotas_of p) (id, n)) }
        ensures found { (m : ModuleData) (k : ℕ) (p : PackageData) (n : ℕ) → HasTables m k p self.now
            → Contains (iotas_of p) (id, n) → IsSome result }
    {
        self.iotas.get(&id).copied()
    }

    /// The object of that number, which the table of objects must have.
    pub fn object(&self, d: ObjId) -> &Object
        requires { ContainsKey same_object self.now.objects d }
        ensures table { get same_object self.now.objects d ≡ Some result.now }
        ensures declared { (m : ModuleData) (k : ℕ) (p : PackageData) → HasTables m k p self.now
            → Contains (objects_in (known_in m) k p) (d, result.now) }
    {
        &self.objects[&d]
    }

    /// The methods of a type; none where the table of methods does not have it.
    pub fn methods(&self, d: ObjId) -> &[Method]
        ensures table { result.now
            ≡ option_map_or (λ list. list.items) (get same_object self.now.methods d) [] }
        ensures unbuilt { (m : ModuleData) (k : ℕ) (p : PackageData) → HasTables m k p self.now
            → result.now ≡ [] }
    {
        match self.methods.get(&d) {
            Some(list) => list,
            None => &[],
        }
    }
}
