// The packages that the files of a module and of its stubs make.
ghost use Rattle.std.specs.Prelude.{◌≡◌, ◌↔◌, ℕ, IfOk, length, map, not, true};
ghost use Rattle.std.specs.Cmp.Lexicographic.{slice_cmp};
ghost use Rattle.std.specs.List.Sorted.{IsStrictlySortedBy};
ghost use Rattle.std.specs.Ordering.{nat_cmp};
ghost use Rattle.go_module.specs.Modules.Paths.{has_path};
ghost use Rattle.go_module.specs.Modules.Packages.{files_of, imports_of, IsTableOf, Reached};
ghost use Rattle.go_graph.specs.Graph.{IsGraph, is_marked};

use crate::columns::{imports, stubs};
use crate::groups::groups;
use crate::heads::Head;
use crate::homes::{homes, own_paths};
use crate::path_list::path_list;
use crate::path_set::PathSet;
use crate::paths::ImportPath;
use crate::table::Packages;
use go_base::NoMemory;
use go_graph::{Numbers, reached};
use std::alloc::Global;

/// The packages that these files make: the files below the first root, whose module has this path, and
/// then the stubs below the second. NoMemory comes only where memory runs out.
pub fn packages_of(alloc: Global, module_path: &[u8], heads: &[Head]) -> Result<Packages, NoMemory>
    ensures { IfOk result (λ packages. IsTableOf module_path.now heads.now packages) }
{
    let listed = own_paths(alloc, module_path, heads)?;
    let own = PathSet::of(alloc, &listed)?;
    let homes = homes(alloc, module_path, &own, heads)?;
    let paths = path_list(alloc, &homes)?;
    let columns = columns_of(alloc, heads, &own, &homes, &paths)?;
    let Columns {
        stubs,
        files,
        imports,
        reached,
    } = columns;
    Ok(Packages::new(paths, stubs, files, imports, reached))
}

// What is known of each package.
#[derive(Drop)]
struct Columns {
    stubs: Vec<bool>,
    files: Vec<Numbers>,
    imports: Vec<Numbers>,
    reached: Vec<bool>,
}

// What is known of the packages with these paths.
fn columns_of(
    alloc: Global,
    heads: &[Head],
    own: &PathSet,
    homes: &[Option<ImportPath>],
    paths: &[ImportPath],
) -> Result<Columns, NoMemory>
    requires { IsStrictlySortedBy (slice_cmp nat_cmp) paths.now }
    ensures stubs { IfOk result (λ columns. columns.stubs.items
        ≡ map (λ path. not (has_path own.now path)) paths.now) }
    ensures files { IfOk result (λ columns. columns.files.items
        ≡ map (files_of homes.now) paths.now) }
    ensures imports { IfOk result (λ columns. columns.imports.items
        ≡ map (λ path. imports_of paths.now columns.stubs.items heads.now
        (not (has_path own.now path)) (files_of homes.now path)) paths.now) }
    ensures length { IfOk result (λ columns. length columns.reached.items ≡ length paths.now) }
    ensures reached { IfOk result (λ columns. (k : ℕ) → (is_marked columns.reached.items k ≡ true)
        ↔ Reached columns.stubs.items columns.imports.items k) }
{
    let places = PathSet::of(alloc, paths)?;
    let stubs = stubs(alloc, paths, own)?;
    let files = groups(alloc, homes, &places, paths.len())?;
    let imports = imports(alloc, &places, &stubs, heads, &files)?;
    let reached = reached_packages(alloc, &stubs, &imports)?;
    Ok(Columns {
        stubs,
        files,
        imports,
        reached,
    })
}

// Which packages are no stubs, or imported by a reached package.
fn reached_packages(
    alloc: Global,
    stubs: &[bool],
    imports: &[Numbers],
) -> Result<Vec<bool>, NoMemory>
    requires graph { IsGraph imports.now }
    requires stubs { length stubs.now ≡ length imports.now }
    ensures length { IfOk result (λ marks. length marks.items ≡ length imports.now) }
    ensures exact { IfOk result (λ marks. (k : ℕ) → (is_marked marks.items k ≡ true)
        ↔ Reached stubs.now imports.now k) }
{
    let own = own_packages(alloc, stubs)?;
    reached(alloc, imports, &own)
}

// Which packages are no stubs.
fn own_packages(alloc: Global, stubs: &[bool]) -> Result<Vec<bool>, NoMemory>
    ensures { IfOk result (λ own. own.items ≡ map not stubs.now) }
{
    let mut own = Vec::new(alloc);
    for stub in stubs {
        own.push(!*stub)?;
    }
    Ok(own)
}
