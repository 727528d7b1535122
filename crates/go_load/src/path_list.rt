// The paths of packages.
ghost use Rattle.std.specs.Prelude.{◌≡◌, [], ◌∷◌, ◌++◌, IfOk, OnOk};
ghost use Rattle.std.specs.List.{filter_map};
ghost use Rattle.go_module.specs.Modules.Packages.{IsPathList};

use crate::paths::ImportPath;
use go_base::NoMemory;
use std::alloc::Global;

/// The paths that some file has as its home, in ascending order, each once.
pub fn path_list(alloc: Global, homes: &[Option<ImportPath>]) -> Result<Vec<ImportPath>, NoMemory>
    ensures { IfOk result (λ paths. IsPathList homes.now paths.items) }
{
    let mut paths = present(alloc, homes)?;
    paths.sort_unstable();
    paths.dedup();
    Ok(paths)
}

// The homes that there are.
fn present(alloc: Global, homes: &[Option<ImportPath>]) -> Result<Vec<ImportPath>, NoMemory>
    ensures { IfOk result (λ paths. paths.items ≡ filter_map (λ home. home) homes.now) }
{
    let mut paths = Vec::new(alloc);
    for home in homes {
        add_present(home, &mut paths)?;
    }
    Ok(paths)
}

// Adds the home, if there is one.
fn add_present(home: &Option<ImportPath>, paths: &mut Vec<ImportPath>) -> Result<(), NoMemory>
    ensures { OnOk result (paths.new.items
        ≡ paths.old.items ++ filter_map (λ home. home) (home.now ∷ [])) }
{
    if let Some(path) = home {
        paths.push(path.clone()?)?;
    }
    Ok(())
}
