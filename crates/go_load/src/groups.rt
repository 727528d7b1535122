// The files of packages.
ghost use Rattle.std.specs.Prelude.{◌≡◌, IfOk, OnOk, length, map, vec_len};
ghost use Rattle.std.specs.Cmp.Lexicographic.{slice_cmp};
ghost use Rattle.std.specs.List.Sorted.{IsStrictlySortedBy};
ghost use Rattle.std.specs.Ordering.{nat_cmp};
ghost use Rattle.go_module.specs.Modules.Packages.{files_of};
ghost use Rattle.go_load.specs.Packages.PathSets.{home_place, put_in};

use crate::path_set::PathSet;
use crate::paths::ImportPath;
use go_base::NoMemory;
use go_graph::{Numbers, empty_rows};
use std::alloc::Global;

/// The files of each package, where `places` are the paths of packages in ascending order.
pub fn groups(
    alloc: Global,
    homes: &[Option<ImportPath>],
    places: &PathSet,
    count: usize,
) -> Result<Vec<Numbers>, NoMemory>
    requires ascending { IsStrictlySortedBy (slice_cmp nat_cmp) places.now }
    requires count { count ≡ length places.now }
    ensures { IfOk result (λ files. files.items ≡ map (files_of homes.now) places.now) }
{
    let mut files = empty_rows(alloc, count)?;
    for (i, home) in homes.iter().enumerate() {
        add_file(&mut files, places, home, i)?;
    }
    Ok(files)
}

// Adds a file to the package that is its home.
fn add_file(
    files: &mut Vec<Numbers>,
    places: &PathSet,
    home: &Option<ImportPath>,
    file: usize,
) -> Result<(), NoMemory>
    requires { vec_len files.old ≡ length places.now }
    ensures { OnOk result (files.new.items
        ≡ put_in files.old.items (home_place places.now home.now) file) }
{
    let Some(path) = home else { return Ok(()) };
    let Some(place) = places.place_of(path.as_bytes()) else {
        return Ok(());
    };
    files[place].push(file)?;
    Ok(())
}
