// The places of packages in an order.
ghost use Rattle.std.specs.Prelude.{◌≡◌, ◌==◌, ◌<◌, ◌++◌, ℕ, All, IfOk, None, OnOk, length, option_to_list, position, replicate};
ghost use Rattle.std.specs.List.{filter_map};
ghost use Rattle.go_load.specs.Packages.Assembly.{put_first, slot_at};

use go_base::NoMemory;
use std::alloc::Global;

/// For each of so many packages its first place in an order.
pub fn places_of(
    alloc: Global,
    order: &[usize],
    count: usize,
) -> Result<Vec<Option<usize>>, NoMemory>
    requires { All (λ p. p < count) order.now }
    ensures { IfOk result (λ places. (q : ℕ) →
        slot_at places.items q ≡ position (λ p. p == q) order.now) }
{
    let mut places = no_places(alloc, count)?;
    for (place, number) in order.iter().enumerate() {
        put_first(&mut places, *number, place);
    }
    Ok(places)
}

// So many packages that have no place.
fn no_places(alloc: Global, count: usize) -> Result<Vec<Option<usize>>, NoMemory>
    ensures { IfOk result (λ places. places.items ≡ replicate count None) }
{
    let mut places = Vec::new(alloc);
    for _ in 0..count {
        places.push(None)?;
    }
    Ok(places)
}

// Gives a package that place, unless it has one.
fn put_first(places: &mut [Option<usize>], number: usize, place: usize)
    requires { number < length places.old }
    ensures { places.new ≡ put_first places.old number place }
{
    places[number] = places[number].or(Some(place));
}

/// The places of these packages, without those that have none.
pub fn places_at(
    alloc: Global,
    places: &[Option<usize>],
    packages: &[usize],
) -> Result<Vec<usize>, NoMemory>
    ensures { IfOk result (λ list. list.items ≡ filter_map (slot_at places.now) packages.now) }
{
    let mut list = Vec::new(alloc);
    for number in packages {
        push_some(&mut list, place_at(places, *number))?;
    }
    Ok(list)
}

// The place of a package, if it has one.
fn place_at(places: &[Option<usize>], number: usize) -> Option<usize>
    ensures { result ≡ slot_at places.now number }
{
    places.get(number).copied().unwrap_or(None)
}

// Puts a number behind others, if there is one.
fn push_some(list: &mut Vec<usize>, number: Option<usize>) -> Result<(), NoMemory>
    ensures { OnOk result (list.new.items ≡ list.old.items ++ option_to_list number) }
{
    if let Some(number) = number {
        list.push(number)?;
    }
    Ok(())
}
