//! The zones of each feature.
ghost use Rattle.std.specs.Prelude.{◌≡◌, ◌≢◌, ℕ, ◌<◌, ◌≤◌, IfOk, length, map, take, slice_index_or};
ghost use Rattle.std.specs.List.{All, range_with_len};
ghost use Rattle.dpl_sides.specs.Pieces.{rect_at, zone_at};
ghost use Rattle.dpl_piece.specs.Pieces.{feature_at, AreZonesFrom};

use dpl_base::{Id, Rect, Zone, short_id};
use dpl_sort::sort_by_key;
use std::alloc::{AllocError, Global};

/// The feature of a zone by the zone's number, and 0 past the end.
pub fn feature_of(zones: &[Zone], number: usize) -> Id
    ensures { result ≡ feature_at zones.now number }
{
    match zones.get(number) {
        Some(zone) => zone.feature,
        None => 0,
    }
}

/// The numbers below `count`, in order, in 32 bits each. 2^32 of them or more are refused as out of memory, as so many zones would be.
pub fn short_numbers(alloc: Global, count: usize) -> Result<Vec<u32>, AllocError>
    ensures { IfOk result (λ v. v.items ≡ range_with_len 0 count) }
{
    let count = short_id(count as Id)?;
    (0..count).collect(alloc)
}

/// A zone's feature and its number.
fn key_of(zones: &[Zone], number: u32) -> (Id, u32)
    ensures { result ≡ (feature_at zones.now number, number) }
{
    (feature_of(zones, number as usize), number)
}

/// The numbers of the zones, by feature. Those of one feature stay in order.
pub fn by_feature(alloc: Global, zones: &[Zone]) -> Result<Vec<u32>, AllocError>
    ensures { IfOk result (λ v. AreZonesFrom zones.now 0 v.items) }
{
    let mut numbers = short_numbers(alloc, zones.len())?;
    sort_by_key(&mut numbers, |number| key_of(zones, *number));
    Ok(numbers)
}

/// How many of the first numbers are of zones of the feature.
pub fn own_count(zones: &[Zone], numbers: &[u32], feature: Id) -> usize
    ensures inside { result ≤ length numbers.now }
    ensures own { All (λ j. feature_at zones.now j ≡ feature) (take result numbers.now) }
    ensures next { result < length numbers.now → (d : ℕ) → feature_at zones.now (slice_index_or numbers.now result d) ≢ feature }
{
    for i in 0..numbers.len() {
        if feature_of(zones, numbers[i] as usize) != feature {
            return i;
        }
    }
    numbers.len()
}

/// The rectangles of the zones of these numbers.
pub fn holes_at(alloc: Global, zones: &[Zone], numbers: &[u32]) -> Result<Vec<Rect>, AllocError>
    requires { All (λ j. j < length zones.now) numbers.now }
    ensures { IfOk result (λ v. v.items ≡ map (rect_at zones.now) numbers.now) }
{
    let mut holes = Vec::with_capacity(alloc, numbers.len())?;
    for &number in numbers {
        holes.push(zones[number as usize].rect)?;
    }
    Ok(holes)
}

/// The zones of these numbers.
pub fn zones_at(alloc: Global, zones: &[Zone], numbers: &[u32]) -> Result<Vec<Zone>, AllocError>
    requires { All (λ j. j < length zones.now) numbers.now }
    ensures { IfOk result (λ v. v.items ≡ map (zone_at zones.now) numbers.now) }
{
    let mut some = Vec::with_capacity(alloc, numbers.len())?;
    for &number in numbers {
        some.push(zones[number as usize])?;
    }
    Ok(some)
}
