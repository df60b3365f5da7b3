//! A table by which a number is found among others that lie close together.
ghost use Rattle.std.specs.Prelude.{◌≡◌, ◌+◌, ◌^◌, ◌<◌, ◌≤◌, length, slice_index, IfOk, IfSome};
ghost use Rattle.std.specs.List.{All, AllPairs};
ghost use Rattle.dpl_stars.specs.Tables.{IsTable, IsSpan};

use dpl_list::Id;
use std::alloc::{AllocError, Global};

/// How many entries a table may have for each number that it is made for.
const MOST_ENTRIES: u64 = 8;

/// The place of each of some numbers in their list, by how far the number lies above the least.
#[derive(Drop)]
pub struct Table {
    pub least: Id,
    pub places: Vec<u32>,
}

/// How many numbers lie from `least` to `greatest`, unless they are too many for a table of `count` of them.
pub fn close_span(least: Id, greatest: Id, count: usize) -> Option<usize>
    ensures { IfSome result (λ span. least + span ≡ greatest + 1) }
{
    let span = greatest.checked_sub(least)?.checked_add(1)?;
    if span / MOST_ENTRIES > count as u64 {
        return None;
    }
    Some(span as usize)
}

/// How many numbers lie from the first to the last of these, if a table may have an entry for each.
fn span_of(numbers: &[Id]) -> Option<usize>
    ensures { IfSome result (IsSpan numbers.now) }
{
    let least = *numbers.first()?;
    let greatest = *numbers.last()?;
    if numbers.len() > u32::MAX as usize {
        return None;
    }
    close_span(least, greatest, numbers.len())
}

/// The table of rising numbers, with an entry for each number from the first to the last of them.
fn filled(alloc: Global, numbers: &[Id], span: usize) -> Result<Table, AllocError>
    requires rising { AllPairs (λ a b. a < b) numbers.now }
    requires span { IsSpan numbers.now span }
    ensures { IfOk result (IsTable numbers.now) }
{
    let least = numbers[0];
    let mut places = vec![in alloc; 0; span]?;
    for (place, number) in numbers.iter().enumerate() {
        places[(*number - least) as usize] = place as u32;
    }
    Ok(Table { least, places })
}

/// The table of rising numbers, if they lie close together.
pub fn table_of(alloc: Global, numbers: &[Id]) -> Result<Option<Table>, AllocError>
    requires { AllPairs (λ a b. a < b) numbers.now }
    ensures { IfOk result (λ table. IfSome table (IsTable numbers.now)) }
{
    let Some(span) = span_of(numbers) else {
        return Ok(None);
    };
    Ok(Some(filled(alloc, numbers, span)?))
}
