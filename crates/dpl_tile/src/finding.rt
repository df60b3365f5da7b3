//! Finds the meetings of a place in a list that goes by place.
ghost use Rattle.std.specs.Prelude.{◌≡◌, ◌≢◌, ℕ, ◌<◌, ◌≤◌, ◌↔◌, IsTrue, length, slice_index_or};
ghost use Rattle.std.specs.List.{Contains};
ghost use Rattle.dpl_spec_split.specs.Graphs.{Precedes};
ghost use Rattle.dpl_tile.specs.declared.meetings.Meeting.{Meeting};
ghost use Rattle.dpl_tile.specs.Meetings.{AreAt, IsStart, RiseByPlace};

use crate::grid::Place;
use crate::meetings::Meeting;

/// Whether a place goes before another.
fn precedes(a: Place, b: Place) -> bool
    ensures { IsTrue result ↔ Precedes a b }
{
    if a.0 == b.0 {
        return a.1 < b.1;
    }
    a.0 < b.0
}

/// The number of the first meeting that isn't of a place before this one.
fn start_of(meetings: &[Meeting], place: Place) -> usize
    requires rise { RiseByPlace meetings.now }
    ensures { IsStart meetings.now place result }
{
    let mut low = 0;
    let mut high = meetings.len();
    while low < high {
        let middle = low + (high - low) / 2;
        if precedes(meetings[middle].place, place) {
            low = middle + 1;
        } else {
            high = middle;
        }
    }
    low
}

/// The number after that of the last meeting of a place, from its first one on.
fn end_from(meetings: &[Meeting], start: usize, place: Place) -> usize
    requires within { start ≤ length meetings.now }
    ensures { AreAt meetings.now place start result }
{
    for k in start..meetings.len() {
        if meetings[k].place != place {
            return k;
        }
    }
    meetings.len()
}

/// The meetings of a place.
pub(crate) fn found_at(meetings: &[Meeting], place: Place) -> &[Meeting]
    requires rise { RiseByPlace meetings.now }
    ensures { (m : Meeting) → Contains result.now m ↔ (Contains meetings.now m × (m.place ≡ place)) }
{
    let start = start_of(meetings, place);
    let end = end_from(meetings, start, place);
    &meetings[start..end]
}
