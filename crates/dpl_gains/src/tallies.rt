//! How many zones between each component and others have sides that differ, and how many sides that agree.
ghost use Rattle.std.specs.Prelude.{◌≡◌, ◌<◌, ◌+◌, ◌^◌, ℕ, IfOk, length, slice_index};
ghost use Rattle.std.specs.List.{All};
ghost use Rattle.dpl_gains.specs.Tallies.{tally_at, counted, AreTallies};

use dpl_base::Id;
use std::alloc::{AllocError, Global};

/// Of a component: how many of its zones to others have sides that differ, and how many sides that agree.
#[derive(Clone, Copy, Drop)]
pub struct Tally {
    pub d: u64,
    pub s: u64,
}

impl Tally {
    ghost use Rattle.std.specs.Prelude.{◌≡◌, ◌<◌, ◌+◌, ◌^◌};
    ghost use Rattle.dpl_gains.specs.Tallies.{more_by};

    /// With one zone more, whose sides differ or agree.
    fn more_by(self, differs: bool) -> Tally
        requires d { self.d + 1 < 2 ^ 64 }
        requires s { self.s + 1 < 2 ^ 64 }
        ensures { result ≡ more_by differs self }
    {
        if differs {
            Tally {
                d: self.d + 1,
                s: self.s,
            }
        } else {
            Tally {
                d: self.d,
                s: self.s + 1,
            }
        }
    }
}

/// Counts a zone between two components in the tallies of both.
fn count(tallies: &mut [Tally], first: Id, second: Id, differs: bool)
    requires first { first < length tallies.old }
    requires second { second < length tallies.old }
    requires room_d { (root : ℕ) → root < length tallies.old → (tally_at tallies.old root).d + 1 < 2 ^ 64 }
    requires room_s { (root : ℕ) → root < length tallies.old → (tally_at tallies.old root).s + 1 < 2 ^ 64 }
    ensures { (root : ℕ) → root < length tallies.old → tally_at tallies.new root ≡ counted first second differs root (tally_at tallies.old root) }
{
    if first == second {
        return;
    }
    let one = tallies[first as usize].more_by(differs);
    let other = tallies[second as usize].more_by(differs);
    tallies[first as usize] = one;
    tallies[second as usize] = other;
}

/// The tallies of all components, where roots has the root of each piece, and sides the two pieces beside each zone.
pub(crate) fn tallies_of(
    alloc: Global,
    roots: &[Id],
    letters: &[bool],
    sides: &[(Id, Id)],
) -> Result<Vec<Tally>, AllocError>
    requires each { length letters.now ≡ length roots.now }
    requires below { (k : ℕ) → k < length roots.now → slice_index roots.now k < length roots.now }
    requires known { All (λ side. (side.0 < length roots.now) × (side.1 < length roots.now)) sides.now }
    ensures { IfOk result (λ v. AreTallies roots.now letters.now sides.now v.items) }
{
    let none = Tally { d: 0, s: 0 };
    let mut tallies = vec![in alloc; none; roots.len()]?;
    for k in 0..sides.len() {
        let (p, q) = sides[k];
        let differs = letters[p as usize] != letters[q as usize];
        count(&mut tallies, roots[p as usize], roots[q as usize], differs);
    }
    Ok(tallies)
}
