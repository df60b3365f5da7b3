//! How many zones between each component and others have sides that differ, and how many sides that agree.
ghost use Rattle.std.specs.Prelude.{◌≡◌, ◌<◌, ◌+◌, ◌^◌, length, slice_set, IfOk, IsTrue, ◌↔◌};
ghost use Rattle.dpl_orient.specs.Links.{AreLinksBelow};
ghost use Rattle.dpl_orient.specs.Tallies.{tally_at, AreTallies, more_by, moved_by, exchanged, GainsAt};

use crate::links::{Link, differs_by};
use std::alloc::{AllocError, Global};

/// Of a component: how many of its zones to others have sides that differ, and how many sides that agree.
#[derive(Clone, Copy, Drop)]
pub struct Tally {
    pub differing: usize,
    pub agreeing: usize,
}

impl Tally {
    ghost use Rattle.std.specs.Prelude.{◌≡◌, ◌<◌, ◌+◌, ◌^◌, true, false};
    ghost use Rattle.dpl_orient.specs.Tallies.{more_by, moved_by, exchanged};

    /// With one zone more, whose sides differ or agree.
    pub fn more_by(self, differs: bool) -> Tally
        requires { self.differing + self.agreeing + 1 < 2 ^ 64 }
        ensures { result ≡ more_by differs self }
    {
        if differs {
            Tally {
                differing: self.differing + 1,
                agreeing: self.agreeing,
            }
        } else {
            Tally {
                differing: self.differing,
                agreeing: self.agreeing + 1,
            }
        }
    }

    /// Where the sides of a zone, which agreed, now differ, or the other way round.
    pub fn moved_by(self, differs: bool) -> Tally
        requires few { self.differing + self.agreeing < 2 ^ 64 }
        requires agreed { differs ≡ true → 0 < self.agreeing }
        requires differed { differs ≡ false → 0 < self.differing }
        ensures { result ≡ moved_by differs self }
    {
        if differs {
            Tally {
                differing: self.differing + 1,
                agreeing: self.agreeing - 1,
            }
        } else {
            Tally {
                differing: self.differing - 1,
                agreeing: self.agreeing + 1,
            }
        }
    }

    /// Where the component itself is flipped.
    pub fn exchanged(self) -> Tally
        ensures { result ≡ exchanged self }
    {
        Tally {
            differing: self.agreeing,
            agreeing: self.differing,
        }
    }
}

/// The tallies of all components, where these are flipped.
pub fn tallies_of(alloc: Global, links: &[Link], flips: &[bool]) -> Result<Vec<Tally>, AllocError>
    requires { AreLinksBelow (length flips.now) links.now }
    ensures { IfOk result (λ v. AreTallies links.now flips.now v.items) }
{
    let none = Tally {
        differing: 0,
        agreeing: 0,
    };
    let mut tallies = vec![in alloc; none; flips.len()]?;
    for link in links {
        let root = link.from as usize;
        tallies[root] = tallies[root].more_by(differs_by(flips, link));
    }
    Ok(tallies)
}

/// Whether the flip of this component alone leaves fewer stitches. It doesn't where the component is held.
pub fn is_gain(tallies: &[Tally], held: Option<u32>, root: u32) -> bool
    ensures { IsTrue result ↔ GainsAt held tallies.now root }
{
    match tallies.get(root as usize) {
        Some(tally) => held != Some(root) && tally.agreeing < tally.differing,
        None => false,
    }
}

/// Exchanges the two counts of a component, which is flipped.
pub fn exchange(tallies: &mut [Tally], root: u32)
    requires { root < length tallies.old }
    ensures { tallies.new ≡ slice_set tallies.old root (exchanged (tally_at tallies.old root)) }
{
    tallies[root as usize] = tallies[root as usize].exchanged();
}
