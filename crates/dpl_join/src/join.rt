//! The pairs of items that lie close to one another.
ghost use Rattle.std.specs.Prelude.{◌≡◌, ◌<◌, IfOk};
ghost use Rattle.dpl_join.specs.Joins.{HaveHomes, IsPairOf};
ghost use Rattle.dpl_join.specs.Listing.{Lists};
ghost use Rattle.dpl_join.specs.Pairs.{IsPair};

use crate::items::{Item, Pair};
use crate::ruling::{Ruled, Ruling, ruling_for};
use crate::strips::{Strip, strips_of};
use crate::sweep::{Home, Place, pairs_among};
use std::alloc::{AllocError, Global};
use std::marker::Model;

/// Items in strips of rows, each of which can be asked for its pairs alone. A contract sees the items, the rule, how many strips there are, and in which of them each pair counts.
#[derive(Drop)]
pub struct Join {
    items: Vec<Item>,
    rule: u32,
    ruling: Ruling,
    strips: Vec<Strip>,
}

impl Model for Join {
    ghost use Rattle.std.specs.Prelude.{length, ◌≤ℤ◌};
    ghost use Rattle.std.specs.List.{All};
    ghost use Rattle.dpl_join.specs.declared.items.Item.{Item};
    ghost use Rattle.dpl_join.specs.Joins.{Joined};
    ghost use Rattle.dpl_join.specs.Strips.{AreFiled};

    ghost Value = { Joined };

    ghost view = { λ j. record { items = j.items.items; rule = j.rule; strips = length j.strips.items; first = j.ruling.first; shift = j.ruling.shift } };

    ghost invariant = { λ j. AreFiled j.items.items j.ruling.first j.ruling.shift j.rule j.strips.items × All (λ (item : Item). j.ruling.first ≤ℤ item.rect.y0) j.items.items };
}

impl Join {
    /// Items, of which those closer than `rule` are sought. More than 2^32 - 1 items are refused as out of memory.
    pub fn of(alloc: Global, items: Vec<Item>, rule: u32) -> Result<Join, AllocError>
        ensures items { IfOk result (λ j. j.items ≡ items.items) }
        ensures rule { IfOk result (λ j. j.rule ≡ rule) }
    {
        if (u32::MAX as usize) < items.len() {
            return Err(AllocError);
        }
        let Ruled { ruling, rooms } = ruling_for(alloc, items.as_slice(), rule)?;
        let strips = strips_of(alloc, items.as_slice(), &ruling, rule, rooms.as_slice())?;
        Ok(Join {
            items,
            rule,
            ruling,
            strips,
        })
    }

    /// The items.
    pub fn items(&self) -> &[Item]
        ensures { result.now ≡ self.now.items }
    {
        self.items.as_slice()
    }

    /// How many strips there are. Each pair counts in one of them.
    pub fn strips(&self) -> usize
        ensures count { result ≡ self.now.strips }
        ensures homes { HaveHomes self.now }
    {
        self.strips.len()
    }

    /// The pairs that count in a strip, each once, in no order.
    pub fn pairs_of_strip(&self, alloc: Global, strip: usize) -> Result<Vec<Pair>, AllocError>
        requires { strip < self.now.strips }
        ensures { IfOk result (λ v. Lists (IsPairOf self.now strip) v.items) }
    {
        let home = Home {
            ruling: self.ruling,
            strip,
        };
        let place = Place {
            rule: self.rule,
            home,
        };
        pairs_among(
            alloc,
            self.items.as_slice(),
            self.strips[strip].numbers(),
            &place,
        )
    }

    /// All pairs of items of different owners between which lie fewer than the rule's columns and fewer than its rows, each once, in no order.
    pub fn pairs(&self, alloc: Global) -> Result<Vec<Pair>, AllocError>
        ensures { IfOk result (λ v. Lists (IsPair self.now.rule self.now.items) v.items) }
    {
        pairs_of_strips(alloc, self)
    }

    /// The items, without taking memory.
    pub fn into_items(self) -> Vec<Item>
        ensures { result.items ≡ self.items }
    {
        self.items
    }
}

/// The pairs of all strips.
pub(crate) fn pairs_of_strips(alloc: Global, join: &Join) -> Result<Vec<Pair>, AllocError>
    ensures { IfOk result (λ v. Lists (IsPair join.now.rule join.now.items) v.items) }
{
    let mut pairs = Vec::new(alloc);
    let count = join.strips();
    for strip in 0..count {
        let more = join.pairs_of_strip(alloc, strip)?;
        pairs.extend_from_slice(more.as_slice())?;
    }
    Ok(pairs)
}
