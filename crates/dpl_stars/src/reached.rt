//! A breadth-first walk over a graph.
ghost use Rattle.std.specs.Prelude.{◌≡◌, ℕ, List, ◌+◌, ◌^◌, ◌<◌, length, vec_len, IfOk, OnOk};
ghost use Rattle.dpl_stars.specs.Arcs.{AreChains};
ghost use Rattle.dpl_stars.specs.Growing.{root_in, reached_count, IsGrown, IsNoted, IsMet};
ghost use Rattle.dpl_stars.specs.Levels.{AreEdgesBelow};

use crate::chains::{Chains, arc};
use dpl_list::{Edge, Id};
use std::alloc::{AllocError, Global};

/// What a breadth-first walk over the numbers below `n` has reached: the root and the level of each number, with `n` as
/// the root of those that are not reached, and the reached ones in order.
#[derive(Drop)]
pub struct Reached {
    pub roots: Vec<Id>,
    pub levels: Vec<Id>,
    pub order: Vec<Id>,
}

/// The state of a walk that has reached nothing yet.
pub fn nothing(alloc: Global, n: Id) -> Result<Reached, AllocError>
    ensures { IfOk result (λ reached. (edges : List (ℕ × ℕ)) → IsGrown edges n 0 0 (reached_count reached) reached) }
{
    Ok(Reached {
        roots: vec![in alloc; n; n as usize]?,
        levels: vec![in alloc; 0; n as usize]?,
        order: Vec::with_capacity(alloc, n as usize)?,
    })
}

impl Reached {
    /// Notes the root and the level of a number.
    fn note(&mut self, v: Id, root: Id, level: Id) -> Result<(), AllocError>
        requires in_roots { v < vec_len self.old.roots }
        requires in_levels { v < vec_len self.old.levels }
        ensures { OnOk result (IsNoted v root level self.old self.new) }
    {
        self.order.push(v)?;
        self.roots[v as usize] = root;
        self.levels[v as usize] = level;
        Ok(())
    }

    /// Notes a number that is met one level further, if it was not reached before.
    fn meet(&mut self, n: Id, v: Id, root: Id, level: Id) -> Result<(), AllocError>
        requires in_roots { v < vec_len self.old.roots }
        requires in_levels { v < vec_len self.old.levels }
        requires fits { level + 1 < 2 ^ 64 }
        ensures { OnOk result (IsMet n v root (level + 1) self.old self.new) }
    {
        if self.roots[v as usize] == n {
            self.note(v, root, level + 1)?;
        }
        Ok(())
    }

    /// Meets all neighbours of the number at this place of the order.
    fn visit(
        &mut self,
        n: Id,
        edges: &[Edge],
        chains: &Chains,
        root: Id,
        head: usize,
    ) -> Result<(), AllocError>
        requires below { AreEdgesBelow n edges.now }
        requires chains { AreChains edges.now n (length edges.now + length edges.now) chains.now.last.items chains.now.before.items }
        requires root_in { root < n }
        requires some { head < reached_count self.old }
        requires grown { IsGrown edges.now n (root + 1) root head self.old }
        ensures { OnOk result (IsGrown edges.now n (root + 1) root (head + 1) self.new) }
    {
        let v = self.order[head];
        let level = self.levels[v as usize];
        let mut next = chains.last[v as usize];
        while next > 0 {
            let (_, to) = arc(edges, next - 1);
            self.meet(n, to, root, level)?;
            next = chains.before[next - 1];
        }
        Ok(())
    }

    /// Reaches the component of an unreached number.
    pub fn spread(
        &mut self,
        n: Id,
        edges: &[Edge],
        chains: &Chains,
        root: Id,
    ) -> Result<(), AllocError>
        requires below { AreEdgesBelow n edges.now }
        requires chains { AreChains edges.now n (length edges.now + length edges.now) chains.now.last.items chains.now.before.items }
        requires root_in { root < n }
        requires unreached { root_in self.old root ≡ n }
        requires grown { IsGrown edges.now n root root (reached_count self.old) self.old }
        ensures { OnOk result (IsGrown edges.now n (root + 1) (root + 1) (reached_count self.new) self.new) }
    {
        let mut head = self.order.len();
        self.note(root, root, 0)?;
        while head < self.order.len() {
            self.visit(n, edges, chains, root, head)?;
            head += 1;
        }
        Ok(())
    }
}
