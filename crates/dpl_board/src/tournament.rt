//! Which of many blocks is the least.
ghost use Rattle.std.specs.Prelude.{◌≡◌, ◌≢◌, ◌⊎◌, ◌<◌, ◌↔◌, ℕ, None, IfOk, IsTrue, MatchOption};
ghost use Rattle.dpl_board.specs.Tournaments.{HasLeast, IsBefore, IsTournament, leaf_in};

use std::alloc::{AllocError, Global};

/// Leaves with a block or none, and above each two the lesser of them: of lesser k, or of the same k and lesser i.
#[derive(Drop)]
pub(crate) struct Tournament {
    pub leaves: u32,
    /// The nodes 2n and 2n + 1 are those below n. The root is node 1, and the leaves are those from `leaves` on.
    pub nodes: Vec<Option<(u32, u32)>>,
}

/// The lesser of two blocks; where one isn't there, the other.
fn lesser(one: Option<(u32, u32)>, other: Option<(u32, u32)>) -> Option<(u32, u32)>
    ensures either { (result ≡ one) ⊎ (result ≡ other) }
    ensures first { IsBefore result one }
    ensures second { IsBefore result other }
{
    let Some(block) = one else {
        return other;
    };
    let Some(second) = other else {
        return one;
    };
    if block.0 < second.0 || (block.0 == second.0 && block.1 <= second.1) {
        one
    } else {
        other
    }
}

/// Whether both are the same block, or neither is there.
fn is_same(one: Option<(u32, u32)>, other: Option<(u32, u32)>) -> bool
    ensures { IsTrue result ↔ (one ≡ other) }
{
    match (one, other) {
        (Some(block), Some(second)) => block.0 == second.0 && block.1 == second.1,
        (None, None) => true,
        _ => false,
    }
}

impl Tournament {
    /// So many leaves without a block.
    pub fn new(alloc: Global, leaves: u32) -> Result<Tournament, AllocError>
        ensures tree { IfOk result (λ t. IsTournament t) }
        ensures leaves { IfOk result (λ t. t.leaves ≡ leaves) }
        ensures none { IfOk result (λ t. (leaf : ℕ) → leaf_in t leaf ≡ None) }
    {
        let nodes = vec![in alloc; None; 2 * leaves as usize]?;
        Ok(Tournament { leaves, nodes })
    }

    /// The block at a leaf.
    pub fn get(&self, leaf: usize) -> Option<(u32, u32)>
        requires tree { IsTournament self.now }
        requires leaf { leaf < self.now.leaves }
        ensures { result ≡ leaf_in self.now leaf }
    {
        self.nodes[self.leaves as usize + leaf]
    }

    /// Changes what a leaf has, and then what the nodes above it have, up to one that stays as it is.
    pub fn set(&mut self, leaf: usize, block: Option<(u32, u32)>)
        requires tree { IsTournament self.old }
        requires leaf { leaf < self.old.leaves }
        ensures tree { IsTournament self.new }
        ensures leaves { self.new.leaves ≡ self.old.leaves }
        ensures leaf { leaf_in self.new leaf ≡ block }
        ensures others { (other : ℕ) → other ≢ leaf → leaf_in self.new other ≡ leaf_in self.old other }
    {
        let mut node = self.leaves as usize + leaf;
        self.nodes[node] = block;
        while node > 1 {
            node /= 2;
            let block = lesser(self.nodes[2 * node], self.nodes[2 * node + 1]);
            if is_same(self.nodes[node], block) {
                return;
            }
            self.nodes[node] = block;
        }
    }

    /// The least block at a leaf.
    pub fn least(&self) -> Option<(u32, u32)>
        requires { IsTournament self.now }
        ensures { MatchOption result ((leaf : ℕ) → leaf < self.now.leaves → leaf_in self.now leaf ≡ None) (λ block. HasLeast self.now block) }
    {
        if self.leaves == 0 {
            return None;
        }
        self.nodes[1]
    }
}
