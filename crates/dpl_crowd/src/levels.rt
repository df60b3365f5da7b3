//! Levels of numbers, one after another.
ghost use Rattle.std.specs.Prelude.{◌≡◌, ◌+◌, ◌<◌, IfOk, OnOk, length};
ghost use Rattle.std.specs.List.{All, Contains};
ghost use Rattle.dpl_crowd.specs.Crowds.{graph_in};
ghost use Rattle.dpl_crowd.specs.Walking.{AreLevelsTo, IsBeside, IsFront, Meets, nowhere};

use crate::near::Crowd;
use dpl_base::Id;
use std::alloc::{AllocError, Global};

/// The level of a number that isn't reached.
pub(crate) const NOWHERE: Id = Id::MAX;

/// Puts a number that isn't reached on a level.
fn meet(levels: &mut [Id], next: &mut Vec<Id>, v: Id, level: Id) -> Result<(), AllocError>
    requires known { v < length levels.old }
    requires level { level < nowhere }
    ensures { OnOk result (Meets (λ w. w ≡ v) level levels.old levels.new next.old.items next.new.items) }
{
    if levels[v as usize] == NOWHERE {
        next.push(v)?;
        levels[v as usize] = level;
    }
    Ok(())
}

/// Puts those of the numbers that aren't reached on a level.
fn meet_all(
    levels: &mut [Id],
    next: &mut Vec<Id>,
    found: &[Id],
    level: Id,
) -> Result<(), AllocError>
    requires known { All (λ v. v < length levels.old) found.now }
    requires level { level < nowhere }
    ensures { OnOk result (Meets (Contains found.now) level levels.old levels.new next.old.items next.new.items) }
{
    for v in found {
        meet(levels, next, *v, level)?;
    }
    Ok(())
}

/// Puts the neighbours of these pieces that aren't reached on a level.
fn meet_around(
    alloc: Global,
    crowd: &Crowd<'_>,
    levels: &mut [Id],
    next: &mut Vec<Id>,
    front: &[Id],
    level: Id,
) -> Result<(), AllocError>
    requires each { length levels.old ≡ length crowd.now.parts }
    requires known { All (λ v. v < length levels.old) front.now }
    requires level { level < nowhere }
    ensures { OnOk result (Meets (IsBeside (graph_in crowd.now) front.now) level levels.old levels.new next.old.items next.new.items) }
{
    for v in front {
        let found = crowd.neighbours(alloc, *v)?;
        meet_all(levels, next, &found, level)?;
    }
    Ok(())
}

/// The levels of pieces up to some distance from the first piece, with those of the last level.
#[derive(Drop)]
pub(crate) struct Walk {
    pub(crate) levels: Vec<Id>,
    pub(crate) front: Vec<Id>,
}

/// The first piece alone.
pub(crate) fn start(alloc: Global, crowd: &Crowd<'_>) -> Result<Walk, AllocError>
    requires { 0 < length crowd.now.parts }
    ensures levels { IfOk result (λ walk. AreLevelsTo (graph_in crowd.now) 0 (length crowd.now.parts) 0 walk.levels.items) }
    ensures front { IfOk result (λ walk. IsFront 0 walk.levels.items walk.front.items) }
{
    let mut levels = vec![in alloc; NOWHERE; crowd.count() as usize]?;
    levels[0] = 0;
    let mut front = Vec::new(alloc);
    front.push(0)?;
    Ok(Walk { levels, front })
}

impl Walk {
    /// Goes one level further.
    pub(crate) fn advance(
        &mut self,
        alloc: Global,
        crowd: &Crowd<'_>,
        depth: Id,
    ) -> Result<(), AllocError>
        requires deep { depth + 1 < nowhere }
        requires levels { AreLevelsTo (graph_in crowd.now) 0 (length crowd.now.parts) depth self.old.levels.items }
        requires front { IsFront depth self.old.levels.items self.old.front.items }
        ensures levels { OnOk result (AreLevelsTo (graph_in crowd.now) 0 (length crowd.now.parts) (depth + 1) self.new.levels.items) }
        ensures front { OnOk result (IsFront (depth + 1) self.new.levels.items self.new.front.items) }
    {
        let mut next = Vec::new(alloc);
        meet_around(
            alloc,
            crowd,
            &mut self.levels,
            &mut next,
            &self.front,
            depth + 1,
        )?;
        self.front = next;
        Ok(())
    }
}
