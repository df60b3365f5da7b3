//! What is left once all edges are passed.
ghost use Rattle.std.specs.Prelude.{ℤ, ◌^◌, ◌<ℤ◌, OnOk};
ghost use Rattle.dpl_sweep.specs.Rows.{AreRows, IsSmall};
ghost use Rattle.dpl_sweep.specs.Closing.{PutsDown};

use crate::bands::{Bands, Parts, take_apart};
use crate::run::put_run;
use dpl_spec_split::Rect;
use std::alloc::AllocError;

impl Bands {
    /// Puts down the runs of all rows, from `low` up to but not `high`, each up to the column that it is known to.
    pub fn put_down(self, low: i32, high: i32, pieces: &mut Vec<Rect>) -> Result<(), AllocError>
        requires order { low <ℤ high }
        requires small { IsSmall (2 ^ 62) self }
        requires rows { (x : ℤ) × AreRows low high x self }
        ensures { OnOk result (PutsDown low high self pieces.old.items pieces.new.items) }
    {
        match take_apart(self) {
            Parts::Whole(run) => put_run(&run, low, high, pieces)?,
            Parts::Split(below, row, above) => {
                below.put_down(low, row, pieces)?;
                above.put_down(row, high, pieces)?;
            }
        }
        Ok(())
    }
}
