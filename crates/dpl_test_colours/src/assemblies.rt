//! As many workers at once as a pool is asked for.
ghost use Rattle.std.specs.Prelude.{[], replicate};

use crate::jobs::Bare;
use dpl_pool::run_pool;
use dpl_test_gates::Assembly;
use std::test::*;

#[test]
fn as_many_workers_come_as_a_pool_is_asked_for(rt: HostRuntime) -> Result<(), Fail> {
    for &workers in &[3, 64u32] {
        assert!(rt; workers >= 1 && workers <= 64);
        let gate = Assembly::new(workers);
        let state = run_pool(&rt, rt.alloc(), workers, &Bare { tiles: 64 }, &gate)?;
        assert!(rt; !gate.has_given_up() && state.history().len() == 64);
    }
    Ok(())
}
