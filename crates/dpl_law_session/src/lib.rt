//! Laws of sessions: what takes no step.
#![tactic(auto)]

ghost use Rattle.dpl_law_session.specs.Still.{CoveredTakesNoStep, NoChangeTakesNoStep};

/// Edits after which the layer has the squares that it had take no step, and so it is with a rectangle that is added to a layer which covers it.
pub fn no_change_takes_no_step()
    ensures same { NoChangeTakesNoStep }
    ensures covered { CoveredTakesNoStep }
{}
