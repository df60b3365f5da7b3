//! What follows for those who look for what is near an item.
ghost use Rattle.dpl_join.specs.Laws.{NearAreClose};

/// Two rectangles with near squares are closer than the rule by columns and by rows.
pub fn near_are_close()
    ensures { NearAreClose }
{}
