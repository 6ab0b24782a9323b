//! How walks are put together.

ghost use Rattle.type_walks.specs.Laws.{WalkGoes, GoesFurther, StopsAtOnce, StopsAfter, StopsEarlier};
ghost use Rattle.type_walks.specs.Laws.{Rests, GoesOn, Widens, Forgets};

/// A walk of no items changes nothing. Two walks one after the other, in regions that are apart, are one. A walk is one
/// in a larger region too, and one that ends with fewer links.
pub fn walk_law()
    ensures rests { Rests }
    ensures goes_on { GoesOn }
    ensures widens { Widens }
    ensures forgets { Forgets }
{}

/// What stood for the items so far stands for more of them after a walk.
pub fn progress_law()
    ensures walk { WalkGoes }
    ensures further { GoesFurther }
{}

/// Where an item clashes the items stop, whatever went before and comes later.
pub fn stop_law()
    ensures at_once { StopsAtOnce }
    ensures after { StopsAfter }
    ensures earlier { StopsEarlier }
{}
