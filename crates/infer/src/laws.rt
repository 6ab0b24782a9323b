//! Where the items of a module stop.

ghost use Rattle.infer.specs.Inside.{StopsInside};

/// Where the items of a module stop, the variables of the bad item are variables of the store.
pub fn stop_law()
    ensures { StopsInside }
{}
