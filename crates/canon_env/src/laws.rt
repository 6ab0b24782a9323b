//! What follows from the definitions of names and faults.

ghost use Rattle.canon_env.specs.Order.{OneOrder};

/// At most one list has the same faults in order.
pub fn order_law()
    ensures { OneOrder }
{}
