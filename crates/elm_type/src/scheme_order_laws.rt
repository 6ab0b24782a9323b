//! What holds of schemes in one form.

ghost use Rattle.elm_type.specs.Order.{OneOrder, SameNames};

/// Names in ascending order, each once, are determined by which names they are, and are these.
pub fn order_law()
    ensures one { OneOrder }
    ensures same { SameNames }
{}
