//! What holds of the order of any modules, and small graphs worked out.

ghost use Rattle.std.specs.Prelude.{◌≡◌, ℕ, List, []};
ghost use Rattle.import_graph.specs.Order.{IsOrder, IsRing};
ghost use Rattle.import_graph.specs.Examples.{Diamond, Later, Circle, Alone};

/// Modules have one order or one ring, and never both.
pub fn module_order_law()
    ensures one_order { (uses : List (List ℕ)) (order other : List ℕ) → IsOrder uses [] order → IsOrder uses [] other
        → order ≡ other }
    ensures one_ring { (uses : List (List ℕ)) (ring other : List ℕ) → IsRing uses ring → IsRing uses other → ring
        ≡ other }
    ensures not_both { (uses : List (List ℕ)) (order ring : List ℕ) → IsOrder uses [] order → IsRing uses ring → ⊥ }
{}

/// The orders and rings of small graphs.
pub fn examples()
    ensures diamond { Diamond }
    ensures later { Later }
    ensures circle { Circle }
    ensures alone { Alone }
{}
