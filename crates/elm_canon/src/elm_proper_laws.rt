//! What holds of the constructors of tuples and lists.

ghost use Rattle.std.specs.Prelude.{◌≡◌, ℕ, ◌<◌, true};
ghost use Rattle.elm_canon.specs.Unions.{TupleUnion, ListUnion, tuple_alternative, nil_alternative, cons_alternative};
ghost use Rattle.elm_canon.specs.Constructors.{is_constructor};

/// The two constructors of lists are constructors, and so is the one of tuples of fewer than 2 ^ 32 parts.
pub fn constructors_law()
    ensures empty { is_constructor ListUnion nil_alternative ≡ true }
    ensures item { is_constructor ListUnion cons_alternative ≡ true }
    ensures tuple { (n : ℕ) → n < 4294967296 → is_constructor (TupleUnion n) (tuple_alternative n) ≡ true }
{}
