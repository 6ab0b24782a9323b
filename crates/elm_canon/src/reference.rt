//! What a name means.

ghost use Rattle.std.specs.Prelude.{◌≡◌};
ghost use Rattle.elm_canon.specs.Names.{same_ref};

use elm_base::names::Name;

/// What a name means.
#[derive(Clone, Drop)]
pub enum Ref {
    /// A local name.
    Local(Name),
    /// A name of a module, by the module and the name: a value, a constructor as a function, or a port.
    Top(Name, Name),
}

/// Whether two names mean the same thing.
pub fn same_ref(first: &Ref, second: &Ref) -> bool
    ensures { result ≡ same_ref first.now second.now }
{
    match (first, second) {
        (Ref::Local(x), Ref::Local(y)) => x == y,
        (Ref::Top(m, x), Ref::Top(n, y)) => m == n && x == y,
        _ => false,
    }
}
