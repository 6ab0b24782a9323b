//! Small expressions and programs, worked out.

ghost use Rattle.elm_meaning.specs.Examples.{Expressions, Crashes, Programs, Wires};

/// What some expressions evaluate to.
pub fn expressions()
    ensures { Expressions }
{}

/// What some expressions end with in place of a value.
pub fn crashes()
    ensures { Crashes }
{}

/// What some programs do.
pub fn programs()
    ensures { Programs }
{}

/// What some values are at a port.
pub fn wires()
    ensures { Wires }
{}
