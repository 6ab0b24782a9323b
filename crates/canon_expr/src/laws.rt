//! Calls and chains of operators, worked out.

ghost use Rattle.canon_expr.specs.Examples.{EachMeans, ConsFunction, PipedLast, PipedTwice, Builds, WantsMore};
ghost use Rattle.canon_expr.specs.Examples.{ToTheLeft, ToTheRight, Decided, Power};

/// Each operator of the language has a meaning; a few calls and chains of operators.
pub fn examples()
    ensures each_means { EachMeans }
    ensures cons_function { ConsFunction }
    ensures piped_last { PipedLast }
    ensures piped_twice { PipedTwice }
    ensures builds { Builds }
    ensures wants_more { WantsMore }
    ensures to_the_left { ToTheLeft }
    ensures to_the_right { ToTheRight }
    ensures decided { Decided }
    ensures power { Power }
{}
