//! What holds of expressions in typed programs.

ghost use Rattle.type_safety.specs.Binding.{GroupFitsScope};
ghost use Rattle.type_safety.specs.Expressions.{ExpressionsKeepTypes};
ghost use Rattle.type_safety.specs.Modules.{ModulesKeepTypes};
ghost use Rattle.type_safety.specs.Sample.{SampleMeets};

/// Functions without annotations that were checked fit the scope with their names, where the environment around them
/// fits the scope around them.
pub fn group_law()
    ensures { GroupFitsScope }
{}

/// Where the unions of a program are as they are declared, an expression whose items are solved is not Stuck, with any
/// fuel, and its value has the type that is wanted of it. It is said of expressions of whose branches, parameters and
/// destructured patterns nothing is reported missing, whose `let`s define each name once, and whose definitions use
/// what is bound before them. They take commands and subscriptions apart as their `map` does, and not otherwise.
pub fn expression_law()
    ensures { ExpressionsKeepTypes }
{}

/// Where the items of a module are solved, and what it imports is bound to what has its types, the declarations of the
/// module are not Stuck, with any fuel, and what they bind has its types. Its ports carry what the program's ports of
/// their names do.
pub fn module_law()
    ensures { ModulesKeepTypes }
{}

/// There is an expression of which the law of expressions speaks: `let x = 5 in x`.
pub fn example_law()
    ensures { SampleMeets }
{}
