//! Patterns.

#![tactic(auto)]

ghost use Rattle.std.specs.Prelude.{OnOk};
ghost use Rattle.elm_grammar.specs.declared.action.Action.TheVariants.{BracketPattern, ConstructAlone, ConstructOf};
ghost use Rattle.elm_grammar.specs.declared.action.Action.TheVariants.{FieldsPatternOf, ListPatternOf, NegativePattern};
ghost use Rattle.elm_grammar.specs.declared.action.Action.TheVariants.{PatternOf, WordPattern};
ghost use Rattle.elm_values.specs.Stack.{Acts};

use crate::lists::turned;
use crate::make::{bracketed_pattern, conses, named, patterns};
use crate::stack::{put_pattern, take_pattern, take_patterns, take_word, take_words};
use crate::store::Store;
use crate::value::Begun;
use elm_tree::tree::Pattern;
use std::alloc::{AllocError, Global};

/// A pattern, the others and a name.
pub fn pattern_of(alloc: Global, stacks: &mut Store) -> Result<(), AllocError>
    ensures { OnOk result (Acts PatternOf stacks.old stacks.new) }
{
    let begun = take_pattern(stacks);
    let others = take_patterns(alloc, stacks);
    let name = take_words(alloc, stacks);
    let whole = conses(alloc, begun, others)?;
    let made = named(alloc, whole, name)?;
    put_pattern(stacks, made)
}

/// A constructor and its arguments.
pub fn construct(alloc: Global, stacks: &mut Store) -> Result<(), AllocError>
    ensures { OnOk result (Acts ConstructOf stacks.old stacks.new) }
{
    let place = take_word(stacks);
    let arguments = patterns(alloc, take_patterns(alloc, stacks))?;
    put_pattern(
        stacks,
        Begun {
            place,
            pattern: Pattern::Construct(place, arguments),
        },
    )
}

/// A constructor without arguments.
pub fn construct_alone(alloc: Global, stacks: &mut Store) -> Result<(), AllocError>
    ensures { OnOk result (Acts ConstructAlone stacks.old stacks.new) }
{
    let place = take_word(stacks);
    put_pattern(
        stacks,
        Begun {
            place,
            pattern: Pattern::Construct(place, Vec::new(alloc)),
        },
    )
}

/// A pattern of one word.
pub fn word(stacks: &mut Store) -> Result<(), AllocError>
    ensures { OnOk result (Acts WordPattern stacks.old stacks.new) }
{
    let place = take_word(stacks);
    put_pattern(
        stacks,
        Begun {
            place,
            pattern: Pattern::OneWord(place),
        },
    )
}

/// `-1`
pub fn negative(stacks: &mut Store) -> Result<(), AllocError>
    ensures { OnOk result (Acts NegativePattern stacks.old stacks.new) }
{
    let place = take_word(stacks);
    let number = take_word(stacks);
    put_pattern(
        stacks,
        Begun {
            place,
            pattern: Pattern::Negative(place, number),
        },
    )
}

/// Patterns in parentheses.
pub fn brackets(alloc: Global, stacks: &mut Store) -> Result<(), AllocError>
    ensures { OnOk result (Acts BracketPattern stacks.old stacks.new) }
{
    let place = take_word(stacks);
    let list = take_patterns(alloc, stacks);
    let pattern = bracketed_pattern(alloc, place, list)?;
    put_pattern(stacks, Begun { place, pattern })
}

/// `[ p, q ]`
pub fn list(alloc: Global, stacks: &mut Store) -> Result<(), AllocError>
    ensures { OnOk result (Acts ListPatternOf stacks.old stacks.new) }
{
    let place = take_word(stacks);
    let items = patterns(alloc, take_patterns(alloc, stacks))?;
    put_pattern(
        stacks,
        Begun {
            place,
            pattern: Pattern::List(place, items),
        },
    )
}

/// `{ x, y }`
pub fn fields(alloc: Global, stacks: &mut Store) -> Result<(), AllocError>
    ensures { OnOk result (Acts FieldsPatternOf stacks.old stacks.new) }
{
    let place = take_word(stacks);
    let names = turned(take_words(alloc, stacks));
    put_pattern(
        stacks,
        Begun {
            place,
            pattern: Pattern::Fields(place, names),
        },
    )
}
