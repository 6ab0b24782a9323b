//! Parts of patterns, and what they ask for.
//!
//! Patterns are told by the vectors that hold them and their numbers there, so that a part stays small in proofs.

ghost use Rattle.std.specs.Prelude.{◌≡◌, [], drop, get_or, map, IfSome, IfNone};
ghost use Rattle.elm_canon.specs.Tree.{Anything};
ghost use Rattle.elm_canon.specs.View.{pattern_view, items_before, nil_pattern};
ghost use Rattle.js_emit.specs.Matrix.{ask};
ghost use Rattle.decision_tree.specs.Views.{part_view, ask_view};

use crate::test::Test;
use elm_canon::tree::Pattern;

/// A pattern, or what comes after the first items of one.
#[derive(Clone, Copy)]
pub enum Part<'b, 'a> {
    /// `_`
    Anything,
    /// The pattern of the branch with that number.
    Whole(&'b Vec<&'a Pattern>, usize),
    /// The pattern with that number, inside another one.
    Inside(&'a Vec<Pattern>, usize),
    /// A list of the items from that number on.
    List(&'a Vec<Pattern>, usize),
    /// The items from that number on, and the rest.
    Items(&'a Vec<Pattern>, usize, &'a Box<Pattern>),
}

/// The parts that a test leaves.
#[derive(Clone, Copy)]
pub enum Inner<'b, 'a> {
    Nothing,
    Each(&'a Vec<Pattern>),
    Two(Part<'b, 'a>, Part<'b, 'a>),
    /// So many that ask for nothing.
    Open(usize),
}

/// What a part asks for: nothing, or a test and then its parts.
#[derive(Clone, Copy)]
pub enum Ask<'b, 'a> {
    Nothing,
    First(Test<'a>, Inner<'b, 'a>),
}

/// What a list of the items from that number on asks for.
fn ask_list<'b, 'a>(items: &'a Vec<Pattern>, number: usize) -> Ask<'b, 'a>
    ensures { ask_view result ≡ ask (items_before nil_pattern (map pattern_view (drop number items.now.items))) }
{
    if items.len() <= number {
        return Ask::First(Test::Empty, Inner::Nothing);
    }
    let rest = Part::List(items, number + 1);
    Ask::First(Test::Item, Inner::Two(Part::Inside(items, number), rest))
}

/// What the items from that number on ask for before a rest, if there is one.
fn ask_items<'b, 'a>(
    items: &'a Vec<Pattern>,
    number: usize,
    rest: &'a Box<Pattern>,
) -> Option<Ask<'b, 'a>>
    ensures some { IfSome result (λ a. ask_view a
        ≡ ask (items_before (pattern_view rest.now.value) (map pattern_view (drop number items.now.items)))) }
    ensures none { IfNone result (drop number items.now.items ≡ []) }
{
    if items.len() <= number {
        return None;
    }
    let rest = Part::Items(items, number + 1, rest);
    Some(Ask::First(Test::Item, Inner::Two(Part::Inside(items, number), rest)))
}

/// What a pattern asks for.
#[cycle(asking)]
#[tactic(auto, using(elm_canon::proofs::Views::anything_pattern, elm_canon::proofs::Views::named_pattern, elm_canon::proofs::Views::as_pattern, elm_canon::proofs::Views::exact_pattern, elm_canon::proofs::Views::construct_pattern, elm_canon::proofs::Views::pattern_of_tuple, elm_canon::proofs::Views::list_pattern, elm_canon::proofs::Views::items_pattern, elm_canon::proofs::Views::fields_pattern, elm_canon::proofs::Views::located_pattern, crate::proofs::Asking::listed, crate::proofs::Asking::tuple_asks))]
fn ask_pattern<'b, 'a>(pattern: &'a Pattern) -> Ask<'b, 'a>
    ensures { ask_view result ≡ ask (pattern_view pattern.now) }
{
    match pattern {
        Pattern::Anything | Pattern::Named(_) | Pattern::Fields(_) => Ask::Nothing,
        Pattern::As(pattern, _) | Pattern::Located(_, pattern) => ask_pattern(pattern),
        Pattern::Exactly(literal) => Ask::First(Test::Literal(literal), Inner::Nothing),
        Pattern::Construct(union, alternative, parts) => {
            Ask::First(Test::Constructor(union, alternative), Inner::Each(parts))
        }
        Pattern::Tuple(parts) => Ask::First(Test::Tuple(parts.len()), Inner::Each(parts)),
        Pattern::List(items) => ask_list(items, 0),
        Pattern::Items(items, rest) => match ask_items(items, 0, rest) {
            Some(ask) => ask,
            None => ask_pattern(rest),
        },
    }
}

/// What the pattern of a branch asks for.
fn ask_whole<'b, 'a>(patterns: &'b Vec<&'a Pattern>, number: usize) -> Ask<'b, 'a>
    ensures { ask_view result
        ≡ ask (get_or (map (λ p. pattern_view p.now) patterns.now.items) number Anything) }
{
    if patterns.len() <= number {
        return Ask::Nothing;
    }
    ask_pattern(patterns[number])
}

/// What a pattern inside another one asks for.
fn ask_inside<'b, 'a>(patterns: &'a Vec<Pattern>, number: usize) -> Ask<'b, 'a>
    ensures { ask_view result ≡ ask (get_or (map pattern_view patterns.now.items) number Anything) }
{
    if patterns.len() <= number {
        return Ask::Nothing;
    }
    ask_pattern(&patterns[number])
}

/// What a part asks for.
pub fn ask_part<'b, 'a>(part: Part<'b, 'a>) -> Ask<'b, 'a>
    ensures { ask_view result ≡ ask (part_view part.entry) }
{
    match part {
        Part::Anything => Ask::Nothing,
        Part::Whole(patterns, number) => ask_whole(patterns, number),
        Part::Inside(patterns, number) => ask_inside(patterns, number),
        Part::List(items, number) => ask_list(items, number),
        Part::Items(items, number, rest) => match ask_items(items, number, rest) {
            Some(ask) => ask,
            None => ask_pattern(rest),
        },
    }
}
