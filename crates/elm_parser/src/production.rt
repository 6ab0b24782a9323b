//! What productions and tokens are to the lists and constructs around them.

ghost use Rattle.std.specs.Prelude.{◌≡◌, ◌&&◌, nat_eq, slice_get, option_map};
ghost use Rattle.std.specs.List.{list_any};
ghost use Rattle.elm_grammar.specs.Table.{elm};
ghost use Rattle.parse_machine.specs.Grammar.{production};
ghost use Rattle.parse_machine.specs.Rows.{production_of};
ghost use Rattle.elm_parser.specs.Faults.{first_word, is_one_of, openers, operators, lists, entries, is_of};
ghost use Rattle.elm_parser.specs.Faults.{begins_with, is_named, annotates, size, is_empty, ends};

use elm_grammar::table::rules;
use parse_machine::table::{Rule, Symbol};

/// The nonterminals that go on with a chain of operators, with the parts of a tuple, or with the entries of a block.
const LISTS: [u8; 12] = [39, 40, 57, 34, 69, 0, 1, 2, 5, 6, 48, 49];

/// The nonterminals of the entries of a block.
const ENTRIES: [u8; 3] = [19, 18, 50];

/// The nonterminals that end the entries of a block, where they have nothing in them.
const ENDS: [u8; 2] = [6, 49];

/// The classes of the tokens that open a construct.
const OPENERS: [u8; 7] = [15, 17, 19, 33, 31, 28, 27];

/// The classes of the operators of chains.
const OPERATORS: [u8; 4] = [10, 11, 14, 12];

/// A token that opens a construct, as a set of classes.
const OPENING: [u64; 7] = [
    1 << 15,
    1 << 17,
    1 << 19,
    1 << 33,
    1 << 31,
    1 << 28,
    1 << 27,
];

/// A name, and a colon, as sets of classes.
const NAME: u64 = 1;

const COLON: u64 = 1 << 24;

fn has(numbers: &[u8], number: u8) -> bool
    ensures { result ≡ is_one_of numbers.now number }
{
    numbers.iter().any(|other| *other == number)
}

fn has_set(sets: &[u64], set: u64) -> bool
    ensures { result ≡ list_any (λ one. nat_eq one set) sets.now }
{
    sets.iter().any(|one| *one == set)
}

fn lookup(rules: &[Rule<'static>], number: u16) -> Option<Rule<'static>>
    ensures { result ≡ slice_get rules.now number }
{
    match rules.get(number as usize) {
        Some(rule) => Some(*rule),
        None => None,
    }
}

fn rule_of(number: u16) -> Option<Rule<'static>>
    ensures { option_map production_of result ≡ production elm number }
{
    lookup(rules(), number)
}

fn is_of(nonterminals: &[u8], number: u16) -> bool
    ensures { result ≡ is_of nonterminals.now number }
{
    match rule_of(number) {
        Some(rule) => has(nonterminals, rule.left),
        None => false,
    }
}

/// The classes of the token that a production begins with.
fn first_word(number: u16) -> Option<u64>
    ensures { result ≡ first_word (production elm number) }
{
    match rule_of(number)?.right {
        [Symbol::Word(set), ..] => Some(*set),
        _ => None,
    }
}

/// How many symbols a production has.
pub(crate) fn size(number: u16) -> usize
    ensures { result ≡ size number }
{
    match rule_of(number) {
        Some(rule) => rule.right.len(),
        None => 0,
    }
}

/// Whether a production opens a construct.
pub(crate) fn opens(number: u16) -> bool
    ensures { result ≡ begins_with openers number }
{
    match first_word(number) {
        Some(set) => has_set(&OPENING, set),
        None => false,
    }
}

/// Whether a production goes on with the list around it.
pub(crate) fn goes_on(number: u16) -> bool
    ensures { result ≡ is_of lists number }
{
    is_of(&LISTS, number)
}

/// Whether a production is an entry of a block.
pub(crate) fn is_entry(number: u16) -> bool
    ensures { result ≡ is_of entries number }
{
    is_of(&ENTRIES, number)
}

/// Whether it is an entry that begins with a name.
pub(crate) fn is_named(number: u16) -> bool
    ensures { result ≡ is_named number }
{
    is_entry(number) && first_word(number) == Some(NAME)
}

/// Whether a production follows the name in an annotation.
pub(crate) fn annotates(number: u16) -> bool
    ensures { result ≡ annotates number }
{
    first_word(number) == Some(COLON)
}

/// Whether a production ends the entries of a block.
pub(crate) fn ends_block(number: u16) -> bool
    ensures { result ≡ (is_of ends number && is_empty number) }
{
    is_of(&ENDS, number) && is_empty(number)
}

fn is_empty(number: u16) -> bool
    ensures { result ≡ is_empty number }
{
    size(number) == 0
}

/// Whether a token of this class opens a construct.
pub(crate) fn is_opener(class: u8) -> bool
    ensures { result ≡ is_one_of openers class }
{
    has(&OPENERS, class)
}

/// Whether a token of this class is an operator of a chain.
pub(crate) fn is_operator(class: u8) -> bool
    ensures { result ≡ is_one_of operators class }
{
    has(&OPERATORS, class)
}
