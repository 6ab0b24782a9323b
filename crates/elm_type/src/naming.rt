//! Names for the variables of a type.

ghost use Rattle.std.specs.Prelude.{◌≡◌, ◌∷◌, ◌++◌, ◌+◌, ◌/◌, ◌%◌, ◌<◌, ◌≤◌, [], reverse, map, true, false, codes};
ghost use Rattle.std.specs.Prelude.{IfOk, OnOk, ℕ};
ghost use Rattle.std.specs.List.{flat_map};
ghost use Rattle.std.specs.Str.{bytes_eq};
ghost use Rattle.std.specs.HashSet as bag;
ghost use Rattle.elm_type.specs.Nodes.{leaves};
ghost use Rattle.elm_type.specs.View.{scheme_view};
ghost use Rattle.elm_type.specs.Naming.{suffix, candidate, next_name, given, constant_names, names_of};
ghost use Rattle.elm_type.specs.Used.{stem, counter, with_counter, SameNames, Kept};

use crate::class::Class;
use crate::frame::put;
use crate::node::{Leaf, Node};
use crate::scheme::{Kind, Scheme};
use elm_base::names::Name;
use elm_base::units::Units;
use std::alloc::{AllocError, Global};
use std::collections::HashSet;

/// For each class the place of a name, before which all names of the class are used.
#[derive(Clone, Copy)]
pub struct Counters {
    any: usize,
    number: usize,
    comparable: usize,
    appendable: usize,
    compappend: usize,
}

impl Counters {
    /// The counter of a class.
    fn of(self, class: Class) -> usize
        ensures { result ≡ counter class self }
    {
        match class {
            Class::Any => self.any,
            Class::Number => self.number,
            Class::Comparable => self.comparable,
            Class::Appendable => self.appendable,
            Class::CompAppend => self.compappend,
        }
    }

    /// The counters with another one of a class.
    fn with(self, class: Class, place: usize) -> Counters
        ensures { result ≡ with_counter class place self }
    {
        match class {
            Class::Any => Counters { any: place, ..self },
            Class::Number => Counters {
                number: place,
                ..self
            },
            Class::Comparable => Counters {
                comparable: place,
                ..self
            },
            Class::Appendable => Counters {
                appendable: place,
                ..self
            },
            Class::CompAppend => Counters {
                compappend: place,
                ..self
            },
        }
    }
}

/// Adds a number, unless it is 0.
fn put_suffix(alloc: Global, text: &mut Vec<u16>, number: usize) -> Result<(), AllocError>
    ensures { OnOk result (text.new.items ≡ text.old.items ++ suffix number) }
{
    if number == 0 {
        return Ok(());
    }
    let digits = number.to_string(alloc)?;
    put(text, digits.as_bytes())
}

/// Adds a letter, and the number of the round.
fn put_letter(alloc: Global, text: &mut Vec<u16>, place: usize) -> Result<(), AllocError>
    ensures { OnOk result (text.new.items ≡ text.old.items ++ candidate Class.Any place) }
{
    text.push(97 + (place % 26) as u16)?;
    put_suffix(alloc, text, place / 26)?;
    Ok(())
}

/// What a name of a class begins with.
fn stem(class: Class) -> &'static [u8]
    ensures { result.now ≡ stem class }
{
    match class {
        Class::Any => b"",
        Class::Number => b"number",
        Class::Comparable => b"comparable",
        Class::Appendable => b"appendable",
        Class::CompAppend => b"compappend",
    }
}

/// Adds a name of a class, by its place.
fn put_candidate(
    alloc: Global,
    text: &mut Vec<u16>,
    class: Class,
    place: usize,
) -> Result<(), AllocError>
    ensures { OnOk result (text.new.items ≡ text.old.items ++ candidate class place) }
{
    match class {
        Class::Any => {
            put_letter(alloc, text, place)?;
            Ok(())
        }
        other => {
            put(text, stem(other))?;
            put_suffix(alloc, text, place)?;
            Ok(())
        }
    }
}

/// The name of a class at a place.
fn candidate(alloc: Global, class: Class, place: usize) -> Result<Name, AllocError>
    ensures { IfOk result (λ name. name ≡ candidate class place) }
{
    let mut text = Vec::new(alloc);
    put_candidate(alloc, &mut text, class, place)?;
    Name::new(alloc, Units::from_vec(text))
}

/// The first place from `from` on, and before `end`, of a name that is not used, or else `end`.
fn first_free(
    alloc: Global,
    class: Class,
    used: &HashSet<Name>,
    from: usize,
    end: usize,
) -> Result<usize, AllocError>
    ensures bounds { IfOk result (λ r. from ≤ end → (from ≤ r) × (r ≤ end)) }
    ensures used { IfOk result (λ r. (m : ℕ) → from ≤ m → m < r → bag.contains bytes_eq used.now (candidate class m)
        ≡ true) }
    ensures free { IfOk result (λ r. r < end → bag.contains bytes_eq used.now (candidate class r) ≡ false) }
{
    for place in from..end {
        if !used.contains(&candidate(alloc, class, place)?) {
            return Ok(place);
        }
    }
    Ok(end)
}

/// Gives the next name of a class. Names of constants, and those that were given, are used.
fn give(
    alloc: Global,
    class: Class,
    constants: &[Name],
    names: &mut Vec<Name>,
    used: &mut HashSet<Name>,
    next: &mut Counters,
) -> Result<(), AllocError>
    requires { Kept used.old next.old (reverse names.old.items ++ constants.now) }
    ensures names { OnOk result (names.new.items ≡ names.old.items
        ++ next_name class (reverse names.old.items ++ constants.now) ∷ []) }
    ensures kept { OnOk result (Kept used.new next.new (reverse names.new.items ++ constants.now)) }
{
    let end = constants.len() + names.len();
    let place = first_free(alloc, class, used, next.of(class), end)?;
    let name = candidate(alloc, class, place)?;
    let _ = used.insert(name.clone()?)?;
    names.push(name)?;
    *next = next.with(class, place + 1);
    Ok(())
}

/// Adds the name of the constant of a node, if it has one.
fn put_constant(names: &mut Vec<Name>, node: &Node) -> Result<(), AllocError>
    ensures { OnOk result (names.new.items ≡ names.old.items ++ constant_names (leaves node.now)) }
{
    match node {
        Node::Open(Leaf::Fixed(constant), _) => {
            names.push(constant.name().clone()?)?;
            Ok(())
        }
        _ => Ok(()),
    }
}

/// The names of the constants of a type, in order of appearance.
fn constant_names(alloc: Global, nodes: &[Node]) -> Result<Vec<Name>, AllocError>
    ensures { IfOk result (λ names. names.items ≡ constant_names (flat_map leaves nodes.now)) }
{
    let mut names = Vec::new(alloc);
    for node in nodes {
        put_constant(&mut names, node)?;
    }
    Ok(names)
}

/// The set of these names.
fn set_of(alloc: Global, names: &[Name]) -> Result<HashSet<Name>, AllocError>
    ensures { IfOk result (λ set. SameNames set names.now) }
{
    let mut set = HashSet::new(alloc);
    for name in names {
        let _ = set.insert(name.clone()?)?;
    }
    Ok(set)
}

/// Names for variables of these kinds, beside constants of these names.
fn give_all(alloc: Global, kinds: &[Kind], constants: &[Name]) -> Result<Vec<Name>, AllocError>
    ensures { IfOk result (λ names. names.items ≡ given (map (λ k. k.class) kinds.now) constants.now) }
{
    let mut used = set_of(alloc, constants)?;
    let mut names = Vec::new(alloc);
    let mut next = Counters {
        any: 0,
        number: 0,
        comparable: 0,
        appendable: 0,
        compappend: 0,
    };
    for kind in kinds {
        give(
            alloc, kind.class, constants, &mut names, &mut used, &mut next,
        )?;
    }
    Ok(names)
}

/// The names of the variables of a scheme that has them in order of appearance, by their places, as `type_text` gives
/// them. The error means that memory ran out.
pub fn names_of(alloc: Global, scheme: &Scheme) -> Result<Vec<Name>, AllocError>
    ensures { IfOk result (λ names. names.items ≡ names_of (scheme_view scheme.now)) }
{
    let constants = constant_names(alloc, &scheme.ty.nodes)?;
    let names = give_all(alloc, &scheme.kinds, &constants)?;
    Ok(names)
}
