//! What classes ask of types.

ghost use Rattle.std.specs.Prelude.{◌≡◌, ◌||◌};
ghost use Rattle.elm_type.specs.Classes.{meet, is_named, is_int, is_char, is_string, asks, allows};
ghost use Rattle.elm_type.specs.Heads.{type_head};

use crate::ascii::is_text;
use crate::class::Class;
use crate::head::Head;

/// What a class asks of a type with parts.
#[derive(Clone, Copy, Debug)]
pub enum Demand {
    /// No such type meets the class.
    Never,
    /// Each such type meets the class.
    Always,
    /// A type meets the class where each of its parts meets this class.
    OfParts(Class),
}

/// The outermost form of a type that is no variable.
#[derive(Clone, Copy)]
pub enum TypeHead<'a> {
    /// A type of this head, with so many parts.
    Made(&'a Head, usize),
    /// A record.
    Record,
}

/// The greatest class below both, if some type meets both.
pub fn meet(first: Class, second: Class) -> Option<Class>
    ensures { result ≡ meet first second }
{
    match (first, second) {
        (Class::Any, other) | (other, Class::Any) => Some(other),
        (Class::Number, Class::Number | Class::Comparable) => Some(Class::Number),
        (Class::Comparable, Class::Number) => Some(Class::Number),
        (Class::Number, _) | (_, Class::Number) => None,
        (Class::Comparable, Class::Comparable) => Some(Class::Comparable),
        (Class::Appendable, Class::Appendable) => Some(Class::Appendable),
        _ => Some(Class::CompAppend),
    }
}

/// Whether the head is that of a type of the module `home` with the name `name`.
fn is_named(head: &Head, home: &[u8], name: &[u8]) -> bool
    ensures { result ≡ is_named home.now name.now head.now }
{
    match head {
        Head::Named(of, named) => is_text(of, home) && is_text(named, name),
        Head::Function => false,
        Head::Tuple => false,
    }
}

/// What the class `class` asks of a type with the head `head` and `parts` parts. The unit `()` is not comparable.
pub fn asks(class: Class, head: &Head, parts: usize) -> Demand
    ensures { result ≡ asks class head.now parts }
{
    match class {
        Class::Any => Demand::Always,
        Class::Number => asks_number(head, parts),
        Class::Comparable => asks_comparable(head, parts),
        Class::Appendable => asks_appendable(head, parts),
        Class::CompAppend => asks_compappend(head, parts),
    }
}

/// Whether some type with the head `head` meets the class `class`.
pub fn allows(class: Class, head: TypeHead<'_>) -> bool
    ensures { result ≡ allows class (type_head head.entry) }
{
    match head {
        TypeHead::Made(of, parts) => !matches!(asks(class, of, parts), Demand::Never),
        TypeHead::Record => matches!(class, Class::Any),
    }
}

fn asks_number(head: &Head, parts: usize) -> Demand
    ensures { result ≡ asks Class.Number head.now parts }
{
    if is_named(head, b"Basics", b"Int") && parts == 0 {
        Demand::Always
    } else {
        Demand::Never
    }
}

/// Whether the head is `Int`, `Char` or `String`.
fn is_plain(head: &Head) -> bool
    ensures { result ≡ (is_int head.now || (is_char head.now || is_string head.now)) }
{
    is_named(head, b"Basics", b"Int")
        || is_named(head, b"Char", b"Char")
        || is_named(head, b"String", b"String")
}

fn asks_comparable(head: &Head, parts: usize) -> Demand
    ensures { result ≡ asks Class.Comparable head.now parts }
{
    if is_plain(head) && parts == 0 {
        return Demand::Always;
    }
    let is_list = is_named(head, b"List", b"List") && parts == 1;
    if is_list || matches!(head, Head::Tuple) && parts != 0 {
        Demand::OfParts(Class::Comparable)
    } else {
        Demand::Never
    }
}

fn asks_appendable(head: &Head, parts: usize) -> Demand
    ensures { result ≡ asks Class.Appendable head.now parts }
{
    let is_string = is_named(head, b"String", b"String") && parts == 0;
    if is_string || is_named(head, b"List", b"List") && parts == 1 {
        Demand::Always
    } else {
        Demand::Never
    }
}

fn asks_compappend(head: &Head, parts: usize) -> Demand
    ensures { result ≡ asks Class.CompAppend head.now parts }
{
    if is_named(head, b"String", b"String") && parts == 0 {
        return Demand::Always;
    }
    if is_named(head, b"List", b"List") && parts == 1 {
        Demand::OfParts(Class::Comparable)
    } else {
        Demand::Never
    }
}
