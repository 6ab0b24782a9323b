//! The text of a pattern, by its parts.

ghost use Rattle.std.specs.Prelude.{◌≡◌, ◌<◌, ◌+◌, ◌∷◌, ◌++◌, [], reverse, length, List, OnOk, IfOk};
ghost use Rattle.elm_canon.specs.Tree as plain;
ghost use Rattle.pattern_check.specs.Starts.{start_view, part_view, parts_view};
ghost use Rattle.pattern_check.specs.Built.{made, unlisted};
ghost use Rattle.pattern_check.specs.Text as spelled;
ghost use Rattle.pattern_check.specs.Written as written;
ghost use Rattle.pattern_check.specs.Written.{pending, rest};

use crate::start::{Start, arity};
use elm_base::names::Name;
use elm_base::quoted::write_hex4;
use elm_canon::tree::Literal;
use elm_canon::unions::{Union, UnionShape};
use itoa::Buffer;
use std::alloc::{AllocError, Global};

/// Where a pattern stands.
#[derive(Clone, Copy)]
pub enum Around {
    /// Where it needs no brackets.
    Alone,
    /// Before `::`.
    Item,
    /// As an argument of a constructor.
    Argument,
}

/// How a pattern is written.
#[derive(Clone, Copy)]
pub enum Form {
    /// `_` or a literal.
    Leaf,
    /// `( p, q )` or `()`.
    Tuple,
    /// `p :: q` or `[]`.
    Chain,
    /// A constructor and its arguments.
    Applied,
}

/// What is written of the parts that are left.
#[derive(Clone, Copy)]
pub enum Kind {
    /// Arguments of a constructor, a blank before each.
    Arguments,
    /// Parts of a tuple.
    Parts,
    /// The same, with a comma before each.
    MoreParts,
    /// An item and the rest of a list.
    Items,
    /// The same, with `::` before each.
    MoreItems,
}

/// What is written after the last part.
#[derive(Clone, Copy)]
pub enum Closing {
    Nothing,
    Bracket,
    TupleEnd,
}

/// So many parts that are left, what is written of them, and what is written after them.
#[derive(Clone, Copy)]
pub struct Rest {
    pub kind: Kind,
    pub left: usize,
    pub closing: Closing,
}

/// Adds a text in ASCII.
fn put(text: &mut Vec<u16>, ascii: &[u8]) -> Result<(), AllocError>
    ensures { OnOk result (text.new.items ≡ text.old.items ++ ascii.now) }
{
    for byte in ascii {
        text.push(u16::from(*byte))?;
    }
    Ok(())
}

/// Adds a unit of a literal in such quotes.
fn put_unit(alloc: Global, text: &mut Vec<u16>, quote: u16, unit: u16) -> Result<(), AllocError>
    ensures { OnOk result (text.new.items ≡ text.old.items ++ spelled.unit_text quote unit) }
{
    if unit == quote || unit == 92 {
        text.push(92)?;
        text.push(unit)?;
        return Ok(());
    }
    if unit == 10 {
        return put(text, b"\\n");
    }
    if unit == 13 {
        return put(text, b"\\r");
    }
    if unit == 9 {
        return put(text, b"\\t");
    }
    if unit < 32 || (127 <= unit && unit < 160) {
        let mut digits = Vec::new(alloc);
        write_hex4(&mut digits, unit)?;
        put(text, b"\\u{")?;
        put(text, &digits)?;
        return put(text, b"}");
    }
    text.push(unit)?;
    Ok(())
}

/// Adds the units of a literal in such quotes.
fn put_units(
    alloc: Global,
    text: &mut Vec<u16>,
    quote: u16,
    units: &[u16],
) -> Result<(), AllocError>
    ensures { OnOk result (text.new.items ≡ text.old.items ++ spelled.units_text quote units.now) }
{
    for unit in units {
        put_unit(alloc, text, quote, *unit)?;
    }
    Ok(())
}

/// Adds the units of a literal with its quotes.
fn put_quoted(
    alloc: Global,
    text: &mut Vec<u16>,
    quote: u16,
    units: &[u16],
) -> Result<(), AllocError>
    ensures { OnOk result (text.new.items ≡ text.old.items ++ spelled.quoted_text quote units.now) }
{
    text.push(quote)?;
    put_units(alloc, text, quote, units)?;
    text.push(quote)?;
    Ok(())
}

/// Adds a number.
fn put_int(text: &mut Vec<u16>, value: i64) -> Result<(), AllocError>
    ensures { OnOk result (text.new.items ≡ text.old.items ++ spelled.int_text value) }
{
    let mut buffer = Buffer::new();
    put(text, buffer.format(value).as_bytes())
}

/// Adds a literal.
fn put_literal(alloc: Global, text: &mut Vec<u16>, literal: &Literal) -> Result<(), AllocError>
    ensures { OnOk result (text.new.items ≡ text.old.items ++ spelled.literal_text literal.now) }
{
    match literal {
        Literal::Int(value) => put_int(text, *value),
        Literal::Char(units) => put_quoted(alloc, text, 39, units.as_slice()),
        Literal::Text(units) => put_quoted(alloc, text, 34, units.as_slice()),
    }
}

/// Adds a name.
fn put_name(text: &mut Vec<u16>, name: &Name) -> Result<(), AllocError>
    ensures { OnOk result (text.new.items ≡ text.old.items ++ name.now) }
{
    text.extend_from_slice(name.as_slice())
}

/// What is written after the last part.
fn closing_ascii(closing: Closing) -> &'static [u8]
    ensures { result.now ≡ written.closing_text closing }
{
    match closing {
        Closing::Nothing => b"",
        Closing::Bracket => b")",
        Closing::TupleEnd => b" )",
    }
}

/// What is written before the next part.
fn separator(kind: Kind) -> &'static [u8]
    ensures { result.now ≡ written.separator_of kind }
{
    match kind {
        Kind::Arguments => b" ",
        Kind::MoreParts => b", ",
        Kind::MoreItems => b" :: ",
        Kind::Parts | Kind::Items => b"",
    }
}

/// Where the next part stands.
fn standing(kind: Kind) -> Around
    ensures { result ≡ written.around_of kind }
{
    match kind {
        Kind::Arguments => Around::Argument,
        Kind::Items => Around::Item,
        Kind::Parts | Kind::MoreParts | Kind::MoreItems => Around::Alone,
    }
}

/// What is written of the parts after the next one.
fn next(kind: Kind) -> Kind
    ensures { result ≡ written.next_of kind }
{
    match kind {
        Kind::Parts => Kind::MoreParts,
        Kind::Items => Kind::MoreItems,
        other => other,
    }
}

/// How a constructor of the union is written.
fn union_form(union: &Union) -> Form
    ensures { result ≡ written.union_form union.now }
{
    match union.shape() {
        UnionShape::Tuple(_) => Form::Tuple,
        UnionShape::List => Form::Chain,
        UnionShape::Declared(_, _, _) => Form::Applied,
    }
}

/// How a pattern is written that begins so.
fn form_of(start: Start<'_>) -> Form
    ensures { result ≡ written.form_of (start_view start.entry) }
{
    match start {
        Start::Literal(_) | Start::Other => Form::Leaf,
        Start::Tuple(_) => Form::Tuple,
        Start::Empty | Start::Item => Form::Chain,
        Start::Constructor(union, _) => union_form(union),
    }
}

/// What is written of the parts of such a pattern.
fn kind_of(form: Form) -> Kind
    ensures { result ≡ written.kind_of form }
{
    match form {
        Form::Leaf | Form::Tuple => Kind::Parts,
        Form::Chain => Kind::Items,
        Form::Applied => Kind::Arguments,
    }
}

/// Whether `p :: q` is in brackets.
fn is_bracketed(around: Around) -> bool
    ensures { result ≡ spelled.is_bracketed around }
{
    match around {
        Around::Alone => false,
        Around::Item | Around::Argument => true,
    }
}

/// Whether a constructor with so many fields is in brackets.
fn is_applied(around: Around, fields: usize) -> bool
    ensures { result ≡ spelled.is_applied around fields }
{
    match around {
        Around::Argument => fields > 0,
        Around::Alone | Around::Item => false,
    }
}

/// The bracket before a pattern, if it has any.
fn bracket_start(is_bracketed: bool) -> &'static [u8]
    ensures { result.now ≡ written.bracket_start is_bracketed }
{
    if is_bracketed { b"(" } else { b"" }
}

/// The bracket after a pattern, if it has any.
fn bracket_end(is_bracketed: bool) -> Closing
    ensures { result ≡ written.bracket_end is_bracketed }
{
    if is_bracketed {
        Closing::Bracket
    } else {
        Closing::Nothing
    }
}

/// What stands before such a pattern of so many parts.
fn opening_of(around: Around, form: Form, parts: usize) -> &'static [u8]
    ensures { result.now ≡ written.opening_of around form parts }
{
    match form {
        Form::Leaf => b"",
        Form::Tuple => { if parts == 0 { b"()" } else { b"( " } }
        Form::Chain => {
            if parts == 0 {
                b"[]"
            } else {
                bracket_start(is_bracketed(around))
            }
        }
        Form::Applied => bracket_start(is_applied(around, parts)),
    }
}

/// What stands after such a pattern of so many parts.
fn closing_of(around: Around, form: Form, parts: usize) -> Closing
    ensures { result ≡ written.closing_of around form parts }
{
    match form {
        Form::Leaf => Closing::Nothing,
        Form::Tuple => {
            if parts == 0 {
                Closing::Nothing
            } else {
                Closing::TupleEnd
            }
        }
        Form::Chain => {
            if parts == 0 {
                Closing::Nothing
            } else {
                bracket_end(is_bracketed(around))
            }
        }
        Form::Applied => bracket_end(is_applied(around, parts)),
    }
}

/// Adds the name of a constructor of the union, where it has one in patterns.
fn put_constructor(text: &mut Vec<u16>, union: &Union, name: &Name) -> Result<(), AllocError>
    ensures { OnOk result (text.new.items ≡ text.old.items ++ written.constructor_label union.now name.now) }
{
    match union.shape() {
        UnionShape::Tuple(_) | UnionShape::List => Ok(()),
        UnionShape::Declared(_, _, _) => put_name(text, name),
    }
}

/// Adds a literal, or the name of a constructor.
fn put_label(alloc: Global, text: &mut Vec<u16>, start: Start<'_>) -> Result<(), AllocError>
    ensures { OnOk result (text.new.items ≡ text.old.items ++ written.label_text (start_view start.entry)) }
{
    match start {
        Start::Literal(literal) => put_literal(alloc, text, literal),
        Start::Other => put(text, b"_"),
        Start::Tuple(_) | Start::Empty | Start::Item => Ok(()),
        Start::Constructor(union, alternative) => put_constructor(text, union, &alternative.name),
    }
}

/// Adds what stands before the parts of a part.
fn put_begin(
    alloc: Global,
    text: &mut Vec<u16>,
    around: Around,
    part: Option<Start<'_>>,
) -> Result<(), AllocError>
    ensures { OnOk result (text.new.items ≡ text.old.items ++ written.begin_text around (part_view part.entry)) }
{
    match part {
        None => put(text, b"_"),
        Some(start) => {
            put(text, opening_of(around, form_of(start), arity(start)))?;
            put_label(alloc, text, start)
        }
    }
}

/// What is left to write of a part.
fn left_of(around: Around, part: Option<Start<'_>>) -> Rest
    ensures { result ≡ written.left_of around (part_view part.entry) }
{
    match part {
        None => Rest {
            kind: Kind::Parts,
            left: 0,
            closing: Closing::Nothing,
        },
        Some(start) => Rest {
            kind: kind_of(form_of(start)),
            left: arity(start),
            closing: closing_of(around, form_of(start), arity(start)),
        },
    }
}

/// Puts a rest on top.
fn push_rest(rests: &mut Vec<Rest>, added: Rest) -> Result<(), AllocError>
    ensures top { OnOk result (reverse rests.new.items ≡ added ∷ reverse rests.old.items) }
    ensures length { OnOk result (length rests.new.items ≡ length rests.old.items + 1) }
{
    rests.push(added)?;
    Ok(())
}

/// Writes the next part of a rest that was taken off.
fn write_part(
    alloc: Global,
    text: &mut Vec<u16>,
    rests: &mut Vec<Rest>,
    top: Rest,
    part: Option<Start<'_>>,
) -> Result<(), AllocError>
    requires { 0 < top.left }
    ensures text { OnOk result ((ps : List plain.Pattern) → text.new.items ++ pending (reverse rests.new.items) ps
        ≡ text.old.items ++ pending (top ∷ reverse rests.old.items) (made (part_view part.entry) ps)) }
    ensures length { OnOk result (length rests.new.items ≡ length rests.old.items + 2) }
{
    let around = standing(top.kind);
    put(text, separator(top.kind))?;
    put_begin(alloc, text, around, part)?;
    let after = Rest {
        kind: next(top.kind),
        left: top.left - 1,
        closing: top.closing,
    };
    push_rest(rests, after)?;
    push_rest(rests, left_of(around, part))?;
    Ok(())
}

/// The text of the first pattern of the parts.
pub fn write(alloc: Global, parts: &[Option<Start<'_>>]) -> Result<Vec<u16>, AllocError>
    ensures { IfOk result (λ text. text.items
        ≡ pending (rest Kind.Parts 1 Closing.Nothing ∷ []) (unlisted (parts_view parts.now) [])) }
{
    let mut text = Vec::new(alloc);
    let mut rests = Vec::new(alloc);
    let whole = Rest {
        kind: Kind::Parts,
        left: 1,
        closing: Closing::Nothing,
    };
    push_rest(&mut rests, whole)?;
    let mut others = parts;
    while let Some(top) = rests.pop() {
        if top.left == 0 {
            put(&mut text, closing_ascii(top.closing))?;
        } else {
            match others {
                [] => put(&mut text, closing_ascii(top.closing))?,
                [part, more @ ..] => {
                    write_part(alloc, &mut text, &mut rests, top, *part)?;
                    others = more;
                }
            }
        }
    }
    Ok(text)
}
