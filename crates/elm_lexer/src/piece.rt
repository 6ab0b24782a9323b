//! The longest piece that a text begins with.

ghost use Rattle.std.specs.Prelude.{◌≡◌, ◌≤◌, length, ◌&&◌, ◌||◌, ◌==◌};
ghost use Rattle.std.specs.Str.{chars};
ghost use Rattle.elm_base.specs.Path.{is_name_char};
ghost use Rattle.elm_lexer.specs.Characters.{is_digit, is_operator_char};
ghost use Rattle.elm_lexer.specs.Kinds.{begins_upper, begins_lower};
ghost use Rattle.elm_lexer.specs.Lengths.{run, begins_letter, name_run, next_part, number_run, piece_length};
ghost use Rattle.elm_lexer.specs.Numbers.{begins_digit, after_digit, after_letter, after_name_char, after_joint};
ghost use Rattle.elm_lexer.specs.Numbers.{may_join, is_joint};
ghost use Rattle.elm_lexer.specs.declared.part.Part.TheVariants.{Whole};

use crate::characters::{
    is_digit, is_exponent_letter, is_letter, is_lower, is_mark, is_operator_char, is_sign, is_upper,
};
use crate::part::Part;
use elm_base::path::is_name_char;

/// How many bytes the characters of names take that the text begins with.
fn name_chars(text: &str) -> usize
    ensures value { result ≡ run is_name_char (chars text.now) }
    ensures within { result ≤ length text.now }
{
    let mut count = 0;
    let mut rest = text.chars();
    while let Some(c) = rest.next() {
        if !is_name_char(c) {
            return count;
        }
        count += c.len_utf8();
    }
    count
}

/// How many bytes the characters of operators take that the text begins with.
fn operator_chars(text: &str) -> usize
    ensures value { result ≡ run is_operator_char (chars text.now) }
    ensures within { result ≤ length text.now }
{
    let mut count = 0;
    let mut rest = text.chars();
    while let Some(c) = rest.next() {
        if !is_operator_char(c) {
            return count;
        }
        count += c.len_utf8();
    }
    count
}

fn begins_letter(text: &str) -> bool
    ensures { result ≡ begins_letter (chars text.now) }
{
    match text.chars().next() {
        Some(c) => is_letter(c),
        None => false,
    }
}

fn begins_upper(text: &str) -> bool
    ensures { result ≡ begins_upper (chars text.now) }
{
    match text.chars().next() {
        Some(c) => is_upper(c),
        None => false,
    }
}

/// Whether `c` joins a word to the next one: the word is upper case or not, and `after` follows `c`.
fn is_joint(upper: bool, c: char, after: &str) -> bool
    ensures { result ≡ (upper && (c == 46 && begins_letter (chars after.now))) }
{
    upper && c == '.' && begins_letter(after)
}

/// How many bytes the name takes that the text begins with.
fn name_run(text: &str) -> usize
    ensures value { result ≡ name_run (begins_upper (chars text.now)) (chars text.now) }
    ensures within { result ≤ length text.now }
{
    let mut upper = begins_upper(text);
    let mut count = 0;
    let mut rest = text.chars();
    while let Some(c) = rest.next() {
        if !is_name_char(c) {
            let after = rest.as_str();
            if !is_joint(upper, c, after) {
                return count;
            }
            upper = begins_upper(after);
        }
        count += c.len_utf8();
    }
    count
}

fn begins_digit(text: &str) -> bool
    ensures { result ≡ begins_digit (chars text.now) }
{
    match text.chars().next() {
        Some(c) => is_digit(c),
        None => false,
    }
}

fn begins_lower(text: &str) -> bool
    ensures { result ≡ begins_lower (chars text.now) }
{
    match text.chars().next() {
        Some(c) => is_lower(c),
        None => false,
    }
}

fn after_digit(part: Part) -> Part
    ensures { result ≡ after_digit part }
{
    match part {
        Part::Whole => Part::Whole,
        Part::Fraction => Part::Fraction,
        Part::Exponent => Part::Other,
        Part::Other => Part::Other,
    }
}

fn after_letter(part: Part) -> Part
    ensures { result ≡ after_letter part }
{
    match part {
        Part::Whole => Part::Exponent,
        Part::Fraction => Part::Exponent,
        Part::Exponent => Part::Other,
        Part::Other => Part::Other,
    }
}

/// What the number has had after one more character of names.
fn after_name_char(part: Part, c: char) -> Part
    ensures { result ≡ after_name_char part c }
{
    if is_digit(c) {
        after_digit(part)
    } else if is_exponent_letter(c) {
        after_letter(part)
    } else {
        Part::Other
    }
}

/// What the number has had after a point or a sign.
fn after_joint(part: Part) -> Part
    ensures { result ≡ after_joint part }
{
    match part {
        Part::Whole => Part::Fraction,
        _ => Part::Other,
    }
}

/// Whether `c` may join digits to the number.
fn may_join(part: Part, c: char) -> bool
    ensures { result ≡ may_join part c }
{
    match part {
        Part::Whole => c == '.',
        Part::Exponent => is_sign(c),
        _ => false,
    }
}

/// Whether `c` joins digits to the number, where `after` follows `c`.
fn joins_digits(part: Part, c: char, after: &str) -> bool
    ensures { result ≡ is_joint part c (chars after.now) }
{
    may_join(part, c) && begins_digit(after)
}

/// What the number has had after `c`, if it goes on with it, where `after` follows `c`.
fn next_part(part: Part, c: char, after: &str) -> Option<Part>
    ensures { result ≡ next_part part c (chars after.now) }
{
    if is_name_char(c) {
        Some(after_name_char(part, c))
    } else if joins_digits(part, c, after) {
        Some(after_joint(part))
    } else {
        None
    }
}

/// How many bytes the number takes that the text begins with.
fn number_run(text: &str) -> usize
    ensures value { result ≡ number_run Whole (chars text.now) }
    ensures within { result ≤ length text.now }
{
    let mut part = Part::Whole;
    let mut count = 0;
    let mut rest = text.chars();
    while let Some(c) = rest.next() {
        let Some(next) = next_part(part, c, rest.as_str()) else {
            return count;
        };
        part = next;
        count += c.len_utf8();
    }
    count
}

/// Whether a wildcard or a field begins with `c`, where `after` follows `c`.
fn begins_word(c: char, after: &str) -> bool
    ensures { result ≡ (c == 95 || (c == 46 && begins_lower (chars after.now))) }
{
    c == '_' || (c == '.' && begins_lower(after))
}

/// The bytes of the longest piece that the text begins with, or 0 where it begins with none.
pub(crate) fn piece_length(text: &str) -> usize
    ensures value { result ≡ piece_length (chars text.now) }
    ensures within { result ≤ length text.now }
{
    let mut rest = text.chars();
    let Some(c) = rest.next() else {
        return 0;
    };
    let after = rest.as_str();
    if is_letter(c) {
        name_run(text)
    } else if is_digit(c) {
        number_run(text)
    } else if begins_word(c, after) {
        1 + name_chars(after)
    } else if is_mark(c) {
        1
    } else {
        operator_chars(text)
    }
}
