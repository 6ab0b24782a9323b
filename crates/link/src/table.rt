//! Which names stand for functions that no text can say.

ghost use Rattle.std.specs.Prelude.{◌≡◌, option_map};
ghost use Rattle.js_emit.specs.Primitives.{primitive_view};
ghost use Rattle.link.specs.Cores as spec;
ghost use Rattle.link.specs.Cores.{look, rows_of, basics_rows, bitwise_rows, char_rows};
ghost use Rattle.link.specs.Cores.{debug_rows, string_rows};

use elm_canon::reference::Ref;
use js_emit::bodiless::Primitive;

/// `Basics`
const BASICS_MODULE: [u16; 6] = [66, 97, 115, 105, 99, 115];

/// `Bitwise`
const BITWISE_MODULE: [u16; 7] = [66, 105, 116, 119, 105, 115, 101];

/// `Char`
const CHAR_MODULE: [u16; 4] = [67, 104, 97, 114];

/// `Debug`
const DEBUG_MODULE: [u16; 5] = [68, 101, 98, 117, 103];

/// `String`
const STRING_MODULE: [u16; 6] = [83, 116, 114, 105, 110, 103];

/// `modBy`
const MOD_BY: [u16; 5] = [109, 111, 100, 66, 121];

/// `remainderBy`
const REMAINDER_BY: [u16; 11] = [114, 101, 109, 97, 105, 110, 100, 101, 114, 66, 121];

/// `and`
const AND: [u16; 3] = [97, 110, 100];

/// `or`
const OR: [u16; 2] = [111, 114];

/// `xor`
const XOR: [u16; 3] = [120, 111, 114];

/// `complement`
const COMPLEMENT: [u16; 10] = [99, 111, 109, 112, 108, 101, 109, 101, 110, 116];

/// `shiftLeftBy`
const SHIFT_LEFT_BY: [u16; 11] = [115, 104, 105, 102, 116, 76, 101, 102, 116, 66, 121];

/// `shiftRightBy`
const SHIFT_RIGHT_BY: [u16; 12] = [115, 104, 105, 102, 116, 82, 105, 103, 104, 116, 66, 121];

/// `shiftRightZfBy`
const SHIFT_RIGHT_ZF_BY: [u16; 14] = [
    115, 104, 105, 102, 116, 82, 105, 103, 104, 116, 90, 102, 66, 121,
];

/// `unitAt`
const UNIT_AT: [u16; 6] = [117, 110, 105, 116, 65, 116];

/// `fromUnit`
const FROM_UNIT: [u16; 8] = [102, 114, 111, 109, 85, 110, 105, 116];

/// `fromText`
const FROM_TEXT: [u16; 8] = [102, 114, 111, 109, 84, 101, 120, 116];

/// `todo`
const TODO: [u16; 4] = [116, 111, 100, 111];

/// `length`
const LENGTH: [u16; 6] = [108, 101, 110, 103, 116, 104];

/// `slice`
const SLICE: [u16; 5] = [115, 108, 105, 99, 101];

/// `fromInt`
const FROM_INT: [u16; 7] = [102, 114, 111, 109, 73, 110, 116];

/// `fromChar`
const FROM_CHAR: [u16; 8] = [102, 114, 111, 109, 67, 104, 97, 114];

/// `find`
const FIND: [u16; 4] = [102, 105, 110, 100];

/// What a name of `Basics` stands for.
fn basics_function(name: &[u16]) -> Option<Primitive>
    ensures { option_map primitive_view result ≡ look basics_rows name.now }
{
    if name == MOD_BY.as_slice() {
        Some(Primitive::Modulo)
    } else if name == REMAINDER_BY.as_slice() {
        Some(Primitive::Remainder)
    } else {
        None
    }
}

/// What a name of `Bitwise` stands for.
fn bitwise_function(name: &[u16]) -> Option<Primitive>
    ensures { option_map primitive_view result ≡ look bitwise_rows name.now }
{
    if name == AND.as_slice() {
        Some(Primitive::BitAnd)
    } else if name == OR.as_slice() {
        Some(Primitive::BitOr)
    } else if name == XOR.as_slice() {
        Some(Primitive::BitXor)
    } else if name == COMPLEMENT.as_slice() {
        Some(Primitive::BitNot)
    } else if name == SHIFT_LEFT_BY.as_slice() {
        Some(Primitive::ShiftLeft)
    } else if name == SHIFT_RIGHT_BY.as_slice() {
        Some(Primitive::ShiftRight)
    } else if name == SHIFT_RIGHT_ZF_BY.as_slice() {
        Some(Primitive::ShiftRightZero)
    } else {
        None
    }
}

/// What a name of `Char` stands for.
fn char_function(name: &[u16]) -> Option<Primitive>
    ensures { option_map primitive_view result ≡ look char_rows name.now }
{
    if name == UNIT_AT.as_slice() {
        Some(Primitive::UnitAt)
    } else if name == FROM_UNIT.as_slice() {
        Some(Primitive::FromUnit)
    } else if name == FROM_TEXT.as_slice() {
        Some(Primitive::Same)
    } else {
        None
    }
}

/// What a name of `Debug` stands for.
fn debug_function(name: &[u16]) -> Option<Primitive>
    ensures { option_map primitive_view result ≡ look debug_rows name.now }
{
    if name == TODO.as_slice() {
        Some(Primitive::Crash)
    } else {
        None
    }
}

/// What a name of `String` stands for.
fn string_function(name: &[u16]) -> Option<Primitive>
    ensures { option_map primitive_view result ≡ look string_rows name.now }
{
    if name == LENGTH.as_slice() {
        Some(Primitive::Length)
    } else if name == SLICE.as_slice() {
        Some(Primitive::Slice)
    } else if name == FROM_INT.as_slice() {
        Some(Primitive::FromInt)
    } else if name == FROM_CHAR.as_slice() {
        Some(Primitive::Same)
    } else if name == UNIT_AT.as_slice() {
        Some(Primitive::UnitAt)
    } else if name == FIND.as_slice() {
        Some(Primitive::Find)
    } else {
        None
    }
}

/// What a name of the module `home` stands for.
fn function_of(home: &[u16], name: &[u16]) -> Option<Primitive>
    ensures { option_map primitive_view result ≡ look (rows_of home.now) name.now }
{
    if home == BASICS_MODULE.as_slice() {
        basics_function(name)
    } else if home == BITWISE_MODULE.as_slice() {
        bitwise_function(name)
    } else if home == CHAR_MODULE.as_slice() {
        char_function(name)
    } else if home == DEBUG_MODULE.as_slice() {
        debug_function(name)
    } else if home == STRING_MODULE.as_slice() {
        string_function(name)
    } else {
        None
    }
}

/// The function that a name stands for, where no text can say it.
pub(crate) fn primitive_of(name: &Ref) -> Option<Primitive>
    ensures { option_map primitive_view result ≡ spec.primitive_of name.now }
{
    match name {
        Ref::Local(_) => None,
        Ref::Top(home, name) => function_of(home.as_slice(), name.as_slice()),
    }
}
