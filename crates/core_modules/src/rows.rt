//! The table of what core modules declare, sign by sign.

use crate::sign::Sign;
use elm_canon::unions::Tag;

/// A union that a module declares.
pub(crate) struct UnionRow {
    pub(crate) home: &'static [u8],
    pub(crate) name: &'static [u8],
    pub(crate) signs: &'static [Sign],
}

/// A type of a module that no text declares.
pub(crate) struct BareRow {
    pub(crate) home: &'static [u8],
    pub(crate) name: &'static [u8],
}

/// A function that no text can say, and its type.
pub(crate) struct FunctionRow {
    pub(crate) home: &'static [u8],
    pub(crate) name: &'static [u8],
    pub(crate) signs: &'static [Sign],
}

/// `type Bool = True | False`
const BOOL: [Sign; 5] = [
    Sign::Union(b"Bool", b"Basics", 2, 0),
    Sign::Maker(b"True", Tag::Truth(true), 0),
    Sign::Maker(b"False", Tag::Truth(false), 0),
    Sign::Fields(0),
    Sign::Fields(0),
];

/// `type Maybe a = Just a | Nothing`
const MAYBE: [Sign; 7] = [
    Sign::Union(b"Maybe", b"Maybe", 2, 1),
    Sign::Maker(b"Just", Tag::Number(0), 1),
    Sign::Maker(b"Nothing", Tag::Number(1), 0),
    Sign::Variable(b"a"),
    Sign::Fields(1),
    Sign::Variable(b"a"),
    Sign::Fields(0),
];

/// `type Dict k v = Node Color k v (Dict k v) (Dict k v) | Empty`
const DICT: [Sign; 16] = [
    Sign::Union(b"Dict", b"Dict", 2, 2),
    Sign::Maker(b"Node", Tag::Number(-1), 5),
    Sign::Maker(b"Empty", Tag::Number(-2), 0),
    Sign::Variable(b"k"),
    Sign::Variable(b"v"),
    Sign::Fields(5),
    Sign::Named(b"Dict", b"Color", 0),
    Sign::Variable(b"k"),
    Sign::Variable(b"v"),
    Sign::Named(b"Dict", b"Dict", 2),
    Sign::Variable(b"k"),
    Sign::Variable(b"v"),
    Sign::Named(b"Dict", b"Dict", 2),
    Sign::Variable(b"k"),
    Sign::Variable(b"v"),
    Sign::Fields(0),
];

/// `type Cmd msg = Send String Payload | Batch (List (Cmd msg))`
const CMD: [Sign; 11] = [
    Sign::Union(b"Cmd", b"Platform.Cmd", 2, 1),
    Sign::Maker(b"Send", Tag::Number(0), 2),
    Sign::Maker(b"Batch", Tag::Number(1), 1),
    Sign::Variable(b"msg"),
    Sign::Fields(2),
    Sign::Named(b"String", b"String", 0),
    Sign::Named(b"Platform.Cmd", b"Payload", 0),
    Sign::Fields(1),
    Sign::Named(b"List", b"List", 1),
    Sign::Named(b"Platform.Cmd", b"Cmd", 1),
    Sign::Variable(b"msg"),
];

/// `type Sub msg = Listen String (Payload -> msg) | Batch (List (Sub msg))`
const SUB: [Sign; 13] = [
    Sign::Union(b"Sub", b"Platform.Sub", 2, 1),
    Sign::Maker(b"Listen", Tag::Number(0), 2),
    Sign::Maker(b"Batch", Tag::Number(1), 1),
    Sign::Variable(b"msg"),
    Sign::Fields(2),
    Sign::Named(b"String", b"String", 0),
    Sign::Function,
    Sign::Named(b"Platform.Sub", b"Payload", 0),
    Sign::Variable(b"msg"),
    Sign::Fields(1),
    Sign::Named(b"List", b"List", 1),
    Sign::Named(b"Platform.Sub", b"Sub", 1),
    Sign::Variable(b"msg"),
];

/// `type Program flags model msg = Program { .. }`
const PROGRAM: [Sign; 28] = [
    Sign::Union(b"Program", b"Platform", 1, 3),
    Sign::Maker(b"Program", Tag::Number(0), 1),
    Sign::Variable(b"flags"),
    Sign::Variable(b"model"),
    Sign::Variable(b"msg"),
    Sign::Fields(1),
    Sign::Record(3),
    Sign::Field(b"init"),
    Sign::Function,
    Sign::Variable(b"flags"),
    Sign::Tuple(2),
    Sign::Variable(b"model"),
    Sign::Named(b"Platform.Cmd", b"Cmd", 1),
    Sign::Variable(b"msg"),
    Sign::Field(b"update"),
    Sign::Function,
    Sign::Variable(b"msg"),
    Sign::Function,
    Sign::Variable(b"model"),
    Sign::Tuple(2),
    Sign::Variable(b"model"),
    Sign::Named(b"Platform.Cmd", b"Cmd", 1),
    Sign::Variable(b"msg"),
    Sign::Field(b"subscriptions"),
    Sign::Function,
    Sign::Variable(b"model"),
    Sign::Named(b"Platform.Sub", b"Sub", 1),
    Sign::Variable(b"msg"),
];

/// The unions.
pub(crate) const UNIONS: [UnionRow; 6] = [
    UnionRow {
        home: b"Basics",
        name: b"Bool",
        signs: &BOOL,
    },
    UnionRow {
        home: b"Maybe",
        name: b"Maybe",
        signs: &MAYBE,
    },
    UnionRow {
        home: b"Dict",
        name: b"Dict",
        signs: &DICT,
    },
    UnionRow {
        home: b"Platform.Cmd",
        name: b"Cmd",
        signs: &CMD,
    },
    UnionRow {
        home: b"Platform.Sub",
        name: b"Sub",
        signs: &SUB,
    },
    UnionRow {
        home: b"Platform",
        name: b"Program",
        signs: &PROGRAM,
    },
];

/// The types without a text.
pub(crate) const BARE: [BareRow; 4] = [
    BareRow {
        home: b"Basics",
        name: b"Int",
    },
    BareRow {
        home: b"Char",
        name: b"Char",
    },
    BareRow {
        home: b"List",
        name: b"List",
    },
    BareRow {
        home: b"String",
        name: b"String",
    },
];

/// `Int -> Int -> Int`
const BINARY: [Sign; 5] = [
    Sign::Function,
    Sign::Named(b"Basics", b"Int", 0),
    Sign::Function,
    Sign::Named(b"Basics", b"Int", 0),
    Sign::Named(b"Basics", b"Int", 0),
];

/// `Int -> Int`
const UNARY: [Sign; 3] = [
    Sign::Function,
    Sign::Named(b"Basics", b"Int", 0),
    Sign::Named(b"Basics", b"Int", 0),
];

/// `Int -> Char -> Int`
const CHAR_UNIT: [Sign; 5] = [
    Sign::Function,
    Sign::Named(b"Basics", b"Int", 0),
    Sign::Function,
    Sign::Named(b"Char", b"Char", 0),
    Sign::Named(b"Basics", b"Int", 0),
];

/// `Int -> String`
const TEXT_OF_INT: [Sign; 3] = [
    Sign::Function,
    Sign::Named(b"Basics", b"Int", 0),
    Sign::Named(b"String", b"String", 0),
];

/// `String -> Char`
const CHAR_OF_TEXT: [Sign; 3] = [
    Sign::Function,
    Sign::Named(b"String", b"String", 0),
    Sign::Named(b"Char", b"Char", 0),
];

/// `String -> a`
const CRASH: [Sign; 3] = [
    Sign::Function,
    Sign::Named(b"String", b"String", 0),
    Sign::Variable(b"a"),
];

/// `String -> Int`
const LENGTH: [Sign; 3] = [
    Sign::Function,
    Sign::Named(b"String", b"String", 0),
    Sign::Named(b"Basics", b"Int", 0),
];

/// `Int -> Int -> String -> String`
const SLICE: [Sign; 7] = [
    Sign::Function,
    Sign::Named(b"Basics", b"Int", 0),
    Sign::Function,
    Sign::Named(b"Basics", b"Int", 0),
    Sign::Function,
    Sign::Named(b"String", b"String", 0),
    Sign::Named(b"String", b"String", 0),
];

/// `Char -> String`
const TEXT_OF_CHAR: [Sign; 3] = [
    Sign::Function,
    Sign::Named(b"Char", b"Char", 0),
    Sign::Named(b"String", b"String", 0),
];

/// `Int -> String -> Int`
const TEXT_UNIT: [Sign; 5] = [
    Sign::Function,
    Sign::Named(b"Basics", b"Int", 0),
    Sign::Function,
    Sign::Named(b"String", b"String", 0),
    Sign::Named(b"Basics", b"Int", 0),
];

/// `String -> Int -> String -> Int`
const FIND: [Sign; 7] = [
    Sign::Function,
    Sign::Named(b"String", b"String", 0),
    Sign::Function,
    Sign::Named(b"Basics", b"Int", 0),
    Sign::Function,
    Sign::Named(b"String", b"String", 0),
    Sign::Named(b"Basics", b"Int", 0),
];

/// The functions.
pub(crate) const FUNCTIONS: [FunctionRow; 19] = [
    FunctionRow {
        home: b"Basics",
        name: b"modBy",
        signs: &BINARY,
    },
    FunctionRow {
        home: b"Basics",
        name: b"remainderBy",
        signs: &BINARY,
    },
    FunctionRow {
        home: b"Bitwise",
        name: b"and",
        signs: &BINARY,
    },
    FunctionRow {
        home: b"Bitwise",
        name: b"or",
        signs: &BINARY,
    },
    FunctionRow {
        home: b"Bitwise",
        name: b"xor",
        signs: &BINARY,
    },
    FunctionRow {
        home: b"Bitwise",
        name: b"complement",
        signs: &UNARY,
    },
    FunctionRow {
        home: b"Bitwise",
        name: b"shiftLeftBy",
        signs: &BINARY,
    },
    FunctionRow {
        home: b"Bitwise",
        name: b"shiftRightBy",
        signs: &BINARY,
    },
    FunctionRow {
        home: b"Bitwise",
        name: b"shiftRightZfBy",
        signs: &BINARY,
    },
    FunctionRow {
        home: b"Char",
        name: b"unitAt",
        signs: &CHAR_UNIT,
    },
    FunctionRow {
        home: b"Char",
        name: b"fromUnit",
        signs: &TEXT_OF_INT,
    },
    FunctionRow {
        home: b"Char",
        name: b"fromText",
        signs: &CHAR_OF_TEXT,
    },
    FunctionRow {
        home: b"Debug",
        name: b"todo",
        signs: &CRASH,
    },
    FunctionRow {
        home: b"String",
        name: b"length",
        signs: &LENGTH,
    },
    FunctionRow {
        home: b"String",
        name: b"slice",
        signs: &SLICE,
    },
    FunctionRow {
        home: b"String",
        name: b"fromInt",
        signs: &TEXT_OF_INT,
    },
    FunctionRow {
        home: b"String",
        name: b"fromChar",
        signs: &TEXT_OF_CHAR,
    },
    FunctionRow {
        home: b"String",
        name: b"unitAt",
        signs: &TEXT_UNIT,
    },
    FunctionRow {
        home: b"String",
        name: b"find",
        signs: &FIND,
    },
];
