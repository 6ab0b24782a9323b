//! The nodes of trees of an output, in postorder. (ECMA-262: 13.2, 13.3, 13.7, 13.8.1, 13.11, 13.13, 13.14, 13.15,
//! 14.3.1, 14.6, 14.7.3, 14.8, 14.10, 15.3.)

use elm_base::units::Units;

/// A name of the output.
#[derive(Debug, Drop)]
pub enum Name {
    /// A name of a module, with its dots, as `Main$x`.
    Top { module: Units, name: Units },
    /// A name of the source that is local, as `$x`.
    Local(Units),
    /// A name that the compiler made, by its number within one line, as `$$0`.
    Made(u64),
}

/// An operator between two expressions.
#[derive(Clone, Copy, Debug, PartialEq, Eq)]
pub enum Operator {
    Plus,
    Minus,
    Times,
    /// `===`
    StrictEquals,
    And,
    Or,
}

/// A function of the fixed text that a body calls by its name.
#[derive(Clone, Copy, Debug, PartialEq, Eq)]
pub enum Helper {
    /// `_crash`
    Crash,
    /// `_quot`
    Quotient,
    /// `_rem`
    Remainder,
    /// `_mod`
    Modulo,
    /// `_and`
    BitAnd,
    /// `_or`
    BitOr,
    /// `_xor`
    BitXor,
    /// `_not`
    BitNot,
    /// `_shl`
    ShiftLeft,
    /// `_shr`
    ShiftRight,
    /// `_shz`
    ShiftRightZero,
    /// `_fromInt`
    FromInt,
    /// `_length`
    Length,
    /// `_unitAt`
    UnitAt,
    /// `_fromUnit`
    FromUnit,
    /// `_slice`
    Slice,
    /// `_find`
    Find,
    /// `_same`
    Same,
    /// `_update`
    Update,
    /// `_array`
    ArrayOf,
    /// `_append`
    Append,
    /// `_pairs`
    Pairs,
    /// `_size`
    Size,
    /// `_eq`
    Equal,
    /// `_cmp`
    Compare,
    /// `_dInt`
    DecodeInt,
    /// `_dBool`
    DecodeBool,
    /// `_dText`
    DecodeText,
    /// `_dNull`
    DecodeNull,
    /// `_dAny`
    DecodeAny,
    /// `_dMaybe`
    DecodeMaybe,
    /// `_all`
    All,
    /// `_dList`
    DecodeList,
    /// `_dTuple`
    DecodeTuple,
    /// `_dRecord`
    DecodeRecord,
    /// `_eSame`
    EncodeSame,
    /// `_eNull`
    EncodeNull,
    /// `_eMaybe`
    EncodeMaybe,
    /// `_eList`
    EncodeList,
    /// `_eTuple`
    EncodeTuple,
    /// `_eRecord`
    EncodeRecord,
}

/// A node, whose parts stand before it.
#[derive(Debug, Drop)]
pub enum Node {
    /// An integer, between plus and minus 9007199254740991.
    Int(i64),
    Bool(bool),
    /// A text, in units of UTF-16.
    Text(Units),
    Var(Name),
    /// A function of this parameter, of its block.
    Arrow(Name),
    /// A function without parameter that is called at once, of its block.
    Block,
    /// A call, of the function and its argument.
    Call,
    /// Of the left and the right expression.
    Binary(Operator),
    /// Of the test and the two expressions.
    Conditional,
    /// An object, of its fields.
    Object,
    /// The field of that name, of an object.
    Property(Units),
    /// A list, of its items.
    List,
    /// A call of a function of the fixed text, of the arguments as items.
    Helper(Helper),
    /// No items.
    NoItem,
    /// One item more, of the items before it and its expression.
    Item,
    /// No fields.
    NoField,
    /// One field more, of the fields before it and its expression.
    Field(Units),
    /// No statements.
    NoStatement,
    /// `const n=E;` of the statements before it and its expression.
    Const(Name),
    /// `let n=E;` of the statements before it and its expression.
    Let(Name),
    /// `n=E;` of the statements before it and its expression.
    Assign(Name),
    /// `return E;` of its expression.
    Return,
    /// `if(E){S}else{S}` of the test and the two blocks.
    If,
    /// `while(true){S}` of its block.
    While,
    /// `continue;`
    Continue,
    /// A whole block, of the statements before the last one, and that.
    Ended,
    /// No lines.
    NoLine,
    /// A constant's line, of the lines before it and its expression.
    Line(Name),
    /// A program by the name of its module and its outgoing ports, of the lines, the program that `_main` holds, the
    /// decoder of its flags, and the incoming ports as fields.
    Program { name: Units, outs: Vec<Units> },
}
