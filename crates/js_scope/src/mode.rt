//! What the reader is at.

/// What an object is.
#[derive(Clone, Copy)]
pub enum Object {
    /// An expression.
    Value,
    /// The incoming ports.
    Ports,
}

/// What a text is.
#[derive(Clone, Copy)]
pub enum Text {
    /// An expression.
    Literal,
    /// The name of a field.
    Key(Object),
    /// The name of the field that is taken of the last tree.
    Property,
    /// The name of the entry's module.
    Module,
    /// The name of an outgoing port.
    Out,
}

/// What a name is.
#[derive(Clone, Copy)]
pub enum Naming {
    /// An expression.
    Variable,
    /// What a statement declares or assigns.
    Const,
    Let,
    Assign,
    /// What a line declares.
    Line,
}

/// What comes after bytes that are known.
#[derive(Clone, Copy)]
pub enum After {
    Want,
    Have,
    Text(Text),
    Field(Object),
    Statement,
    Line,
    LineName,
    Out,
    OutDone,
    Finished,
}

/// What the reader is at.
#[derive(Clone, Copy)]
pub enum Mode {
    /// Before an expression.
    Want,
    /// After an expression.
    Have,
    /// In a name.
    Name(Naming),
    /// In a number.
    Int(u64),
    /// After the `-` of a negative number.
    Minus,
    /// In a negative number, without its `-`.
    Negative(u64),
    /// In a text.
    Text(Text),
    /// After the `\` of a unit.
    Escape(Text),
    /// In the digits of base 16 of a unit: how many are to come after the next, and the number that they are.
    Digits(u8, u16, Text),
    /// In a word that an expression begins with.
    Word,
    /// Before the name of a declaration.
    WantName(Naming),
    /// Before a field.
    Field(Object),
    /// Before a statement.
    Statement,
    /// In a word that a statement begins with.
    Keyword,
    /// After the last statement of a block.
    Ended,
    /// After an `=` after the first expression in a bracket, that the last tree is.
    Equals,
    /// Before a line.
    Line,
    /// Before the name of a line.
    LineName,
    /// Before an outgoing port.
    Out,
    /// After the name of an outgoing port and its 0.
    OutDone,
    /// Before bytes that are known.
    Known(&'static [u8], After),
    /// Before bytes that the fixed end follows.
    Closing(&'static [u8]),
    /// At the end.
    Finished,
    /// After bytes that begin no text.
    Dead,
}
