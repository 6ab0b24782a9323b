//! A grammar, and the table of its choices.

/// How many classes of tokens there may be.
pub const CLASSES: usize = 64;

/// What a rule asks for.
#[derive(Clone, Copy)]
pub enum Symbol {
    /// A token of one of these classes: a bit for each, class 0 the lowest.
    Word(u64),
    /// What this nonterminal stands for, under the same column.
    Part(u8),
    /// The same, with its first token in the enclosing column itself.
    Line(u8),
    /// The same, under a column of its own.
    Block(u8),
}

/// A production.
#[derive(Clone, Copy)]
pub struct Rule<'a> {
    pub left: u8,
    pub right: &'a [Symbol],
}

/// What is known of a nonterminal. A production is named by its number plus one, and 0 names none.
#[derive(Clone, Copy)]
pub struct Row {
    /// The production for each class of token that stands right of the enclosing column.
    pub beyond: [u16; CLASSES],
    /// The production for each class of token in the enclosing column.
    pub level: [u16; CLASSES],
    /// The production with nothing in it.
    pub empty: u16,
    /// The classes that may come after it, right of the enclosing column: a bit for each.
    pub follows: u64,
    /// The classes that may come after it, in the enclosing column.
    pub follows_level: u64,
    /// It begins with a token of its own column.
    pub plain: bool,
    /// Falls from a nonterminal to the first one of each of its productions.
    pub rank: u8,
    /// The production that ends soonest.
    pub short: u16,
    /// Falls from a nonterminal to those of its production that ends soonest.
    pub height: u8,
}

/// A grammar, and what one token decides in it: the productions, and a row for each nonterminal.
#[derive(Clone, Copy)]
pub struct Table<'a> {
    pub rules: &'a [Rule<'a>],
    pub rows: &'a [Row],
}

/// A token: its class, the column in which it begins, and which token of the text it is.
#[derive(Clone, Copy)]
pub struct Token {
    pub class: u8,
    pub column: u32,
    pub index: u32,
}

/// A step of a derivation: a production that is taken, or a token that is read.
#[derive(Clone, Copy)]
pub enum Step {
    Take(u16),
    Read(Token),
}
