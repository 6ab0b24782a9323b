//! The surface tree of a module. (Elm syntax reference; Elm guide: core language, types, pattern matching, JavaScript
//! interop.)
//!
//! A name, an operator or a literal is the number of its token in the module's list of tokens, and so is a place. So
//! the tree owns no text, a name costs four bytes, and a table beside the tokens can number the names once for all
//! phases. `specs/View.antt` says what a tree is, given the tokens.
//!
//! Brackets leave no node. Whatever can be long is a `Vec`, so a tree nests no deeper than the constructs that are
//! open at once.

/// A word of the text: the number of its token.
#[derive(Clone, Copy, Debug, PartialEq, Eq)]
pub struct Word {
    pub index: u32,
}

/// A type as it is written.
#[cycle(types)]
#[derive(Drop)]
pub enum TypeTree {
    /// A type variable.
    Variable(Word),
    /// The name of a type, which may have a module, and its arguments.
    Named(Word, Vec<TypeTree>),
    /// `T -> U -> V`: two types or more, the last of which is the result.
    Function(Vec<TypeTree>),
    /// `()` or `( T, U )`: no types, or two or more.
    Tuple(Vec<TypeTree>),
    /// `{ x : T }`, or with a base `{ a | x : T }`.
    Record(Option<Word>, Vec<FieldType>),
}

/// A field of the type of a record.
#[cycle(types)]
#[derive(Drop)]
pub struct FieldType {
    pub name: Word,
    pub field_type: TypeTree,
}

/// A pattern as it is written.
#[cycle(patterns)]
#[derive(Drop)]
pub enum Pattern {
    /// `_`, a name or a literal, as its token says.
    OneWord(Word),
    /// `-1`, by the sign and the number.
    Negative(Word, Word),
    /// The name of a constructor, which may have a module, and its arguments.
    Construct(Word, Vec<Pattern>),
    /// `p :: q :: r`: two patterns or more. It begins with the word.
    Cons(Word, Vec<Pattern>),
    /// `[ p, q ]`, which begins with the word.
    List(Word, Vec<Pattern>),
    /// `()` or `( p, q )`: no patterns, or two or more. It begins with the word.
    Tuple(Word, Vec<Pattern>),
    /// `{ x, y }`, which begins with the first word.
    Fields(Word, Vec<Word>),
    /// `p as x`, which begins with the first word. The second is the name.
    As(Word, Box<Pattern>, Word),
}

/// An expression as it is written.
#[cycle(exprs)]
#[derive(Drop)]
pub enum Expr {
    /// A literal, a name, a constructor, an operator in parentheses or `.x`, as its token says.
    OneWord(Word),
    /// `-e`, by the sign.
    Negative(Word, Box<Expr>),
    /// A function, and one argument or more.
    Apply(Box<Expr>, Vec<Expr>),
    /// An operand, and one operator or more, each with the operand after it.
    Chain(Box<Expr>, Vec<Part>),
    /// `[ a, b ]`, which begins with the word.
    List(Word, Vec<Expr>),
    /// `()` or `( a, b )`: no expressions, or two or more. It begins with the word.
    Tuple(Word, Vec<Expr>),
    /// `{ x = a }`, or with a base `{ r | x = a }`. It begins with the first word.
    Record(Word, Option<Word>, Vec<Part>),
    /// `e.x.y`, which begins with the word: one field or more.
    Access(Word, Box<Expr>, Vec<Word>),
    /// `if a then b else c`.
    If(Box<Expr>, Box<Expr>, Box<Expr>),
    /// `case e of`, which begins with the word, and one branch or more.
    Case(Word, Box<Expr>, Vec<Branch>),
    /// `let`, one definition or more, and the body.
    Let(Vec<Definition>, Box<Expr>),
    /// `\p q -> e`, which begins with the word: one parameter or more.
    Lambda(Word, Vec<Pattern>, Box<Expr>),
}

/// An operator and the operand after it, or the name of a field and its value.
#[cycle(exprs)]
#[derive(Drop)]
pub struct Part {
    pub word: Word,
    pub value: Expr,
}

/// A branch of a `case`.
#[cycle(exprs)]
#[derive(Drop)]
pub struct Branch {
    pub pattern: Pattern,
    pub body: Expr,
}

/// What stands in a `let`, or at the top of a module as a value.
#[cycle(exprs)]
#[derive(Drop)]
pub enum Definition {
    /// `x : T`. It may stand alone here.
    Annotate(Word, TypeTree),
    /// `x p q = e`.
    Define(Word, Vec<Pattern>, Expr),
    /// `p = e`, in a `let` alone.
    Destructure(Pattern, Expr),
}

/// A constructor of a custom type, with the types of its arguments.
#[derive(Drop)]
pub struct Constructor {
    pub name: Word,
    pub arguments: Vec<TypeTree>,
}

/// What a module declares.
#[derive(Drop)]
pub enum Declaration {
    Value(Definition),
    /// `port x : T`
    Port(Word, TypeTree),
    /// `type T a b = C t | D`
    Union(Word, Vec<Word>, Vec<Constructor>),
    /// `type alias T a b = t`
    Alias(Word, Vec<Word>, TypeTree),
}

/// What a header or an import exposes by name: a value, a type or an operator, as its token says.
#[derive(Clone, Copy)]
pub struct Exposed {
    pub name: Word,
    /// `T(..)`
    pub is_open: bool,
}

/// What a header or an import exposes.
#[derive(Drop)]
pub enum Exposing {
    /// `exposing (..)`
    Everything,
    /// These. An import without `exposing` has none.
    These(Vec<Exposed>),
}

/// `import M as A exposing (..)`
#[derive(Drop)]
pub struct Import {
    pub name: Word,
    pub alias: Option<Word>,
    pub exposes: Exposing,
}

/// `module M exposing (..)`, or `port module M exposing (..)`.
#[derive(Drop)]
pub struct Header {
    pub has_ports: bool,
    pub name: Word,
    pub exposes: Exposing,
}

/// What stands before the declarations of a module.
#[derive(Drop)]
pub struct Head {
    pub header: Option<Header>,
    pub imports: Vec<Import>,
}

/// A module.
#[derive(Drop)]
pub struct Module {
    pub head: Head,
    pub declarations: Vec<Declaration>,
}
