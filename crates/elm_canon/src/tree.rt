//! The canonical tree of a module. (Elm guide: core language, types, pattern matching, modules, JavaScript interop.)
//!
//! Each name is a local one or one of a module, each constructor has its union, and chains of operators and brackets
//! are gone. `specs/View.antt` says which plain tree a tree is. Whatever can be long is a `Vec`.

use crate::reference::Ref;
use crate::unions::{Alternative, Union};
use elm_base::names::Name;
use elm_base::position::Pos;
use elm_base::units::Units;
use std::alloc::Global;
use std::sync::Arc;

/// A literal.
#[derive(Drop)]
pub enum Literal {
    /// Below 0 in patterns alone.
    Int(i64),
    /// A character, by its one or two units.
    Char(Units),
    Text(Units),
}

/// A type, with its aliases expanded.
#[cycle(types)]
#[derive(Drop)]
pub enum Annotation {
    Variable(Name),
    /// A type of a module, by the module, the name and the arguments.
    Named(Name, Name, Vec<Annotation>),
    /// `t -> u -> v`: one type or more, the last of which is the result.
    Function(Vec<Annotation>),
    /// `( t, u )`. `()` has no parts.
    Tuple(Vec<Annotation>),
    /// `{ x : t }`, or over a variable `{ a | x : t }`, in written order.
    Record(Option<Name>, Vec<FieldType>),
    /// A type that other places share, as what an alias without parameters stands for.
    Shared(Arc<Annotation, Global>),
}

/// A field of the type of a record.
#[cycle(types)]
#[derive(Drop)]
pub struct FieldType {
    pub name: Name,
    pub field_type: Annotation,
}

/// A pattern.
#[cycle(patterns)]
#[derive(Drop)]
pub enum Pattern {
    /// `_`
    Anything,
    Named(Name),
    /// `p as x`
    As(Box<Pattern>, Name),
    Exactly(Literal),
    /// A constructor of a declared union, with a pattern for each field.
    Construct(Union, Alternative, Vec<Pattern>),
    /// `( p, q )`. `()` has no parts.
    Tuple(Vec<Pattern>),
    /// `[ p, q ]`
    List(Vec<Pattern>),
    /// `p :: q :: r`: the items and the rest.
    Items(Vec<Pattern>, Box<Pattern>),
    /// `{ x, y }`
    Fields(Vec<Name>),
    /// A pattern, and where it begins.
    Located(Pos, Box<Pattern>),
}

/// An operator that takes both of its operands.
#[derive(Clone, Copy, Debug, PartialEq, Eq)]
pub enum Operator {
    Add,
    Subtract,
    Multiply,
    Divide,
    Append,
    Cons,
    Equal,
    Unequal,
    Less,
    Greater,
    AtMost,
    AtLeast,
}

/// An operator that may pass over its right operand.
#[derive(Clone, Copy, Debug, PartialEq, Eq)]
pub enum Connective {
    And,
    Or,
}

/// What is done with the values of the parts.
#[derive(Drop)]
pub enum Op {
    /// `( a, b )`. `()` has no parts.
    Tuple,
    /// `[ a, b ]`
    List,
    /// A constructor of a declared union with all its fields. Its name stands there.
    Build(Pos, Union, Alternative),
    /// `{ x = a, y = b }`: the names in written order.
    Record(Vec<Name>),
    /// `{ r | x = a, y = b }`: the record is the first part.
    Update(Vec<Name>),
    /// `-a`
    Negate,
    /// `a + b`, whose operator stands there.
    Binary(Pos, Operator),
}

/// What a definition defines.
#[derive(Drop)]
pub struct Title {
    pub name: Ref,
    /// Where the definition is written.
    pub place: Pos,
    pub annotation: Option<Annotation>,
}

/// An expression.
#[cycle(exprs)]
#[derive(Drop)]
pub enum Expr {
    Literal(Literal),
    Name(Ref),
    /// `.x`
    Accessor(Name),
    Lambda(Vec<Pattern>, Box<Expr>),
    /// A function and its arguments in turn.
    Apply(Box<Expr>, Vec<Expr>),
    /// The parts from left to right, and then one thing with their values.
    Strict(Op, Vec<Expr>),
    /// `a.x.y`
    Access(Box<Expr>, Vec<Name>),
    If(Box<Expr>, Box<Expr>, Box<Expr>),
    /// An expression, and what is done with it in turn: a chain of operators, however long it is.
    Chain(Box<Expr>, Vec<Link>),
    Let(Vec<Group>, Box<Expr>),
    Case(Box<Expr>, Vec<Branch>),
    /// An expression, and where it begins.
    Located(Pos, Box<Expr>),
}

/// What is done with an expression `_`.
#[cycle(exprs)]
#[derive(Drop)]
pub enum Link {
    /// `f a _`: it is the last argument of a function. `_ |> f a`, `f a <| _`, `a ^ _` and `a << _` are such.
    Given(Box<Expr>, Vec<Expr>),
    /// `f _ a`: it is the first argument of a function. `_ >> a` is such.
    Composed(Box<Expr>, Box<Expr>),
    /// It is the last part, after these: `C a _` and `a :: _`.
    After(Op, Vec<Expr>),
    /// It is the first part, before this: `_ + a`.
    Before(Op, Box<Expr>),
    /// `a && _` or `a || _`, whose operator stands there.
    Decided(Pos, Connective, Box<Expr>),
}

/// A branch of a `case`.
#[cycle(exprs)]
#[derive(Drop)]
pub struct Branch {
    pub pattern: Pattern,
    pub body: Box<Expr>,
}

/// Definitions that use each other. A group stands after those that it uses.
#[cycle(exprs)]
#[derive(Drop)]
pub enum Group {
    /// Functions that may use each other, by their places.
    Together(Vec<Function>),
    /// A definition that is not a function and does not use itself.
    Constant(Title, Box<Expr>),
    /// `p = e`
    Destructure(Pattern, Box<Expr>),
}

/// A function that is defined. If it has no parameters, the body is a lambda.
#[cycle(exprs)]
#[derive(Drop)]
pub struct Function {
    pub title: Title,
    pub parameters: Vec<Pattern>,
    pub body: Box<Expr>,
}

/// What crosses a port.
#[cycle(payloads)]
#[derive(Drop)]
pub enum Payload {
    Int,
    Bool,
    Text,
    Maybe(Box<Payload>),
    List(Box<Payload>),
    /// `()` has no parts.
    Tuple(Vec<Payload>),
    Record(Vec<PayloadField>),
}

/// A field of a record that crosses a port.
#[cycle(payloads)]
#[derive(Drop)]
pub struct PayloadField {
    pub name: Name,
    pub value: Payload,
}

/// A function without a body.
#[derive(Drop)]
pub enum Known {
    /// A constructor, with its number of fields.
    Maker(Alternative),
    /// The constructor of a record's alias, with its fields in written order.
    RecordMaker(Vec<Name>),
    OutPort(Name, Payload),
    InPort(Name, Payload),
}

/// `type T a b = C t u | D`
#[derive(Drop)]
pub struct UnionDeclaration {
    pub name: Name,
    pub union: Union,
    pub parameters: Vec<Name>,
    /// The types of the fields of each constructor.
    pub fields: Vec<Fields>,
}

/// The types of the fields of a constructor.
#[derive(Drop)]
pub struct Fields {
    pub types: Vec<Annotation>,
}

/// `type alias T a b = t`
#[derive(Drop)]
pub struct AliasDeclaration {
    pub name: Name,
    pub parameters: Vec<Name>,
    pub body: Annotation,
    /// Whether the body is written as a closed record, so that the alias is also a constructor.
    pub is_maker: bool,
}

/// `port x : t`
#[derive(Drop)]
pub struct PortDeclaration {
    pub name: Name,
    pub place: Pos,
    pub port_type: Annotation,
}

/// What a module declares.
#[derive(Drop)]
pub enum Declaration {
    /// What has no body, by its name.
    Given(Ref, Known),
    Define(Group),
}

/// A module, whose types those that import it share. Its declarations are the constructors in written order, and then
/// the groups of values, ports among them.
#[derive(Drop)]
pub struct Module {
    pub name: Name,
    pub unions: Vec<Arc<UnionDeclaration, Global>>,
    pub aliases: Vec<Arc<AliasDeclaration, Global>>,
    pub ports: Vec<PortDeclaration>,
    pub declarations: Vec<Declaration>,
}
