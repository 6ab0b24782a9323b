//! The values on the stack while a tree is built.

use elm_tree::tree::{
    Branch, Constructor, Declaration, Definition, Exposed, Exposing, Expr, FieldType, Header,
    Import, Module, Part, Pattern, TypeTree, Word,
};

/// A definition without its name.
#[derive(Drop)]
pub enum Rest {
    /// `: T`
    Typed(TypeTree),
    /// `p q = e`
    Bodied(Vec<Pattern>, Expr),
}

/// A pattern and the word at which its text begins.
#[derive(Drop)]
pub struct Begun {
    pub place: Word,
    pub pattern: Pattern,
}

/// An operand, and the others of its chain.
#[derive(Drop)]
pub struct Chain {
    pub first: Expr,
    pub parts: Vec<Part>,
}

/// What follows a minus in parentheses.
#[derive(Drop)]
pub enum AfterMinus {
    /// The closing one.
    Closed,
    /// An operand, its arguments, the others of the chain, and the other parts of a tuple.
    Operand(Expr, Vec<Expr>, Vec<Part>, Vec<Expr>),
}

/// The base of a record, if it has one, and its fields.
#[derive(Drop)]
pub struct Fields {
    pub base: Option<Word>,
    pub parts: Vec<Part>,
}

/// The values of each kind, the last one on top. A list is held from its last item to its first.
#[derive(Drop)]
pub struct Stacks {
    pub words: Vec<Word>,
    pub word_lists: Vec<Vec<Word>>,
    pub modules: Vec<Module>,
    pub headers: Vec<Header>,
    pub exposings: Vec<Exposing>,
    pub exposed: Vec<Exposed>,
    pub exposed_lists: Vec<Vec<Exposed>>,
    pub imports: Vec<Import>,
    pub declarations: Vec<Declaration>,
    pub rests: Vec<Rest>,
    pub constructors: Vec<Constructor>,
    pub constructor_lists: Vec<Vec<Constructor>>,
    pub types: Vec<TypeTree>,
    pub type_lists: Vec<Vec<TypeTree>>,
    pub field_type_lists: Vec<Vec<FieldType>>,
    pub patterns: Vec<Begun>,
    pub pattern_lists: Vec<Vec<Begun>>,
    pub exprs: Vec<Expr>,
    pub expr_lists: Vec<Vec<Expr>>,
    pub part_lists: Vec<Vec<Part>>,
    pub chains: Vec<Chain>,
    pub after_minus: Vec<AfterMinus>,
    pub records: Vec<Fields>,
    pub branches: Vec<Branch>,
    pub branch_lists: Vec<Vec<Branch>>,
    pub definitions: Vec<Definition>,
    pub definition_lists: Vec<Vec<Definition>>,
}
