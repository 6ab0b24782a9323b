//! What is made of a production.

/// What a value on the way to a tree is, alone or as an item of a list.
#[derive(Clone, Copy)]
pub enum Item {
    /// A token.
    Word,
    Module,
    Header,
    Exposing,
    Exposed,
    Import,
    Declaration,
    /// A definition without its name.
    Rest,
    Constructor,
    TypeTree,
    /// The name of a field and its type.
    FieldType,
    /// A pattern and where its text begins.
    Pattern,
    Expr,
    /// An operator and its right operand, or the name of a field and its value.
    Part,
    /// An operand, and the others of the chain.
    Chain,
    /// What follows a minus in parentheses.
    AfterMinus,
    /// The base of a record, if it has one, and its fields.
    Record,
    Branch,
    Definition,
}

/// What is made of the values of a production's symbols.
#[derive(Clone, Copy)]
pub enum Action {
    /// The one value.
    Same(Item),
    /// The second of two values, after a word.
    Second(Item),
    /// The list of nothing.
    Empty(Item),
    /// The list of nothing, at a closing bracket.
    End(Item),
    /// The list with one more item in front.
    More(Item),
    /// The same after a word that separates the items.
    Comma(Item),
    /// The second of two words, as a list.
    SecondAsList,
    EmptyModule,
    WithHeader,
    WithImport,
    WithDeclaration,
    PortModule,
    FirstPort,
    HeaderOf,
    PortHeader,
    ExposeAll,
    ExposeNothing,
    ExposeThese,
    ExposeWord,
    ExposeUpper,
    ExposeOperator,
    Opening,
    ImportOf,
    PortOf,
    ValueOf,
    AliasOf,
    UnionOf,
    ConstructorOf,
    AnnotationRest,
    FunctionRest,
    ConstantRest,
    ArrowsOf,
    NamedType,
    NamedTypeAlone,
    VariableType,
    BracketType,
    EmptyRecordType,
    RecordTypeOf,
    MoreFieldTypes,
    ChainOf,
    MoreOperators,
    OperandThen,
    LastOperand,
    Applied,
    Negative,
    NegativeArgument,
    IfOf,
    CaseOf,
    LetOf,
    LambdaOf,
    BranchOf,
    DefinitionOf,
    DestructureOf,
    WordExpr,
    WordAccess,
    BracketAccess,
    RecordAccess,
    ListOf,
    OperatorAlone,
    MinusParen,
    MinusAlone,
    MinusOperand,
    UnsignedOf,
    EmptyRecord,
    RecordOf,
    MoreFields,
    PatternOf,
    ConstructOf,
    ConstructAlone,
    WordPattern,
    NegativePattern,
    BracketPattern,
    ListPatternOf,
    FieldsPatternOf,
}
