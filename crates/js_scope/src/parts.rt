//! What a node does with names, besides what its parts do.

ghost use Rattle.std.specs.Prelude.{◌≡◌, List, []};
ghost use Rattle.js_tree.specs.Postorder.{Tree, apply, expression, items, members, statements, block, lines, top};
ghost use Rattle.js_scope.specs.Uses.{Nothing, declared, uses, items_uses, members_uses, statements_uses, names_before};
ghost use Rattle.js_scope.specs.Uses.{block_uses, lines_before_uses, line_names_before};

use js_tree::tree::{Name, Node};

/// What an expression does.
pub(crate) enum Form<'a> {
    /// It has no names, or is none.
    Nothing,
    /// It reads a name.
    Reads(&'a Name),
    /// It is a function of a parameter.
    Arrow(&'a Name),
    /// It is a function without one.
    Function,
    /// It has one expression.
    Whole,
    /// It has two expressions.
    Pair,
    /// It has three expressions.
    Triple,
    /// It has fields.
    Fields,
    /// It has items.
    Items,
}

/// What a statement does that others follow.
pub(crate) enum Statement<'a> {
    /// It is none.
    Nothing,
    /// It declares a name, with an expression.
    Declares(&'a Name),
    /// It assigns a name, with an expression.
    Assigns(&'a Name),
}

/// How a block ends.
pub(crate) enum Ending {
    /// It goes on with a loop, or is none.
    Nothing,
    /// It returns an expression.
    Return,
    /// It has a test and two blocks.
    If,
    /// It is a loop of a block.
    While,
    /// It is a block after statements.
    Ended,
}

ghost use Rattle.js_scope.specs.Parts.{uses_by, items_by, members_by, statements_by, names_by, block_by, declared_by};
ghost use Rattle.js_scope.specs.Parts.{lines_by, line_names_by, program_of, program_by};

/// What a node does as an expression.
pub(crate) fn form_of(node: &Node) -> Form<'_>
    ensures { (trees : List Tree) → uses (expression (top (apply node.now trees))) ≡ uses_by result trees }
{
    match node {
        Node::Var(name) => Form::Reads(name),
        Node::Arrow(name) => Form::Arrow(name),
        Node::Block => Form::Function,
        Node::Call | Node::Binary(_) => Form::Pair,
        Node::Conditional => Form::Triple,
        Node::Object => Form::Fields,
        Node::Property(_) => Form::Whole,
        Node::List | Node::Helper(_) => Form::Items,
        Node::Int(_)
        | Node::Bool(_)
        | Node::Text(_)
        | Node::NoItem
        | Node::Item
        | Node::NoField
        | Node::Field(_)
        | Node::NoStatement
        | Node::Const(_)
        | Node::Let(_)
        | Node::Assign(_)
        | Node::Return
        | Node::If
        | Node::While
        | Node::Continue
        | Node::Ended
        | Node::NoLine
        | Node::Line(_)
        | Node::Program { .. } => Form::Nothing,
    }
}

/// The node adds an item to others.
pub(crate) fn is_item(node: &Node) -> bool
    ensures { (trees : List Tree) → items_uses (items (top (apply node.now trees))) ≡ items_by result trees }
{
    match node {
        Node::Item => true,
        Node::Int(_)
        | Node::Bool(_)
        | Node::Text(_)
        | Node::Var(_)
        | Node::Arrow(_)
        | Node::Block
        | Node::Call
        | Node::Binary(_)
        | Node::Conditional
        | Node::Object
        | Node::Property(_)
        | Node::List
        | Node::Helper(_)
        | Node::NoItem
        | Node::NoField
        | Node::Field(_)
        | Node::NoStatement
        | Node::Const(_)
        | Node::Let(_)
        | Node::Assign(_)
        | Node::Return
        | Node::If
        | Node::While
        | Node::Continue
        | Node::Ended
        | Node::NoLine
        | Node::Line(_)
        | Node::Program { .. } => false,
    }
}

/// The node adds a field to others.
pub(crate) fn is_field(node: &Node) -> bool
    ensures { (trees : List Tree) → members_uses (members (top (apply node.now trees))) ≡ members_by result trees }
{
    match node {
        Node::Field(_) => true,
        Node::Int(_)
        | Node::Bool(_)
        | Node::Text(_)
        | Node::Var(_)
        | Node::Arrow(_)
        | Node::Block
        | Node::Call
        | Node::Binary(_)
        | Node::Conditional
        | Node::Object
        | Node::Property(_)
        | Node::List
        | Node::Helper(_)
        | Node::NoItem
        | Node::Item
        | Node::NoField
        | Node::NoStatement
        | Node::Const(_)
        | Node::Let(_)
        | Node::Assign(_)
        | Node::Return
        | Node::If
        | Node::While
        | Node::Continue
        | Node::Ended
        | Node::NoLine
        | Node::Line(_)
        | Node::Program { .. } => false,
    }
}

/// What a node does as a statement after others.
pub(crate) fn statement_of(node: &Node) -> Statement<'_>
    ensures uses { (trees : List Tree) → statements_uses (statements (top (apply node.now trees)))
        ≡ statements_by result trees }
    ensures names { (trees : List Tree) → names_before (statements (top (apply node.now trees))) []
        ≡ names_by result trees }
{
    match node {
        Node::Const(name) | Node::Let(name) => Statement::Declares(name),
        Node::Assign(name) => Statement::Assigns(name),
        Node::Int(_)
        | Node::Bool(_)
        | Node::Text(_)
        | Node::Var(_)
        | Node::Arrow(_)
        | Node::Block
        | Node::Call
        | Node::Binary(_)
        | Node::Conditional
        | Node::Object
        | Node::Property(_)
        | Node::List
        | Node::Helper(_)
        | Node::NoItem
        | Node::Item
        | Node::NoField
        | Node::Field(_)
        | Node::NoStatement
        | Node::Return
        | Node::If
        | Node::While
        | Node::Continue
        | Node::Ended
        | Node::NoLine
        | Node::Line(_)
        | Node::Program { .. } => Statement::Nothing,
    }
}

/// What a node does as a block.
pub(crate) fn ending_of(node: &Node) -> Ending
    ensures uses { (trees : List Tree) → block_uses (block (top (apply node.now trees))) Nothing
        ≡ block_by result trees }
    ensures names { (trees : List Tree) → declared (block (top (apply node.now trees))) [] ≡ declared_by result trees }
{
    match node {
        Node::Return => Ending::Return,
        Node::If => Ending::If,
        Node::While => Ending::While,
        Node::Ended => Ending::Ended,
        Node::Int(_)
        | Node::Bool(_)
        | Node::Text(_)
        | Node::Var(_)
        | Node::Arrow(_)
        | Node::Block
        | Node::Call
        | Node::Binary(_)
        | Node::Conditional
        | Node::Object
        | Node::Property(_)
        | Node::List
        | Node::Helper(_)
        | Node::NoItem
        | Node::Item
        | Node::NoField
        | Node::Field(_)
        | Node::NoStatement
        | Node::Const(_)
        | Node::Let(_)
        | Node::Assign(_)
        | Node::Continue
        | Node::NoLine
        | Node::Line(_)
        | Node::Program { .. } => Ending::Nothing,
    }
}

/// The name of a line that the node adds to others.
pub(crate) fn line_name(node: &Node) -> Option<&Name>
    ensures uses { (trees : List Tree) → lines_before_uses (lines (top (apply node.now trees)))
        ≡ lines_by result trees }
    ensures names { (trees : List Tree) → line_names_before (lines (top (apply node.now trees))) []
        ≡ line_names_by result trees }
{
    match node {
        Node::Line(name) => Some(name),
        Node::Int(_)
        | Node::Bool(_)
        | Node::Text(_)
        | Node::Var(_)
        | Node::Arrow(_)
        | Node::Block
        | Node::Call
        | Node::Binary(_)
        | Node::Conditional
        | Node::Object
        | Node::Property(_)
        | Node::List
        | Node::Helper(_)
        | Node::NoItem
        | Node::Item
        | Node::NoField
        | Node::Field(_)
        | Node::NoStatement
        | Node::Const(_)
        | Node::Let(_)
        | Node::Assign(_)
        | Node::Return
        | Node::If
        | Node::While
        | Node::Continue
        | Node::Ended
        | Node::NoLine
        | Node::Program { .. } => None,
    }
}

/// The node is a program.
pub(crate) fn is_program(node: &Node) -> bool
    ensures { (trees : List Tree) → program_of (top (apply node.now trees)) ≡ program_by result trees }
{
    match node {
        Node::Program { .. } => true,
        Node::Int(_)
        | Node::Bool(_)
        | Node::Text(_)
        | Node::Var(_)
        | Node::Arrow(_)
        | Node::Block
        | Node::Call
        | Node::Binary(_)
        | Node::Conditional
        | Node::Object
        | Node::Property(_)
        | Node::List
        | Node::Helper(_)
        | Node::NoItem
        | Node::Item
        | Node::NoField
        | Node::Field(_)
        | Node::NoStatement
        | Node::Const(_)
        | Node::Let(_)
        | Node::Assign(_)
        | Node::Return
        | Node::If
        | Node::While
        | Node::Continue
        | Node::Ended
        | Node::NoLine
        | Node::Line(_) => false,
    }
}
