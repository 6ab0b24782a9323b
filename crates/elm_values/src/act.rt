//! What is made of each production.

ghost use Rattle.std.specs.Prelude.{OnOk, IsTrue};
ghost use Rattle.elm_values.specs.Stack.{Acts};
ghost use Rattle.elm_values.specs.Used.{is_used, of_expr, of_module, of_part};

use crate::items::{comma, empty, ended, more, same, second, second_word};
use crate::store::Store;
use crate::{definitions, exprs, modules, patterns, types};
use elm_grammar::action::Action;
use std::alloc::{AllocError, Global};

/// What an action takes gives way to what it makes.
pub fn act(alloc: Global, action: Action, stacks: &mut Store) -> Result<(), AllocError>
    requires { IsTrue (is_used action) }
    ensures { OnOk result (Acts action stacks.old stacks.new) }
{
    match action {
        Action::Same(item) => same(alloc, item, stacks),
        Action::Second(item) => second(alloc, item, stacks),
        Action::Empty(item) => empty(alloc, item, stacks),
        Action::End(item) => ended(alloc, item, stacks),
        Action::More(item) => more(alloc, item, stacks),
        Action::Comma(item) => comma(alloc, item, stacks),
        Action::SecondAsList => second_word(alloc, stacks),
        _ => act_in_module(alloc, action, stacks),
    }
}

/// An action of the grammar of modules, or one of a smaller part.
fn act_in_module(alloc: Global, action: Action, stacks: &mut Store) -> Result<(), AllocError>
    requires { IsTrue (of_module action) }
    ensures { OnOk result (Acts action stacks.old stacks.new) }
{
    match action {
        Action::EmptyModule => modules::empty_module(alloc, stacks),
        Action::WithHeader => modules::with_header(alloc, stacks),
        Action::WithImport => modules::with_import(alloc, stacks),
        Action::WithDeclaration => modules::with_declaration(alloc, stacks),
        Action::PortModule => modules::port_module(alloc, stacks),
        Action::FirstPort => modules::first_port(alloc, stacks),
        Action::HeaderOf => modules::header_of(stacks),
        Action::PortHeader => modules::port_header(stacks),
        Action::ExposeAll => modules::expose_all(stacks),
        Action::ExposeNothing => modules::expose_nothing(alloc, stacks),
        Action::ExposeThese => modules::expose_these(alloc, stacks),
        Action::ExposeWord => modules::expose_word(stacks),
        Action::ExposeUpper => modules::expose_upper(alloc, stacks),
        Action::ExposeOperator => modules::expose_operator(stacks),
        Action::Opening => modules::opening(alloc, stacks),
        Action::ImportOf => modules::import_of(alloc, stacks),
        Action::PortOf => modules::port_of(stacks),
        Action::ValueOf => modules::value_of(stacks),
        Action::AliasOf => modules::alias_of(alloc, stacks),
        Action::UnionOf => modules::union_of(alloc, stacks),
        Action::ConstructorOf => modules::constructor_of(alloc, stacks),
        _ => act_in_part(alloc, action, stacks),
    }
}

/// An action of the grammar of types, definitions and patterns, or one of expressions.
fn act_in_part(alloc: Global, action: Action, stacks: &mut Store) -> Result<(), AllocError>
    requires { IsTrue (of_part action) }
    ensures { OnOk result (Acts action stacks.old stacks.new) }
{
    match action {
        Action::AnnotationRest => types::annotation(stacks),
        Action::ArrowsOf => types::arrow_type(alloc, stacks),
        Action::NamedType => types::named_type(alloc, stacks),
        Action::NamedTypeAlone => types::lone_type(alloc, stacks),
        Action::VariableType => types::variable(stacks),
        Action::BracketType => types::brackets(alloc, stacks),
        Action::EmptyRecordType => types::empty_record(alloc, stacks),
        Action::RecordTypeOf => types::record_type(alloc, stacks),
        Action::MoreFieldTypes => types::more_fields(alloc, stacks),
        Action::ConstantRest => definitions::constant(alloc, stacks),
        Action::FunctionRest => definitions::function(alloc, stacks),
        Action::DefinitionOf => definitions::named(stacks),
        Action::DestructureOf => definitions::destructure(stacks),
        Action::PatternOf => patterns::pattern_of(alloc, stacks),
        Action::ConstructOf => patterns::construct(alloc, stacks),
        Action::ConstructAlone => patterns::construct_alone(alloc, stacks),
        Action::WordPattern => patterns::word(stacks),
        Action::NegativePattern => patterns::negative(stacks),
        Action::BracketPattern => patterns::brackets(alloc, stacks),
        Action::ListPatternOf => patterns::list(alloc, stacks),
        Action::FieldsPatternOf => patterns::fields(alloc, stacks),
        _ => act_in_expr(alloc, action, stacks),
    }
}

/// An action of the grammar of expressions.
fn act_in_expr(alloc: Global, action: Action, stacks: &mut Store) -> Result<(), AllocError>
    requires { IsTrue (of_expr action) }
    ensures { OnOk result (Acts action stacks.old stacks.new) }
{
    match action {
        Action::ChainOf => exprs::chain_of(alloc, stacks),
        Action::MoreOperators => exprs::more_operators(alloc, stacks),
        Action::OperandThen => exprs::operand_then(alloc, stacks),
        Action::LastOperand => exprs::last_operand(alloc, stacks),
        Action::Applied => exprs::apply(alloc, stacks),
        Action::Negative => exprs::negative(alloc, stacks),
        Action::NegativeArgument => exprs::negative_argument(alloc, stacks),
        Action::IfOf => exprs::if_then(alloc, stacks),
        Action::CaseOf => exprs::case_of(alloc, stacks),
        Action::LetOf => exprs::let_definitions(alloc, stacks),
        Action::LambdaOf => exprs::function(alloc, stacks),
        Action::BranchOf => exprs::case_branch(stacks),
        Action::WordExpr => exprs::word(stacks),
        Action::WordAccess => exprs::word_access(alloc, stacks),
        Action::BracketAccess => exprs::bracket_access(alloc, stacks),
        Action::RecordAccess => exprs::record_access(alloc, stacks),
        Action::ListOf => exprs::list(alloc, stacks),
        Action::OperatorAlone => exprs::operator_alone(alloc, stacks),
        Action::MinusParen => exprs::minus_brackets(alloc, stacks),
        Action::MinusAlone => exprs::minus_alone(stacks),
        Action::MinusOperand => exprs::minus_operand(alloc, stacks),
        Action::UnsignedOf => exprs::unsigned(alloc, stacks),
        Action::EmptyRecord => exprs::empty_record(alloc, stacks),
        Action::RecordOf => exprs::record_of(alloc, stacks),
        Action::MoreFields => exprs::more_fields(alloc, stacks),
        _ => unreachable!(),
    }
}
