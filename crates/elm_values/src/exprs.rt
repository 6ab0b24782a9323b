//! Expressions.

#![tactic(auto)]

ghost use Rattle.std.specs.Prelude.{◌≡◌, ◌∷◌, [], List, OnOk};
ghost use Rattle.elm_lexer.specs.Tokens.{Token};
ghost use Rattle.elm_tree.specs.Tree as tree;
ghost use Rattle.elm_tree.specs.Words.{expr_of};
ghost use Rattle.elm_tree.specs.View.{expr_view, part_view, place_view, token_view, word_view};
ghost use Rattle.elm_grammar.specs.declared.action.Action.TheVariants.{Applied, BracketAccess, BranchOf, CaseOf};
ghost use Rattle.elm_grammar.specs.declared.action.Action.TheVariants.{ChainOf, EmptyRecord, IfOf, LambdaOf};
ghost use Rattle.elm_grammar.specs.declared.action.Action.TheVariants.{LastOperand, LetOf, ListOf, MinusAlone};
ghost use Rattle.elm_grammar.specs.declared.action.Action.TheVariants.{MinusOperand, MinusParen, MoreFields};
ghost use Rattle.elm_grammar.specs.declared.action.Action.TheVariants.{MoreOperators, Negative, NegativeArgument};
ghost use Rattle.elm_grammar.specs.declared.action.Action.TheVariants.{OperandThen, OperatorAlone, RecordAccess};
ghost use Rattle.elm_grammar.specs.declared.action.Action.TheVariants.{RecordOf, UnsignedOf, WordAccess, WordExpr};
ghost use Rattle.elm_grammar.specs.declared.action.Item.TheVariants as item;
ghost use Rattle.elm_grammar.specs.Values.{One, Many, accessed, applied, chained};
ghost use Rattle.elm_values.specs.Stack.{Acts, columns, held, pop, push, top};

use crate::items::{more_exprs, same_expr};
use crate::lists::{one_item, put_in, turned};
use crate::make::{base_and_field, brackets, patterns, record_expr};
use crate::stack::{
    put_after_minus, put_branch, put_chain, put_expr, put_exprs, put_fields, put_parts, skip_word,
    take_after_minus, take_boxed_expr, take_branches, take_chain, take_definitions, take_expr,
    take_exprs, take_fields, take_parts, take_pattern, take_patterns, take_word, take_words,
};
use crate::store::Store;
use crate::value::{AfterMinus, Chain, Fields};
use elm_tree::tree::{Branch, Expr, Part, Word};
use std::alloc::{AllocError, Global};

// ---- the last expression

/// The last expression becomes a function with these arguments. Without arguments it stays.
fn apply_last(alloc: Global, stacks: &mut Store, arguments: Vec<Expr>) -> Result<(), AllocError>
    ensures { OnOk result ((tokens : List Token) → columns tokens stacks.new
        ≡ push (One item.Expr)
        (applied (top tokens (One item.Expr) (columns tokens stacks.old)) (held (expr_view tokens) arguments.items))
        (pop (One item.Expr) (columns tokens stacks.old))) }
{
    if arguments.is_empty() {
        return same_expr(stacks);
    }
    let function = take_boxed_expr(alloc, stacks)?;
    put_expr(stacks, Expr::Apply(function, turned(arguments)))
}

/// The last expression becomes the first operand of a chain. Without others it stays.
fn chain_last(alloc: Global, stacks: &mut Store, others: Vec<Part>) -> Result<(), AllocError>
    ensures { OnOk result ((tokens : List Token) → columns tokens stacks.new
        ≡ push (One item.Expr)
        (chained (top tokens (One item.Expr) (columns tokens stacks.old)) (held (part_view tokens) others.items))
        (pop (One item.Expr) (columns tokens stacks.old))) }
{
    if others.is_empty() {
        return same_expr(stacks);
    }
    let operand = take_boxed_expr(alloc, stacks)?;
    put_expr(stacks, Expr::Chain(operand, turned(others)))
}

/// The last expression, which begins with the word, becomes its field. Without fields it stays.
fn access_last(
    alloc: Global,
    stacks: &mut Store,
    place: Word,
    fields: Vec<Word>,
) -> Result<(), AllocError>
    ensures { OnOk result ((tokens : List Token) → columns tokens stacks.new
        ≡ push (One item.Expr)
        (accessed (place_view tokens place) (top tokens (One item.Expr) (columns tokens stacks.old))
        (held (token_view tokens) fields.items))
        (pop (One item.Expr) (columns tokens stacks.old))) }
{
    if fields.is_empty() {
        return same_expr(stacks);
    }
    let e = take_boxed_expr(alloc, stacks)?;
    put_expr(stacks, Expr::Access(place, e, turned(fields)))
}

/// The last expression is negated.
fn negate_last(alloc: Global, stacks: &mut Store, minus: Word) -> Result<(), AllocError>
    ensures { OnOk result ((tokens : List Token) → columns tokens stacks.new
        ≡ push (One item.Expr)
        (tree.Negate (place_view tokens minus) (top tokens (One item.Expr) (columns tokens stacks.old)))
        (pop (One item.Expr) (columns tokens stacks.old))) }
{
    let operand = take_boxed_expr(alloc, stacks)?;
    put_expr(stacks, Expr::Negative(minus, operand))
}

/// The last expression goes with the word in front of the last list of operands or fields.
fn put_part(alloc: Global, stacks: &mut Store, word: Word) -> Result<(), AllocError>
    ensures { OnOk result ((tokens : List Token) → columns tokens stacks.new
        ≡ push (Many item.Part)
        ((word_view tokens word, top tokens (One item.Expr) (columns tokens stacks.old))
        ∷ top tokens (Many item.Part) (columns tokens stacks.old))
        (pop (Many item.Part) (pop (One item.Expr) (columns tokens stacks.old)))) }
{
    let value = take_expr(stacks);
    put_in(alloc, &mut stacks.held.part_lists, Part { word, value })
}

/// A word as the only expression of a list.
fn put_word_list(alloc: Global, stacks: &mut Store, word: Word) -> Result<(), AllocError>
    ensures { OnOk result ((tokens : List Token) → columns tokens stacks.new
        ≡ push (Many item.Expr) (expr_of (token_view tokens word) ∷ []) (columns tokens stacks.old)) }
{
    put_exprs(stacks, one_item(alloc, Expr::OneWord(word))?)
}

// ---- actions

/// An operand and the others.
pub fn chain_of(alloc: Global, stacks: &mut Store) -> Result<(), AllocError>
    ensures { OnOk result (Acts ChainOf stacks.old stacks.new) }
{
    let others = take_parts(alloc, stacks);
    chain_last(alloc, stacks, others)
}

/// One operator more.
pub fn more_operators(alloc: Global, stacks: &mut Store) -> Result<(), AllocError>
    ensures { OnOk result (Acts MoreOperators stacks.old stacks.new) }
{
    let operator = take_word(stacks);
    let Chain { first, parts } = take_chain(alloc, stacks);
    put_expr(stacks, first)?;
    put_parts(stacks, parts)?;
    put_part(alloc, stacks, operator)
}

/// An operand, and the others after it.
pub fn operand_then(alloc: Global, stacks: &mut Store) -> Result<(), AllocError>
    ensures { OnOk result (Acts OperandThen stacks.old stacks.new) }
{
    let parts = take_parts(alloc, stacks);
    let first = take_expr(stacks);
    put_chain(stacks, Chain { first, parts })
}

/// The last operand.
pub fn last_operand(alloc: Global, stacks: &mut Store) -> Result<(), AllocError>
    ensures { OnOk result (Acts LastOperand stacks.old stacks.new) }
{
    let first = take_expr(stacks);
    put_chain(
        stacks,
        Chain {
            first,
            parts: Vec::new(alloc),
        },
    )
}

/// A function and its arguments.
pub fn apply(alloc: Global, stacks: &mut Store) -> Result<(), AllocError>
    ensures { OnOk result (Acts Applied stacks.old stacks.new) }
{
    let arguments = take_exprs(alloc, stacks);
    apply_last(alloc, stacks, arguments)
}

/// `-e`
pub fn negative(alloc: Global, stacks: &mut Store) -> Result<(), AllocError>
    ensures { OnOk result (Acts Negative stacks.old stacks.new) }
{
    let minus = take_word(stacks);
    negate_last(alloc, stacks, minus)
}

/// A negated argument in front of others.
pub fn negative_argument(alloc: Global, stacks: &mut Store) -> Result<(), AllocError>
    ensures { OnOk result (Acts NegativeArgument stacks.old stacks.new) }
{
    let minus = take_word(stacks);
    negate_last(alloc, stacks, minus)?;
    more_exprs(alloc, stacks)
}

/// `if`
pub fn if_then(alloc: Global, stacks: &mut Store) -> Result<(), AllocError>
    ensures { OnOk result (Acts IfOf stacks.old stacks.new) }
{
    skip_word(stacks);
    let condition = take_boxed_expr(alloc, stacks)?;
    skip_word(stacks);
    let yes = take_boxed_expr(alloc, stacks)?;
    skip_word(stacks);
    let no = take_boxed_expr(alloc, stacks)?;
    put_expr(stacks, Expr::If(condition, yes, no))
}

/// `case`
pub fn case_of(alloc: Global, stacks: &mut Store) -> Result<(), AllocError>
    ensures { OnOk result (Acts CaseOf stacks.old stacks.new) }
{
    let place = take_word(stacks);
    let subject = take_boxed_expr(alloc, stacks)?;
    skip_word(stacks);
    let branches = turned(take_branches(alloc, stacks));
    put_expr(stacks, Expr::Case(place, subject, branches))
}

/// `let`
pub fn let_definitions(alloc: Global, stacks: &mut Store) -> Result<(), AllocError>
    ensures { OnOk result (Acts LetOf stacks.old stacks.new) }
{
    skip_word(stacks);
    let definitions = turned(take_definitions(alloc, stacks));
    skip_word(stacks);
    let body = take_boxed_expr(alloc, stacks)?;
    put_expr(stacks, Expr::Let(definitions, body))
}

/// A function.
pub fn function(alloc: Global, stacks: &mut Store) -> Result<(), AllocError>
    ensures { OnOk result (Acts LambdaOf stacks.old stacks.new) }
{
    let place = take_word(stacks);
    let parameters = patterns(alloc, take_patterns(alloc, stacks))?;
    skip_word(stacks);
    let body = take_boxed_expr(alloc, stacks)?;
    put_expr(stacks, Expr::Lambda(place, parameters, body))
}

/// A branch.
pub fn case_branch(stacks: &mut Store) -> Result<(), AllocError>
    ensures { OnOk result (Acts BranchOf stacks.old stacks.new) }
{
    let begun = take_pattern(stacks);
    skip_word(stacks);
    let body = take_expr(stacks);
    let pattern = begun.pattern;
    put_branch(stacks, Branch { pattern, body })
}

/// An expression of one word.
pub fn word(stacks: &mut Store) -> Result<(), AllocError>
    ensures { OnOk result (Acts WordExpr stacks.old stacks.new) }
{
    let word = take_word(stacks);
    put_expr(stacks, Expr::OneWord(word))
}

/// A word and fields.
pub fn word_access(alloc: Global, stacks: &mut Store) -> Result<(), AllocError>
    ensures { OnOk result (Acts WordAccess stacks.old stacks.new) }
{
    let word = take_word(stacks);
    let fields = take_words(alloc, stacks);
    put_expr(stacks, Expr::OneWord(word))?;
    access_last(alloc, stacks, word, fields)
}

/// Parentheses and fields.
pub fn bracket_access(alloc: Global, stacks: &mut Store) -> Result<(), AllocError>
    ensures { OnOk result (Acts BracketAccess stacks.old stacks.new) }
{
    let place = take_word(stacks);
    let exprs = take_exprs(alloc, stacks);
    let fields = take_words(alloc, stacks);
    put_expr(stacks, brackets(place, exprs))?;
    access_last(alloc, stacks, place, fields)
}

/// A record and fields.
pub fn record_access(alloc: Global, stacks: &mut Store) -> Result<(), AllocError>
    ensures { OnOk result (Acts RecordAccess stacks.old stacks.new) }
{
    let place = take_word(stacks);
    let built = take_fields(alloc, stacks);
    let fields = take_words(alloc, stacks);
    put_expr(stacks, record_expr(place, built))?;
    access_last(alloc, stacks, place, fields)
}

/// A list.
pub fn list(alloc: Global, stacks: &mut Store) -> Result<(), AllocError>
    ensures { OnOk result (Acts ListOf stacks.old stacks.new) }
{
    let place = take_word(stacks);
    let exprs = turned(take_exprs(alloc, stacks));
    put_expr(stacks, Expr::List(place, exprs))
}

/// An operator in parentheses.
pub fn operator_alone(alloc: Global, stacks: &mut Store) -> Result<(), AllocError>
    ensures { OnOk result (Acts OperatorAlone stacks.old stacks.new) }
{
    let operator = take_word(stacks);
    skip_word(stacks);
    put_word_list(alloc, stacks, operator)
}

/// Parentheses that begin with a minus.
pub fn minus_brackets(alloc: Global, stacks: &mut Store) -> Result<(), AllocError>
    ensures { OnOk result (Acts MinusParen stacks.old stacks.new) }
{
    let minus = take_word(stacks);
    match take_after_minus(stacks) {
        AfterMinus::Closed => put_word_list(alloc, stacks, minus),
        AfterMinus::Operand(operand, arguments, others, rest) => {
            put_expr(stacks, operand)?;
            put_negated(alloc, stacks, minus, arguments, others, rest)
        }
    }
}

/// The last expression is negated, and what follows it in its parentheses is put in its place.
fn put_negated(
    alloc: Global,
    stacks: &mut Store,
    minus: Word,
    arguments: Vec<Expr>,
    others: Vec<Part>,
    rest: Vec<Expr>,
) -> Result<(), AllocError>
    ensures { OnOk result ((tokens : List Token) → columns tokens stacks.new
        ≡ push (Many item.Expr)
        (chained (applied
        (tree.Negate (place_view tokens minus) (top tokens (One item.Expr) (columns tokens stacks.old)))
        (held (expr_view tokens) arguments.items)) (held (part_view tokens) others.items)
        ∷ held (expr_view tokens) rest.items)
        (pop (One item.Expr) (columns tokens stacks.old))) }
{
    negate_last(alloc, stacks, minus)?;
    apply_last(alloc, stacks, arguments)?;
    chain_last(alloc, stacks, others)?;
    put_exprs(stacks, rest)?;
    more_exprs(alloc, stacks)
}

/// A minus alone in parentheses.
pub fn minus_alone(stacks: &mut Store) -> Result<(), AllocError>
    ensures { OnOk result (Acts MinusAlone stacks.old stacks.new) }
{
    skip_word(stacks);
    put_after_minus(stacks, AfterMinus::Closed)
}

/// An operand after the minus.
pub fn minus_operand(alloc: Global, stacks: &mut Store) -> Result<(), AllocError>
    ensures { OnOk result (Acts MinusOperand stacks.old stacks.new) }
{
    let arguments = take_exprs(alloc, stacks);
    let others = take_parts(alloc, stacks);
    let rest = take_exprs(alloc, stacks);
    let operand = take_expr(stacks);
    put_after_minus(
        stacks,
        AfterMinus::Operand(operand, arguments, others, rest),
    )
}

/// An operand, its arguments and the others.
pub fn unsigned(alloc: Global, stacks: &mut Store) -> Result<(), AllocError>
    ensures { OnOk result (Acts UnsignedOf stacks.old stacks.new) }
{
    let arguments = take_exprs(alloc, stacks);
    let others = take_parts(alloc, stacks);
    apply_last(alloc, stacks, arguments)?;
    chain_last(alloc, stacks, others)
}

/// `{}`
pub fn empty_record(alloc: Global, stacks: &mut Store) -> Result<(), AllocError>
    ensures { OnOk result (Acts EmptyRecord stacks.old stacks.new) }
{
    skip_word(stacks);
    put_fields(
        stacks,
        Fields {
            base: None,
            parts: Vec::new(alloc),
        },
    )
}

/// A record.
pub fn record_of(alloc: Global, stacks: &mut Store) -> Result<(), AllocError>
    ensures { OnOk result (Acts RecordOf stacks.old stacks.new) }
{
    let word = take_word(stacks);
    let (base, field) = base_and_field(word, take_words(alloc, stacks));
    skip_word(stacks);
    put_part(alloc, stacks, field)?;
    let parts = take_parts(alloc, stacks);
    put_fields(stacks, Fields { base, parts })
}

/// One field more.
pub fn more_fields(alloc: Global, stacks: &mut Store) -> Result<(), AllocError>
    ensures { OnOk result (Acts MoreFields stacks.old stacks.new) }
{
    skip_word(stacks);
    let name = take_word(stacks);
    skip_word(stacks);
    put_part(alloc, stacks, name)
}
