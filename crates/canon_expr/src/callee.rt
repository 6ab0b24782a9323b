//! What is called, with its arguments so far.

ghost use Rattle.std.specs.Prelude.{◌≡◌, ◌++◌, ◌∷◌, [], map, IfOk, OnOk};
ghost use Rattle.elm_canon.specs.View.{expr_view};
ghost use Rattle.elm_canon.specs.Tree.{Apply, Located, Strict, Build, exprs_of};
ghost use Rattle.canon_expr.specs.Callees as spec;
ghost use Rattle.canon_expr.specs.Calls.{head_view, callee_view};
ghost use Rattle.canon_expr.specs.Parts.{in_box};

use crate::items::{boxed, put};
use crate::links::then;
use elm_base::names::Name;
use elm_base::position::Pos;
use elm_canon::reference::Ref;
use elm_canon::tree::{Expr, Link, Op};
use elm_canon::unions::{Alternative, Union};
use std::alloc::{AllocError, Global};

/// What is called.
#[derive(Drop)]
pub enum Head {
    /// A constructor of a union: where its name stands, its module, its name, its union and what tells it.
    Maker(Pos, Name, Name, Union, Alternative),
    /// Any other expression.
    Plain(Box<Expr>),
}

/// What is called, with its arguments so far.
#[derive(Drop)]
pub struct Callee {
    pub head: Head,
    pub arguments: Vec<Expr>,
}

impl Callee {
    /// The expression `expr` without arguments.
    pub fn plain(alloc: Global, expr: Box<Expr>) -> Callee
        ensures { callee_view result ≡ spec.plain (expr_view expr.value) }
    {
        Callee {
            head: Head::Plain(expr),
            arguments: Vec::new(alloc),
        }
    }

    /// The same, with the expression not in a box. The error means that memory ran out.
    pub fn of(alloc: Global, expr: Expr) -> Result<Callee, AllocError>
        ensures { IfOk result (λ c. callee_view c ≡ spec.plain (expr_view expr)) }
    {
        let expr = boxed(alloc, expr)?;
        Ok(Callee::plain(alloc, expr))
    }

    /// The expression `expr`, which begins at `place`, without arguments. The error means that memory ran out.
    pub fn at(alloc: Global, place: Pos, expr: Expr) -> Result<Callee, AllocError>
        ensures { IfOk result (λ c. callee_view c ≡ spec.plain (Located place (expr_view expr))) }
    {
        let expr = located(alloc, place, expr)?;
        Ok(Callee::plain(alloc, expr))
    }

    /// Puts the argument `argument` after the others. The error means that memory ran out.
    pub fn push(&mut self, argument: Box<Expr>) -> Result<(), AllocError>
        ensures { OnOk result (callee_view self.new
            ≡ spec.with_arguments (callee_view self.old) (expr_view argument.value ∷ [])) }
    {
        put(&mut self.arguments, Box::into_inner(argument))
    }

    /// The same with the arguments `arguments` after the others. The error means that memory ran out.
    pub fn extend(self, arguments: Vec<Expr>) -> Result<Callee, AllocError>
        ensures { IfOk result (λ c. callee_view c
            ≡ spec.with_arguments (callee_view self) (map expr_view arguments.items)) }
    {
        let mut callee = self;
        append(&mut callee.arguments, arguments)?;
        Ok(callee)
    }

    /// What the call means once it has all of its arguments. The error means that memory ran out.
    pub fn finish(self, alloc: Global) -> Result<Box<Expr>, AllocError>
        ensures { IfOk result (λ e. expr_view e.value ≡ spec.finished (callee_view self)) }
    {
        let Callee { head, arguments } = self;
        match head {
            Head::Plain(expr) => given(alloc, expr, arguments),
            Head::Maker(place, home, name, union, alternative) => {
                if arguments.len() == alternative.arity {
                    built(alloc, place, union, alternative, arguments)
                } else {
                    named(alloc, place, home, name, arguments)
                }
            }
        }
    }
}

/// Adds parts.
fn append(parts: &mut Vec<Expr>, more: Vec<Expr>) -> Result<(), AllocError>
    ensures { OnOk result (parts.new.items ≡ parts.old.items ++ more.items) }
{
    let mut more = more;
    parts.append(&mut more)?;
    Ok(())
}

/// An expression that begins at `place`.
#[tactic(auto, using(elm_canon::proofs::Views::located))]
fn located(alloc: Global, place: Pos, expr: Expr) -> Result<Box<Expr>, AllocError>
    ensures { IfOk result (λ e. expr_view e.value ≡ Located place (expr_view expr)) }
{
    let expr = boxed(alloc, expr)?;
    boxed(alloc, Expr::Located(place, expr))
}

/// Whether the last of these parts is a chain.
fn ends_in_chain(parts: &[Expr]) -> bool {
    match parts.last() {
        Some(last) => matches!(last, Expr::Chain(_, _)),
        None => false,
    }
}

/// Takes out the last part if it is a chain, so that what is done with it nests no deeper.
fn last_chain(alloc: Global, parts: &mut Vec<Expr>) -> Result<Option<Box<Expr>>, AllocError>
    ensures { IfOk result (λ last. parts.old.items ≡ parts.new.items ++ in_box last) }
{
    if !ends_in_chain(parts) {
        return Ok(None);
    }
    match parts.pop() {
        Some(last) => Ok(Some(boxed(alloc, last)?)),
        None => Ok(None),
    }
}

/// A constructor with these fields.
#[tactic(auto, using(elm_canon::proofs::Views::strict))]
fn built_of(
    alloc: Global,
    place: Pos,
    union: Union,
    alternative: Alternative,
    fields: Vec<Expr>,
) -> Result<Box<Expr>, AllocError>
    ensures { IfOk result (λ e. expr_view e.value
        ≡ Strict (Build place union alternative) (exprs_of (map expr_view fields.items))) }
{
    let op = Op::Build(place, union, alternative);
    boxed(alloc, Expr::Strict(op, fields))
}

/// A constructor with these fields and the field `last` after them, as a chain that begins with that.
#[tactic(auto, using(elm_canon::proofs::Views::part_after))]
fn built_after(
    alloc: Global,
    place: Pos,
    union: Union,
    alternative: Alternative,
    fields: Vec<Expr>,
    last: Box<Expr>,
) -> Result<Box<Expr>, AllocError>
    ensures { IfOk result (λ e. expr_view e.value
        ≡ Strict (Build place union alternative)
        (exprs_of (map expr_view fields.items ++ expr_view last.value ∷ []))) }
{
    let op = Op::Build(place, union, alternative);
    then(alloc, last, Link::After(op, fields))
}

/// A constructor with all of its fields.
fn built(
    alloc: Global,
    place: Pos,
    union: Union,
    alternative: Alternative,
    fields: Vec<Expr>,
) -> Result<Box<Expr>, AllocError>
    ensures { IfOk result (λ e. expr_view e.value
        ≡ Strict (Build place union alternative) (exprs_of (map expr_view fields.items))) }
{
    let mut fields = fields;
    match last_chain(alloc, &mut fields)? {
        Some(last) => built_after(alloc, place, union, alternative, fields, last),
        None => built_of(alloc, place, union, alternative, fields),
    }
}

/// The name `name` of the module `home`, which stands at `place`. The error means that memory ran out.
#[tactic(auto, using(elm_canon::proofs::Views::located, elm_canon::proofs::Views::name))]
pub fn top_name(alloc: Global, place: Pos, home: Name, name: Name) -> Result<Expr, AllocError>
    ensures { IfOk result (λ e. expr_view e ≡ spec.top_name place home name) }
{
    let expr = boxed(alloc, Expr::Name(Ref::Top(home, name)))?;
    Ok(Expr::Located(place, expr))
}

/// A name of a module with these arguments, if there are any.
fn named(
    alloc: Global,
    place: Pos,
    home: Name,
    name: Name,
    arguments: Vec<Expr>,
) -> Result<Box<Expr>, AllocError>
    ensures { IfOk result (λ e. expr_view e.value
        ≡ spec.given (spec.top_name place home name) (map expr_view arguments.items)) }
{
    let function = boxed(alloc, top_name(alloc, place, home, name)?)?;
    given(alloc, function, arguments)
}

/// A function with these arguments, if there are any.
#[tactic(auto, using(elm_canon::proofs::Views::apply))]
fn given_all(
    alloc: Global,
    function: Box<Expr>,
    arguments: Vec<Expr>,
) -> Result<Box<Expr>, AllocError>
    ensures { IfOk result (λ e. expr_view e.value
        ≡ spec.given (expr_view function.value) (map expr_view arguments.items)) }
{
    if arguments.len() == 0 {
        Ok(function)
    } else {
        boxed(alloc, Expr::Apply(function, arguments))
    }
}

/// A function with these arguments and the argument `last` after them, as a chain that begins with that.
#[tactic(auto, using(elm_canon::proofs::Views::given))]
pub(crate) fn given_last(
    alloc: Global,
    function: Box<Expr>,
    arguments: Vec<Expr>,
    last: Box<Expr>,
) -> Result<Box<Expr>, AllocError>
    ensures { IfOk result (λ e. expr_view e.value ≡ Apply (expr_view function.value)
        (exprs_of (map expr_view arguments.items ++ expr_view last.value ∷ []))) }
{
    then(alloc, last, Link::Given(function, arguments))
}

/// A function with these arguments, if there are any. The error means that memory ran out.
fn given(alloc: Global, function: Box<Expr>, arguments: Vec<Expr>) -> Result<Box<Expr>, AllocError>
    ensures { IfOk result (λ e. expr_view e.value
        ≡ spec.given (expr_view function.value) (map expr_view arguments.items)) }
{
    let mut arguments = arguments;
    match last_chain(alloc, &mut arguments)? {
        Some(last) => given_last(alloc, function, arguments, last),
        None => given_all(alloc, function, arguments),
    }
}
