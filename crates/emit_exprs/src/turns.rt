//! Which functions are loops.

ghost use Rattle.std.specs.Prelude.{◌≡◌, map};
ghost use Rattle.elm_canon.specs.Tree as plain;
ghost use Rattle.elm_canon.specs.Tree.{branches_of};
ghost use Rattle.elm_canon.specs.View.{expr_view, branch_view, link_view, patterns_view, done};
ghost use Rattle.js_emit.specs.Loops as spec;
ghost use Rattle.js_emit.specs.Made as made;

use elm_canon::reference::{Ref, same_ref};
use elm_canon::tree::{Branch, Expr, Link, Pattern};

/// Whether an expression is that name.
pub(crate) fn is_name(name: &Ref, expr: &Expr) -> bool
    ensures { result ≡ spec.is_name name.now (expr_view expr.now) }
{
    match expr {
        Expr::Literal(_) => false,
        Expr::Name(other) => same_ref(other, name),
        Expr::Accessor(_) => false,
        Expr::Lambda(_, _) => false,
        Expr::Apply(_, _) => false,
        Expr::Strict(_, _) => false,
        Expr::Access(inner, fields) => fields.len() == 0 && is_name(name, inner),
        Expr::If(_, _, _) => false,
        Expr::Chain(first, links) => links.len() == 0 && is_name(name, first),
        Expr::Let(_, _) => false,
        Expr::Case(_, _) => false,
        Expr::Located(_, inner) => is_name(name, inner),
    }
}

/// Whether the function `function` of these parameters is a loop.
pub fn is_loop(function: &Ref, parameters: &Vec<Pattern>, body: &Expr) -> bool
    ensures { result ≡ made.is_loop function.now (patterns_view parameters.now.items) (expr_view body.now) }
{
    parameters.len() > 0 && has_turn(function, parameters.len(), body)
}

/// Whether some value of an expression is a call of `function` with `count` arguments.
#[cycle(turns)]
fn has_turn(function: &Ref, count: usize, expr: &Expr) -> bool
    ensures { result ≡ spec.has_turn function.now count (expr_view expr.now) }
{
    match expr {
        Expr::Literal(_) => false,
        Expr::Name(_) => false,
        Expr::Accessor(_) => false,
        Expr::Lambda(_, _) => false,
        Expr::Apply(callee, arguments) => is_name(function, callee) && arguments.len() == count,
        Expr::Strict(_, _) => false,
        Expr::Access(inner, fields) => fields.len() == 0 && has_turn(function, count, inner),
        Expr::If(_, yes, no) => has_turn(function, count, yes) || has_turn(function, count, no),
        Expr::Chain(first, links) => match links.split_last() {
            Some((last, _)) => is_turn(function, count, last),
            None => has_turn(function, count, first),
        },
        Expr::Let(_, body) => has_turn(function, count, body),
        Expr::Case(_, branches) => have_turn(function, count, branches),
        Expr::Located(_, inner) => has_turn(function, count, inner),
    }
}

/// Whether one of the branches has such a value.
#[cycle(turns)]
fn have_turn(function: &Ref, count: usize, branches: &Vec<Branch>) -> bool
    ensures { result ≡ spec.have_turn function.now count (branches_of (map branch_view branches.now.items)) }
{
    for branch in branches {
        if has_turn(function, count, &branch.body) {
            return true;
        }
    }
    false
}

/// Whether what is done with an expression is such a call.
fn is_turn(function: &Ref, count: usize, link: &Link) -> bool
    ensures { (e : plain.Expr) → result ≡ spec.has_turn function.now count (done (link_view link.now) e) }
{
    match link {
        Link::Given(callee, arguments) => is_name(function, callee) && arguments.len() + 1 == count,
        Link::Composed(callee, _) => is_name(function, callee) && 2 == count,
        Link::After(_, _) => false,
        Link::Before(_, _) => false,
        Link::Decided(_, _, _) => false,
    }
}
