//! What is done with an expression, as a chain, so that it nests no deeper.

ghost use Rattle.std.specs.Prelude.{◌≡◌, map, IfOk};
ghost use Rattle.elm_canon.specs.View.{expr_view, link_view, linked, done};

use crate::items::{boxed, one_item};
use elm_canon::tree::{Expr, Link};
use std::alloc::{AllocError, Global};

/// An expression as the first of a chain.
#[derive(Drop)]
struct Opened {
    first: Box<Expr>,
    links: Vec<Link>,
}

/// An expression as the first of a chain. A chain that goes on is taken apart.
#[tactic(auto, using(elm_canon::proofs::Views::chain))]
fn take_apart(alloc: Global, expr: Expr) -> Result<Opened, AllocError>
    ensures { IfOk result (λ o. linked (expr_view o.first.value) (map link_view o.links.items) ≡ expr_view expr) }
{
    match expr {
        Expr::Chain(first, links) => Ok(Opened { first, links }),
        other => {
            let first = boxed(alloc, other)?;
            Ok(Opened {
                first,
                links: Vec::new(alloc),
            })
        }
    }
}

/// An expression, and what is done with it in turn, as a chain. If it is a chain, that gets longer.
#[tactic(auto, using(elm_canon::proofs::Views::chain, crate::proofs::Linking::many_more))]
fn extended(alloc: Global, expr: Box<Expr>, links: Vec<Link>) -> Result<Box<Expr>, AllocError>
    ensures { IfOk result (λ e. expr_view e.value
        ≡ linked (expr_view expr.value) (map link_view links.items)) }
{
    let mut more = links;
    let Opened { first, mut links } = take_apart(alloc, Box::into_inner(expr))?;
    links.append(&mut more)?;
    boxed(alloc, Expr::Chain(first, links))
}

/// An expression, and what is done with it.
pub(crate) fn then(alloc: Global, expr: Box<Expr>, link: Link) -> Result<Box<Expr>, AllocError>
    ensures { IfOk result (λ e. expr_view e.value ≡ done (link_view link) (expr_view expr.value)) }
{
    let links = one_item(alloc, link)?;
    extended(alloc, expr, links)
}

/// An expression as a chain.
pub(crate) fn chained(alloc: Global, expr: Box<Expr>) -> Result<Box<Expr>, AllocError>
    ensures { IfOk result (λ e. expr_view e.value ≡ expr_view expr.value) }
{
    extended(alloc, expr, Vec::new(alloc))
}
