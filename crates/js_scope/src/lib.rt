//! The text of a program of the JavaScript subset: its one tree, and whether its names are bound where they are used.
#![tactic(auto)]

mod frames;
mod index;
mod mode;
mod name;
mod parts;
mod reader;
mod refusal;
mod scopes;
mod tasks;
mod text;
mod walk;
mod word;

ghost use Rattle.std.specs.Prelude.{◌≡◌, ◌≤◌, IfErr, IfOk, length};
ghost use Rattle.js_tree.specs.Postorder.{trees_of, top};
ghost use Rattle.js_scope.specs.Bound.{names_bound};
ghost use Rattle.js_scope.specs.Read.{IsRead, IsRefused};

use js_tree::trees::Trees;
pub use refusal::Refusal;
use scopes::Scopes;
use std::alloc::{AllocError, Global};
use tasks::Tasks;
use text::{place_after, read_text};
use walk::{begin, run};

/// Whether each name of the program that the last tree is, is bound where it is used, and no name that is assigned
/// occurs in a function nested in its scope. The error means that memory ran out.
pub fn is_bound(alloc: Global, trees: &Trees) -> Result<bool, AllocError>
    ensures { IfOk result (λ yes. yes ≡ names_bound (top (trees_of trees.now))) }
{
    let mut tasks = Tasks::new(alloc);
    if !begin(trees, &mut tasks)? {
        return Ok(false);
    }
    let mut scopes = Scopes::new(alloc);
    run(trees, &mut scopes, &mut tasks)
}

/// Reads the text of a program.
///
/// The bytes are those of at most one program of the subset, and that is the last of the trees. If they are those of
/// none, the error has the place where they stop to be a text: where the longest part of them, from their start, ends
/// that begins some text. Where they are a text whose names are not all bound, that is their end. (ECMA-262: 12.7,
/// 12.9, 13.2 to 13.15, 14.3.1, 14.6 to 14.10, 15.3.)
///
/// Time and memory grow with the number of bytes, and no text needs more of the machine's stack than another.
pub fn read(alloc: Global, bytes: &[u8]) -> Result<Trees, Refusal>
    requires { length bytes.now ≤ 67108864 }
    ensures read { IfOk result (λ trees. IsRead (top (trees_of trees)) bytes.now) }
    ensures refused { IfErr result (λ refusal. IsRefused refusal bytes.now) }
{
    let trees = read_text(alloc, bytes)?;
    if is_bound(alloc, &trees)? {
        return Ok(trees);
    }
    Err(Refusal::At(place_after(bytes)))
}
