//! The declarations of a module behind handles. The proof of a function that holds a handle does not tell of all that a
//! declaration may be.

ghost use Rattle.std.specs.Prelude.{◌≡◌, ◌<◌, length, get_or};

use elm_tree::tree::{Declaration, Module};
use std::marker::Model;

/// A declaration, as it is written.
#[derive(Drop)]
pub struct Written<'t> {
    declaration: &'t Declaration,
}

impl<'t> Model for Written<'t> {
    ghost use Rattle.std.specs.Coded.{codes};
    ghost use Rattle.elm_tree.specs.contracts.tree.Declaration as row;
    ghost use Rattle.elm_tree.specs.declared.tree.Declaration.{Declaration};

    ghost Value = { Declaration };

    ghost coded = { Prim.hlevel (codes, row.the_row.coded) };

    ghost view = { λ w. w.declaration.now };
}

impl<'t> Written<'t> {
    /// The declaration.
    pub(crate) fn get(&self) -> &'t Declaration
        ensures { result.now ≡ self.now }
    {
        self.declaration
    }
}

/// The declaration with this number.
fn one(all: &[Declaration], number: usize) -> &Declaration
    requires { number < length all.now }
    ensures { result.now ≡ get_or all.now number result.now }
{
    &all[number]
}

/// The declarations of a module, as they are written.
#[derive(Drop)]
pub struct Declarations<'t> {
    all: &'t [Declaration],
}

impl<'t> Model for Declarations<'t> {
    ghost use Rattle.std.specs.Prelude.{List};
    ghost use Rattle.std.specs.Coded.{codes};
    ghost use Rattle.elm_tree.specs.contracts.tree.Declaration as row;
    ghost use Rattle.elm_tree.specs.declared.tree.Declaration.{Declaration};

    ghost Value = { List Declaration };

    ghost coded = { Prim.hlevel (codes, row.the_row.coded) };

    ghost view = { λ d. d.all.now };
}

impl<'t> Declarations<'t> {
    /// Those of the module.
    pub(crate) fn of(parsed: &'t Module) -> Declarations<'t>
        ensures { result ≡ parsed.now.declarations.items }
    {
        Declarations {
            all: parsed.declarations.as_slice(),
        }
    }

    /// All of them.
    pub(crate) fn all(&self) -> &'t [Declaration]
        ensures { result.now ≡ self.now }
    {
        self.all
    }

    /// How many there are.
    pub(crate) fn len(&self) -> usize
        ensures { result ≡ length self.now }
    {
        self.all.len()
    }

    /// The one with this number, from 0 on.
    pub(crate) fn at(&self, number: usize) -> Written<'t>
        requires { number < length self.now }
        ensures { result ≡ get_or self.now number result }
    {
        Written {
            declaration: one(self.all, number),
        }
    }
}
