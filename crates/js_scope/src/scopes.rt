//! The names that are bound where a walk over trees is.

ghost use Rattle.std.specs.Prelude.{◌≡◌, ◌-◌, ℕ, List, [], ◌∷◌, length, true, not, ◌&&◌, OnOk, OnErr, IfOk};
ghost use Rattle.js_tree.specs.Postorder.{name_view};
ghost use Rattle.js_scope.specs.Walk.{with_names, is_found, is_own, after_read, after_assigned, first_bound};
ghost use Rattle.js_scope.specs.Walk.{is_settled};
ghost use Rattle.js_scope.specs.Scopes.{bound_on, IsIndexed, innermost_settled, outer};

use crate::index::Index;
use js_tree::tree::Name;
use std::alloc::{AllocError, Global};
use std::marker::Model;

/// A name that is bound.
#[derive(Drop)]
pub(crate) struct Binding<'a> {
    name: &'a Name,
    /// The place that the name had before it.
    before: usize,
}

/// What a name that is bound has met.
#[derive(Clone, Copy)]
pub(crate) struct Marks {
    /// It was assigned in the function that binds it.
    assigned: bool,
    /// It was met in a function nested in that one.
    captured: bool,
}

/// The names that are bound, with their marks, and how many were bound when the function at hand began.
#[derive(Drop)]
pub(crate) struct Scopes<'a> {
    bindings: Vec<Binding<'a>>,
    marks: Vec<Marks>,
    index: Index<'a>,
    start: usize,
}

impl<'a> Model for Scopes<'a> {
    ghost use Rattle.std.specs.Prelude.{[]};
    ghost use Rattle.js_scope.specs.Walk.{State};
    ghost use Rattle.js_scope.specs.Scopes.{bound_on, IsIndexed};

    ghost Value = { State };

    ghost view = { λ s. record { start = s.start; bound = bound_on s.bindings.items s.marks.items [] } };

    ghost invariant = { λ s. IsIndexed s.bindings.items s.marks.items s.index };
}

impl<'a> Scopes<'a> {
    ghost use Rattle.js_scope.specs.Walk.{State};

    /// No name is bound.
    pub(crate) fn new(alloc: Global) -> Scopes<'a>
        ensures { result ≡ record { start = 0; bound = [] } }
    {
        Scopes {
            bindings: Vec::new(alloc),
            marks: Vec::new(alloc),
            index: Index::new(alloc),
            start: 0,
        }
    }

    /// How many names are bound.
    pub(crate) fn len(&self) -> usize
        ensures { result ≡ length self.now.bound }
    {
        self.bindings.len()
    }

    /// How many were bound when the function at hand began.
    pub(crate) fn start(&self) -> usize
        ensures { result ≡ self.now.start }
    {
        self.start
    }

    /// A function begins.
    pub(crate) fn begin(&mut self)
        ensures { self.new ≡ record { start = length self.old.bound; bound = self.old.bound } }
    {
        self.start = self.bindings.len();
    }

    /// Binds a name.
    pub(crate) fn declare(&mut self, name: &'a Name) -> Result<(), AllocError>
        ensures { OnOk result (self.new ≡ record {
          start = self.old.start;
          bound = with_names
              (name_view name.now ∷ []) self.old.bound;
        }) }
    {
        declare(&mut self.bindings, &mut self.marks, &mut self.index, name)
    }

    /// A name is read. The answer is whether it is bound.
    pub(crate) fn read(&mut self, name: &'a Name) -> bool
        ensures found { result ≡ is_found (name_view name.now) self.old.bound }
        ensures after { self.new ≡ record {
          start = self.old.start;
          bound = after_read
              (name_view name.now) self.old.start self.old.bound;
        } }
    {
        read(
            &self.bindings,
            &mut self.marks,
            &self.index,
            self.start,
            name,
        )
    }

    /// A name is assigned. The answer is whether the function at hand binds it.
    pub(crate) fn assign(&mut self, name: &'a Name) -> bool
        ensures own { result ≡ is_own (name_view name.now) self.old.start self.old.bound }
        ensures after { self.new ≡ record {
          start = self.old.start;
          bound = after_assigned
              (name_view name.now) self.old.start self.old.bound;
        } }
    {
        assign(
            &self.bindings,
            &mut self.marks,
            &self.index,
            self.start,
            name,
        )
    }

    /// Goes back to when so many names were bound, in a function that began when so many were. The answer is whether
    /// each name that was bound since is not both assigned and met in a nested function; if one is, not all may be
    /// unbound.
    pub(crate) fn leave(&mut self, bound: usize, start: usize) -> Result<bool, AllocError>
        ensures settled { IfOk result (λ settled. settled ≡ is_settled bound self.old.bound) }
        ensures after { IfOk result (λ settled. settled ≡ true → self.new
            ≡ record { start = start; bound = first_bound bound self.old.bound }) }
    {
        self.start = start;
        leave(&mut self.bindings, &mut self.marks, &mut self.index, bound)
    }
}

/// A name with these marks is not both assigned and met in a nested function.
fn is_settled(marks: Marks) -> bool
    ensures { result ≡ not (marks.assigned && marks.captured) }
{
    !(marks.assigned && marks.captured)
}

/// Binds a name.
fn declare<'a>(
    bindings: &mut Vec<Binding<'a>>,
    marks: &mut Vec<Marks>,
    index: &mut Index<'a>,
    name: &'a Name,
) -> Result<(), AllocError>
    requires { IsIndexed bindings.old.items marks.old.items index.old }
    ensures bound { OnOk result (bound_on bindings.new.items marks.new.items []
        ≡ with_names (name_view name.now ∷ []) (bound_on bindings.old.items marks.old.items [])) }
    ensures err { OnErr result (bound_on bindings.new.items marks.new.items []
        ≡ bound_on bindings.old.items marks.old.items []) }
    ensures indexed { IsIndexed bindings.new.items marks.new.items index.new }
{
    bindings.reserve(1)?;
    marks.reserve(1)?;
    let before = index.place(name);
    index.set(name, bindings.len() + 1)?;
    bindings.push(Binding { name, before })?;
    marks.push(Marks {
        assigned: false,
        captured: false,
    })?;
    Ok(())
}

/// A name is read.
fn read<'a>(
    bindings: &Vec<Binding<'a>>,
    marks: &mut Vec<Marks>,
    index: &Index<'a>,
    start: usize,
    name: &'a Name,
) -> bool
    requires { IsIndexed bindings.now.items marks.old.items index.now }
    ensures found { result ≡ is_found (name_view name.now) (bound_on bindings.now.items marks.old.items []) }
    ensures after { bound_on bindings.now.items marks.new.items []
        ≡ after_read (name_view name.now) start (bound_on bindings.now.items marks.old.items []) }
    ensures indexed { IsIndexed bindings.now.items marks.new.items index.now }
{
    let place = index.place(name);
    if place == 0 {
        return false;
    }
    if start >= place {
        marks[place - 1].captured = true;
    }
    true
}

/// A name is assigned.
fn assign<'a>(
    bindings: &Vec<Binding<'a>>,
    marks: &mut Vec<Marks>,
    index: &Index<'a>,
    start: usize,
    name: &'a Name,
) -> bool
    requires { IsIndexed bindings.now.items marks.old.items index.now }
    ensures own { result ≡ is_own (name_view name.now) start (bound_on bindings.now.items marks.old.items []) }
    ensures after { bound_on bindings.now.items marks.new.items []
        ≡ after_assigned (name_view name.now) start (bound_on bindings.now.items marks.old.items []) }
    ensures indexed { IsIndexed bindings.now.items marks.new.items index.now }
{
    let place = index.place(name);
    if place <= start {
        return false;
    }
    marks[place - 1].assigned = true;
    true
}

/// Unbinds the innermost name. The answer is whether it is not both assigned and met in a nested function.
fn unbind<'a>(
    bindings: &mut Vec<Binding<'a>>,
    marks: &mut Vec<Marks>,
    index: &mut Index<'a>,
) -> Result<bool, AllocError>
    requires { IsIndexed bindings.old.items marks.old.items index.old }
    ensures settled { IfOk result (λ settled. settled ≡ innermost_settled
        (bound_on bindings.old.items marks.old.items [])) }
    ensures after { OnOk result (bound_on bindings.new.items marks.new.items []
        ≡ outer (bound_on bindings.old.items marks.old.items [])) }
    ensures fewer { OnOk result (length bindings.new.items ≡ length bindings.old.items - 1) }
    ensures indexed { IsIndexed bindings.new.items marks.new.items index.new }
{
    let Some(last) = bindings.last() else {
        return Ok(true);
    };
    index.set(last.name, last.before)?;
    let Some(_binding) = bindings.pop() else {
        return Ok(true);
    };
    let Some(met) = marks.pop() else {
        return Ok(true);
    };
    Ok(is_settled(met))
}

/// Unbinds all but so many names, as far as none is both assigned and met in a nested function.
fn leave<'a>(
    bindings: &mut Vec<Binding<'a>>,
    marks: &mut Vec<Marks>,
    index: &mut Index<'a>,
    bound: usize,
) -> Result<bool, AllocError>
    requires { IsIndexed bindings.old.items marks.old.items index.old }
    ensures settled { IfOk result (λ settled. settled ≡ is_settled bound
        (bound_on bindings.old.items marks.old.items [])) }
    ensures after { IfOk result (λ settled. settled ≡ true → bound_on bindings.new.items marks.new.items []
        ≡ first_bound bound (bound_on bindings.old.items marks.old.items [])) }
    ensures indexed { IsIndexed bindings.new.items marks.new.items index.new }
{
    while bound < bindings.len() {
        if !unbind(bindings, marks, index)? {
            return Ok(false);
        }
    }
    Ok(true)
}
