//! The names in scope.

ghost use Rattle.std.specs.Prelude.{◌≡◌, None, [], ◌∷◌, option_map, IfOk, OnOk, if◌then◌else◌};
ghost use Rattle.indexmap.specs.IndexMap.{get};
ghost use Rattle.elm_canon.specs.Names.{same_name, Name as PlainName};
ghost use Rattle.infer_steps.specs.Codes.{stands_for, with_meaning, constant_is, with_constant};
ghost use Rattle.infer_steps.specs.Keys.{same_pair};
ghost use Rattle.infer_steps.specs.View.{known_view, meaning_view, code_of};
ghost use Rattle.infer_steps.specs.Leaving.{without, without_constant};

use crate::known::Known;
use elm_base::names::Name;
use elm_canon::reference::Ref;
use elm_type::scheme::Scheme;
use indexmap::IndexMap;
use std::alloc::{AllocError, Global};
use type_schemes::frozen::Frozen;

/// A type that is written. Variables of the scheme by the number of its kinds or above it stand for variables of the
/// store, in turn.
#[derive(Drop)]
pub struct Declared {
    pub scheme: Scheme,
    pub outer: Vec<u32>,
}

/// What a name stands for.
#[derive(Drop)]
pub enum Meaning {
    /// A variable of the store.
    One(u32),
    /// A copy of this at each use.
    Many(Frozen),
    /// An instance of this at each use.
    Each(Declared),
}

/// The names in scope, and the variables of annotations around. To enter a name, to look it up and to leave it costs
/// the same however many are in scope.
#[derive(Drop)]
pub struct Scope {
    known: Known,
    locals: IndexMap<Name, Meaning>,
    tops: IndexMap<(Name, Name), Meaning>,
    constants: IndexMap<Name, u32>,
}

/// A name that was entered, and what it stood for before.
#[derive(Drop)]
pub struct Entered {
    pub name: Ref,
    pub outer: Option<Meaning>,
}

/// A variable of an annotation that was entered, and its variable of the store before.
#[derive(Drop)]
pub struct EnteredConstant {
    pub name: Name,
    pub outer: Option<u32>,
}

/// The same name once more.
fn copy_name(name: &Ref) -> Result<Ref, AllocError>
    ensures { IfOk result (λ copy. copy ≡ name.now) }
{
    match name {
        Ref::Local(local) => Ok(Ref::Local(local.clone()?)),
        Ref::Top(home, top) => Ok(Ref::Top(home.clone()?, top.clone()?)),
    }
}

/// Lets a name stand for a value, or for nothing, and returns what it stood for. The error means that memory ran out.
fn exchange<V: Drop>(
    names: &mut IndexMap<Name, V>,
    name: &Name,
    value: Option<V>,
) -> Result<Option<V>, AllocError>
    ensures put { OnOk result ((n : PlainName) → get same_name names.new n
        ≡ (if same_name name.now n then value else get same_name names.old n)) }
    ensures outer { IfOk result (λ o. o ≡ get same_name names.old name.now) }
{
    match value {
        Some(new) => {
            let key = name.clone()?;
            let outer = names.insert(key, new)?;
            Ok(outer)
        }
        None => {
            let outer = names.swap_remove(name);
            Ok(outer)
        }
    }
}

/// The same for the name `name` of the module `home`.
fn exchange_top<V: Drop>(
    names: &mut IndexMap<(Name, Name), V>,
    home: &Name,
    name: &Name,
    value: Option<V>,
) -> Result<Option<V>, AllocError>
    ensures put { OnOk result ((n : PlainName × PlainName) → get same_pair names.new n
        ≡ (if same_pair (home.now, name.now) n then value else get same_pair names.old n)) }
    ensures outer { IfOk result (λ o. o ≡ get same_pair names.old (home.now, name.now)) }
{
    let key = (home.clone()?, name.clone()?);
    match value {
        Some(new) => {
            let outer = names.insert(key, new)?;
            Ok(outer)
        }
        None => {
            let outer = names.swap_remove(&key);
            Ok(outer)
        }
    }
}

/// What the name `name` of the module `home` stands for. None: nothing. The error means that memory ran out.
fn find_top<'m, V>(
    names: &'m IndexMap<(Name, Name), V>,
    home: &Name,
    name: &Name,
) -> Result<Option<&'m V>, AllocError>
    ensures { IfOk result (λ v. option_map (λ x. x.now) v ≡ get same_pair names.now (home.now, name.now)) }
{
    let key = (home.clone()?, name.clone()?);
    Ok(names.get(&key))
}

impl Scope {
    /// A scope without names, where this is declared elsewhere.
    #[tactic(auto, unfolding(crate::specs::View::names_of, crate::specs::View::constants_of))]
    pub fn new(alloc: Global, known: Known) -> Scope
        ensures { code_of result ≡ record { known = known_view known; names = λ x. None; constants = λ a. None } }
    {
        Scope {
            known,
            locals: IndexMap::new(alloc),
            tops: IndexMap::new(alloc),
            constants: IndexMap::new(alloc),
        }
    }

    /// What is declared elsewhere.
    pub fn known(&self) -> &Known
        ensures { known_view result.now ≡ (code_of self.now).known }
    {
        &self.known
    }

    /// What the name `name` stands for. None: it is not in scope. The error means that memory ran out.
    #[tactic(auto, unfolding(crate::specs::View::names_of))]
    pub fn find(&self, name: &Ref) -> Result<Option<&Meaning>, AllocError>
        ensures { IfOk result (λ m. option_map (λ x. meaning_view x.now) m ≡ (code_of self.now).names name.now) }
    {
        match name {
            Ref::Local(local) => Ok(self.locals.get(local)),
            Ref::Top(home, top) => find_top(&self.tops, home, top),
        }
    }

    /// The variable of the store for the variable `name` of an annotation around. None: no annotation around has it.
    #[tactic(auto, unfolding(crate::specs::View::constants_of))]
    pub fn constant(&self, name: &Name) -> Option<u32>
        ensures { result ≡ (code_of self.now).constants name.now }
    {
        self.constants.get(name).copied()
    }

    /// Lets a name stand for `meaning`, or for nothing, and returns what it stood for.
    fn set(&mut self, name: &Ref, meaning: Option<Meaning>) -> Result<Option<Meaning>, AllocError>
        ensures scope { OnOk result (code_of self.new ≡ stands_for name.now (option_map meaning_view meaning)
            (code_of self.old)) }
        ensures outer { IfOk result (λ o. option_map meaning_view o ≡ (code_of self.old).names name.now) }
    {
        match name {
            Ref::Local(local) => exchange(&mut self.locals, local, meaning),
            Ref::Top(home, top) => exchange_top(&mut self.tops, home, top, meaning),
        }
    }

    /// Lets the name `name` stand for `meaning`. The result is for `leave`. The error means that memory ran out.
    pub fn enter(&mut self, name: &Ref, meaning: Meaning) -> Result<Entered, AllocError>
        ensures scope { OnOk result (code_of self.new ≡ with_meaning name.now (meaning_view meaning)
            (code_of self.old)) }
        ensures entered { IfOk result (λ e. without (e ∷ []) (code_of self.new) ≡ code_of self.old) }
    {
        let copy = copy_name(name)?;
        let outer = self.set(name, Some(meaning))?;
        Ok(Entered { name: copy, outer })
    }

    /// Lets a name stand for what it stood for before.
    fn restore(&mut self, entered: Entered) -> Result<(), AllocError>
        ensures { OnOk result (code_of self.new ≡ without (entered ∷ []) (code_of self.old)) }
    {
        let Entered { name, outer } = entered;
        self.set(&name, outer)?;
        Ok(())
    }

    /// Takes out of scope the names that were entered last, `entered`, the last of which was entered last. Each stands
    /// again for what it stood for before. The error means that memory ran out; then some are still in scope.
    pub fn leave(&mut self, entered: Vec<Entered>) -> Result<(), AllocError>
        ensures { OnOk result (code_of self.new ≡ without entered.items (code_of self.old)) }
    {
        let mut rest = entered;
        while let Some(last) = rest.pop() {
            self.restore(last)?;
        }
        Ok(())
    }

    /// Lets a variable of an annotation stand for `variable`, or for nothing, and returns what it stood for.
    fn set_constant(
        &mut self,
        name: &Name,
        variable: Option<u32>,
    ) -> Result<Option<u32>, AllocError>
        ensures scope { OnOk result (code_of self.new ≡ constant_is name.now variable (code_of self.old)) }
        ensures outer { IfOk result (λ o. o ≡ (code_of self.old).constants name.now) }
    {
        exchange(&mut self.constants, name, variable)
    }

    /// Lets the variable `name` of an annotation stand for the variable `variable` of the store. The result is for
    /// `leave_constants`. The error means that memory ran out.
    pub fn enter_constant(
        &mut self,
        name: &Name,
        variable: u32,
    ) -> Result<EnteredConstant, AllocError>
        ensures scope { OnOk result (code_of self.new ≡ with_constant name.now variable (code_of self.old)) }
        ensures entered { IfOk result (λ e. without_constant (e ∷ []) (code_of self.new) ≡ code_of self.old) }
    {
        let copy = name.clone()?;
        let outer = self.set_constant(name, Some(variable))?;
        Ok(EnteredConstant { name: copy, outer })
    }

    /// Lets a variable of an annotation stand for what it stood for before.
    fn restore_constant(&mut self, entered: EnteredConstant) -> Result<(), AllocError>
        ensures { OnOk result (code_of self.new ≡ without_constant (entered ∷ []) (code_of self.old)) }
    {
        let EnteredConstant { name, outer } = entered;
        self.set_constant(&name, outer)?;
        Ok(())
    }

    /// Takes out of scope the variables of annotations that were entered last, `entered`, the last of which was entered
    /// last. The error means that memory ran out; then some are still in scope.
    pub fn leave_constants(&mut self, entered: Vec<EnteredConstant>) -> Result<(), AllocError>
        ensures { OnOk result (code_of self.new ≡ without_constant entered.items (code_of self.old)) }
    {
        let mut rest = entered;
        while let Some(last) = rest.pop() {
            self.restore_constant(last)?;
        }
        Ok(())
    }
}
