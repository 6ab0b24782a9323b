//! A store of type variables.

ghost use Rattle.std.specs.Prelude.{◌≡◌, ◌<◌, ◌++◌, ◌∷◌, [], length, map, Err, IfOk, OnOk, OnErr, true, false};
ghost use Rattle.std.specs.List.{All, Contains};
ghost use Rattle.type_store.specs.Store.{slot_at, field_names};
ghost use Rattle.type_store.specs.Store as plain;
ghost use Rattle.type_store.specs.Shape.{IsCell, IsStore, parts_of};
ghost use Rattle.type_store.specs.Solutions.{Added, Becomes, Clash, constants_of};
ghost use Rattle.type_store.specs.Solutions as solutions;
ghost use Rattle.type_store.specs.Steps.{AskInside, Leads, is_bound, put, rest_asks};
ghost use Rattle.type_store.specs.Levels.{IsLowered};
ghost use Rattle.type_store.specs.Loosening.{IsLoosened, is_constant};
ghost use Rattle.type_store.specs.Reaching.{GoesOn, GoesOnAt};
ghost use Rattle.type_store.specs.View.{ask_view, field_view, store_view};

use crate::add::add_ask;
use crate::ask::Ask;
use crate::build::{push, push_built, push_row};
use crate::chain::find;
use crate::error::AddError;
use crate::loosen::loosen;
use crate::slot::{Cell, FieldSlot, Slot};
use crate::tools::Tools;
use elm_base::names::Name;
use elm_type::class::Class;
use elm_type::head::Head;
use elm_type::rigid::Rigid;
use std::alloc::{AllocError, Global};
use std::marker::Model;

/// Type variables, and what is known of their types. A contract sees it as the list of the variables' slots, in the
/// order of their numbers. Some types meet all that is known.
#[derive(Drop)]
pub struct Store {
    alloc: Global,
    slots: Vec<Slot>,
    tools: Tools,
}

impl Model for Store {
    ghost use Rattle.type_store.specs.Store as plain;

    ghost Value = { plain.Store };

    ghost use Rattle.type_store.specs.Insides.{slots_of, IsKept};

    ghost view = { slots_of };

    ghost invariant = { IsKept };
}

impl Store {
    /// A store without variables.
    pub fn new(alloc: Global) -> Store
        ensures empty { result ≡ [] }
        ensures whole { IsStore result }
    {
        Store {
            alloc,
            slots: Vec::new(alloc),
            tools: Tools::new(alloc),
        }
    }

    /// The variables' slots, in the order of their numbers.
    pub fn slots(&self) -> &[Slot]
        ensures { store_view result.now ≡ self.now }
    {
        &self.slots
    }

    /// The variable that the variable `variable` is bound to in the end: itself, if it is not bound.
    pub fn root(&self, variable: u32) -> u32
        requires { variable < length self.now }
        ensures leads { Leads self.now variable result }
        ensures ends { is_bound (slot_at self.now result).cell ≡ false }
        ensures inside { result < length self.now }
    {
        find(&self.slots, variable)
    }

    /// Makes a variable of which nothing is known, inside `depth` definitions, and returns its number. The error is
    /// that memory or numbers ran out: then the store is as before.
    pub fn open(&mut self, depth: u32) -> Result<u32, AllocError>
        ensures number { IfOk result (λ v. v ≡ length self.old) }
        ensures made { OnOk result (self.new ≡ self.old ++ put plain.Open depth ∷ []) }
        ensures kept { OnErr result (self.new ≡ self.old) }
        ensures whole { IsStore self.new }
    {
        push(self.alloc, &mut self.slots, Cell::Open, depth)
    }

    /// How many definitions the variable `variable` was made inside, or a lower number, where the types of variables
    /// with that number say its type.
    pub fn depth(&self, variable: u32) -> u32
        requires { variable < length self.now }
        ensures { result ≡ (slot_at self.now variable).depth }
    {
        self.slots[variable as usize].depth
    }

    /// Makes a variable whose type is the constant `rigid`, which no variable has yet, inside `depth` definitions, and
    /// returns its number. The error is that memory or numbers ran out: then the store is as before.
    pub fn constant(&mut self, rigid: Rigid, depth: u32) -> Result<u32, AllocError>
        requires { Contains (constants_of self.old) rigid → ⊥ }
        ensures number { IfOk result (λ v. v ≡ length self.old) }
        ensures made { OnOk result (self.new ≡ self.old ++ put (plain.Constant rigid) depth ∷ []) }
        ensures kept { OnErr result (self.new ≡ self.old) }
        ensures whole { IsStore self.new }
    {
        push(self.alloc, &mut self.slots, Cell::Constant(rigid), depth)
    }

    /// Lets the constant of the variable `variable` go: then no more is known of the variable than its class and the
    /// fields that it lacks, which are those of the constant. The error is that memory ran out: then the store is as
    /// before.
    pub fn loosen(&mut self, variable: u32) -> Result<(), AllocError>
        requires inside { variable < length self.old }
        requires constant { is_constant (slot_at self.old variable).cell ≡ true }
        ensures made { OnOk result (IsLoosened self.old variable self.new) }
        ensures kept { OnErr result (self.new ≡ self.old) }
        ensures whole { IsStore self.new }
    {
        loosen(self.alloc, &mut self.slots, variable)
    }

    /// Makes a variable whose type has the head `head` and the parts `parts`, inside `depth` definitions, and returns
    /// its number. What it leads to becomes no deeper. The error is that memory or numbers ran out: then the store is
    /// as before.
    pub fn built(&mut self, head: Head, parts: Vec<u32>, depth: u32) -> Result<u32, AllocError>
        requires inside { All (λ w. w < length self.old) parts.items }
        ensures number { IfOk result (λ v. v ≡ length self.old) }
        ensures made { OnOk result (IsLowered (self.old ++ put (plain.Built head parts.items) depth ∷ []) self.new) }
        ensures kept { OnErr result (self.new ≡ self.old) }
        ensures whole { IsStore self.new }
    {
        push_built(
            self.alloc,
            &mut self.slots,
            &mut self.tools,
            head,
            parts,
            depth,
        )
    }

    /// Makes a variable whose type is a record with the fields `fields`, in ascending order of their names, and those
    /// of the variable `end`, if there is one, and returns its number. `end` then lacks the fields, and what the new
    /// variable leads to becomes no deeper than it is, inside `depth` definitions. The errors: no type lets `end` lack
    /// the fields; memory or numbers ran out. Then the store is as before.
    pub fn row(
        &mut self,
        fields: Vec<FieldSlot>,
        end: Option<u32>,
        depth: u32,
    ) -> Result<u32, AddError>
        requires inside { All (λ w. w < length self.old) (parts_of (plain.Row (map field_view fields.items) end)) }
        requires cell { IsCell 0 (plain.Row (map field_view fields.items) end) }
        ensures number { IfOk result (λ v. v ≡ length self.old) }
        ensures made { OnOk result (Becomes (self.old ++ put (plain.Row (map field_view fields.items) end) depth ∷ [])
            [] self.new []) }
        ensures clash { result ≡ Err AddError.Clash → Clash self.old (rest_asks end (field_names
            (map field_view fields.items))) }
        ensures goes { OnOk result (GoesOnAt depth self.old self.new) }
        ensures kept { OnErr result (self.new ≡ self.old) }
        ensures whole { IsStore self.new }
    {
        push_row(
            self.alloc,
            &mut self.slots,
            &mut self.tools,
            fields,
            end,
            depth,
        )
    }

    /// Adds that the variables `variable` and `other` have the same type. The errors: no types let them; memory or
    /// numbers ran out. Then the store is as before.
    pub fn same(&mut self, variable: u32, other: u32) -> Result<(), AddError>
        requires first { variable < length self.old }
        requires second { other < length self.old }
        ensures added { OnOk result (Added self.old (solutions.Same variable other) self.new) }
        ensures clash { result ≡ Err AddError.Clash → Clash self.old (solutions.Same variable other ∷ []) }
        ensures goes { OnOk result (GoesOn self.old self.new) }
        ensures kept { OnErr result (self.new ≡ self.old) }
        ensures whole { IsStore self.new }
    {
        self.ask(Ask::Same(variable, other))
    }

    /// Adds that the type of the variable `variable` meets the class `class`. The errors: no types let it; memory or
    /// numbers ran out. Then the store is as before.
    pub fn in_class(&mut self, variable: u32, class: Class) -> Result<(), AddError>
        requires { variable < length self.old }
        ensures added { OnOk result (Added self.old (solutions.InClass variable class) self.new) }
        ensures clash { result ≡ Err AddError.Clash → Clash self.old (solutions.InClass variable class ∷ []) }
        ensures goes { OnOk result (GoesOn self.old self.new) }
        ensures kept { OnErr result (self.new ≡ self.old) }
        ensures whole { IsStore self.new }
    {
        self.ask(Ask::InClass(variable, class))
    }

    /// Adds that the type of the variable `variable` is a record without the field `name`. The errors: no types let it;
    /// memory or numbers ran out. Then the store is as before.
    pub fn lacks(&mut self, variable: u32, name: Name) -> Result<(), AddError>
        requires { variable < length self.old }
        ensures added { OnOk result (Added self.old (solutions.Lacks variable name) self.new) }
        ensures clash { result ≡ Err AddError.Clash → Clash self.old (solutions.Lacks variable name ∷ []) }
        ensures goes { OnOk result (GoesOn self.old self.new) }
        ensures kept { OnErr result (self.new ≡ self.old) }
        ensures whole { IsStore self.new }
    {
        self.ask(Ask::Lacks(variable, name))
    }

    /// Adds what is asked.
    fn ask(&mut self, ask: Ask) -> Result<(), AddError>
        requires { AskInside (length self.old) (ask_view ask) }
        ensures added { OnOk result (Added self.old (ask_view ask) self.new) }
        ensures clash { result ≡ Err AddError.Clash → Clash self.old (ask_view ask ∷ []) }
        ensures goes { OnOk result (GoesOn self.old self.new) }
        ensures kept { OnErr result (self.new ≡ self.old) }
        ensures whole { IsStore self.new }
    {
        add_ask(self.alloc, &mut self.slots, &mut self.tools, ask)
    }
}
