//! The search for a type that is a part of itself.

ghost use Rattle.std.specs.Prelude.{◌≡◌, ℕ, ◌+◌, ◌-◌, ◌^◌, ◌<◌, ◌≤◌, ◌++◌, ◌∷◌, [], length, slice_get, slice_set};
ghost use Rattle.std.specs.Prelude.{slice_index, take, Some, Ok, IsSome, OnOk, true, false, is_ok, if◌then◌else◌};
ghost use Rattle.std.specs.List.{All};
ghost use Rattle.type_store.specs.Store.{slot_at, end_slots};
ghost use Rattle.type_store.specs.Shape.{parts_of, Ranked};
ghost use Rattle.type_store.specs.View.{cell_view, store_view};
ghost use Rattle.type_store.specs.Cycles.{parts_at, mark_of, step_at, RankedBut, NoFit, IsSearchable, Leads, IsWalking};
ghost use Rattle.type_store.specs.Cycles.{IsAtRest, IsClearable, KeepsMarks, work_left};

use crate::slot::{Cell, Slot};
use std::alloc::{AllocError, Global};

/// How far the search is with a variable.
#[derive(Clone, Copy)]
pub(crate) enum Mark {
    /// It was not seen yet.
    New,
    /// It is on the path, at this place.
    Open(usize),
    /// What it leads to is done. It is the one at this place of those that are done.
    Done(usize),
}

/// A variable on the path, and the place of the part that the search looks at.
#[derive(Clone, Copy)]
pub(crate) struct Step {
    slot: u32,
    part: usize,
}

/// A search, with the path that it is on, the variables that are done, and the mark of each variable. Its memory serves
/// one search after another.
#[derive(Drop)]
pub(crate) struct CycleSearch {
    marks: Vec<Mark>,
    path: Vec<Step>,
    done: Vec<u32>,
}

impl CycleSearch {
    /// A search that has not begun.
    pub(crate) fn new(alloc: Global) -> CycleSearch
        ensures { IsAtRest result }
    {
        CycleSearch {
            marks: Vec::new(alloc),
            path: Vec::new(alloc),
            done: Vec::new(alloc),
        }
    }

    /// Whether no type of the store is a part of itself, which holds but for what the changed cells say. If not, the
    /// store has no solution. The error is out of memory.
    pub(crate) fn is_free(&mut self, slots: &[Slot], changed: &[u32]) -> Result<bool, AllocError>
        requires searchable { IsSearchable (store_view slots.now) }
        requires changed { All (λ v. v < length slots.now) changed.now }
        requires ranked { RankedBut (store_view slots.now) changed.now }
        requires rest { IsAtRest self.old }
        ensures free { result ≡ Ok true → Ranked (store_view slots.now) }
        ensures ring { result ≡ Ok false → NoFit (store_view slots.now) }
        ensures rest { IsAtRest self.new }
    {
        self.widen(slots.len())?;
        let answer = self.search(slots, changed);
        self.rest();
        answer
    }

    /// Makes room for the marks of so many variables.
    fn widen(&mut self, count: usize) -> Result<(), AllocError>
        requires { IsAtRest self.old }
        ensures rest { IsAtRest self.new }
        ensures room { OnOk result (count ≤ length self.new.marks.items) }
    {
        while self.marks.len() < count {
            self.marks.push(Mark::New)?;
        }
        Ok(())
    }

    /// Takes all marks away.
    fn rest(&mut self)
        requires { IsClearable self.old }
        ensures { IsAtRest self.new }
    {
        forget_done(&mut self.marks, &self.done);
        forget_path(&mut self.marks, &self.path);
        self.done.clear();
        self.path.clear();
    }

    /// Searches from each changed variable; false where one stands on a ring.
    fn search(&mut self, slots: &[Slot], changed: &[u32]) -> Result<bool, AllocError>
        requires searchable { IsSearchable (store_view slots.now) }
        requires changed { All (λ v. v < length slots.now) changed.now }
        requires walk { IsWalking slots.now self.old }
        requires empty { self.old.path.items ≡ [] }
        ensures walk { IsWalking slots.now self.new }
        ensures empty { result ≡ Ok true → self.new.path.items ≡ [] }
        ensures marked { result ≡ Ok true → All (λ v. mark_of self.new.marks.items v ≡ Mark.New → ⊥) changed.now }
        ensures ring { result ≡ Ok false → (v : ℕ) × Leads (store_view slots.now) v v }
    {
        for start in changed {
            if !self.begin(slots, *start)? {
                return Ok(false);
            }
        }
        Ok(true)
    }

    /// Searches from one variable; false where it leads to a ring.
    fn begin(&mut self, slots: &[Slot], start: u32) -> Result<bool, AllocError>
        requires searchable { IsSearchable (store_view slots.now) }
        requires within { start < length slots.now }
        requires walk { IsWalking slots.now self.old }
        requires empty { self.old.path.items ≡ [] }
        ensures walk { IsWalking slots.now self.new }
        ensures keeps { KeepsMarks self.old.marks.items self.new.marks.items }
        ensures empty { result ≡ Ok true → self.new.path.items ≡ [] }
        ensures marked { result ≡ Ok true → mark_of self.new.marks.items start ≡ Mark.New → ⊥ }
        ensures ring { result ≡ Ok false → (v : ℕ) × Leads (store_view slots.now) v v }
    {
        if let Mark::New = self.marks[start as usize] {
            self.open(start)?;
            return self.run(slots);
        }
        Ok(true)
    }

    /// Goes on until nothing is left on the path; false where a ring is found.
    fn run(&mut self, slots: &[Slot]) -> Result<bool, AllocError>
        requires searchable { IsSearchable (store_view slots.now) }
        requires walk { IsWalking slots.now self.old }
        ensures walk { IsWalking slots.now self.new }
        ensures keeps { KeepsMarks self.old.marks.items self.new.marks.items }
        ensures empty { result ≡ Ok true → self.new.path.items ≡ [] }
        ensures ring { result ≡ Ok false → (v : ℕ) × Leads (store_view slots.now) v v }
    {
        while let Some(step) = self.path.last().copied() {
            if !self.follow(slots, step)? {
                return Ok(false);
            }
        }
        Ok(true)
    }

    /// Looks at the part that is next of the last variable on the path; false where it stands on the path itself.
    fn follow(&mut self, slots: &[Slot], step: Step) -> Result<bool, AllocError>
        requires searchable { IsSearchable (store_view slots.now) }
        requires walk { IsWalking slots.now self.old }
        requires last { slice_get self.old.path.items (length self.old.path.items - 1) ≡ Some step }
        ensures walk { IsWalking slots.now self.new }
        ensures keeps { KeepsMarks self.old.marks.items self.new.marks.items }
        ensures ring { result ≡ Ok false → (v : ℕ) × Leads (store_view slots.now) v v }
        ensures nearer { result ≡ Ok true → work_left slots.now self.new < work_left slots.now self.old }
    {
        let Some(part) = part(slots, step.slot, step.part) else {
            self.close(step.slot)?;
            return Ok(true);
        };
        if depth(slots, part) != depth(slots, step.slot) {
            self.advance(step);
            return Ok(true);
        }
        match self.marks[part as usize] {
            Mark::New => {
                self.open(part)?;
                Ok(true)
            }
            Mark::Open(_) => Ok(false),
            Mark::Done(_) => {
                self.advance(step);
                Ok(true)
            }
        }
    }

    /// Puts a variable that was not seen yet at the end of the path.
    fn open(&mut self, slot: u32) -> Result<(), AllocError>
        requires { slot < length self.old.marks.items }
        ensures marks { self.new.marks.items ≡ (if is_ok result then slice_set self.old.marks.items slot
            (Mark.Open (length self.old.path.items)) else self.old.marks.items) }
        ensures path { self.new.path.items ≡ (if is_ok result then self.old.path.items
            ++ record { slot = slot; part = 0 } ∷ [] else self.old.path.items) }
        ensures done { self.new.done.items ≡ self.old.done.items }
    {
        let place = self.path.len();
        self.path.push(Step { slot, part: 0 })?;
        self.marks[slot as usize] = Mark::Open(place);
        Ok(())
    }

    /// Takes the last variable off the path: it is done.
    fn close(&mut self, slot: u32) -> Result<(), AllocError>
        requires { slot < length self.old.marks.items }
        ensures marks { self.new.marks.items ≡ (if is_ok result then slice_set self.old.marks.items slot
            (Mark.Done (length self.old.done.items)) else self.old.marks.items) }
        ensures path { self.new.path.items ≡ (if is_ok result then take (length self.old.path.items - 1)
            self.old.path.items else self.old.path.items) }
        ensures done { self.new.done.items ≡ (if is_ok result then self.old.done.items ++ slot ∷ []
            else self.old.done.items) }
    {
        let place = self.done.len();
        self.done.push(slot)?;
        self.marks[slot as usize] = Mark::Done(place);
        self.path.pop();
        Ok(())
    }

    /// Lets the last step look at the next part.
    fn advance(&mut self, step: Step)
        requires some { 0 < length self.old.path.items }
        requires next { step.part + 1 < 2 ^ 64 }
        ensures marks { self.new.marks.items ≡ self.old.marks.items }
        ensures path { self.new.path.items ≡ slice_set self.old.path.items (length self.old.path.items - 1)
            (record { slot = step.slot; part = step.part + 1 }) }
        ensures done { self.new.done.items ≡ self.old.done.items }
    {
        let last = self.path.len() - 1;
        self.path[last] = Step {
            slot: step.slot,
            part: step.part + 1,
        };
    }
}

/// Takes the marks of these variables away.
fn forget_done(marks: &mut Vec<Mark>, done: &[u32])
    requires { All (λ v. v < length marks.old.items) done.now }
    ensures all { length marks.new.items ≡ length marks.old.items }
    ensures forgotten { (k : ℕ) → k < length done.now → mark_of marks.new.items (slice_index done.now k) ≡ Mark.New }
    ensures others { (v : ℕ) → mark_of marks.old.items v ≡ Mark.New → mark_of marks.new.items v ≡ Mark.New }
{
    for slot in done {
        marks[*slot as usize] = Mark::New;
    }
}

/// Takes the marks of the variables on the path away.
fn forget_path(marks: &mut Vec<Mark>, path: &[Step])
    requires { All (λ step. step.slot < length marks.old.items) path.now }
    ensures all { length marks.new.items ≡ length marks.old.items }
    ensures forgotten { (k : ℕ) → k < length path.now → mark_of marks.new.items (step_at path.now k).slot ≡ Mark.New }
    ensures others { (v : ℕ) → mark_of marks.old.items v ≡ Mark.New → mark_of marks.new.items v ≡ Mark.New }
{
    for step in path {
        marks[step.slot as usize] = Mark::New;
    }
}

/// The part of a variable's cell at this place, if there is one.
pub(crate) fn part(slots: &[Slot], slot: u32, place: usize) -> Option<u32>
    requires { slot < length slots.now }
    ensures part { result ≡ slice_get (parts_at (store_view slots.now) slot) place }
    ensures next { IsSome result → place + 1 < 2 ^ 64 }
{
    part_of(&slots[slot as usize].cell, place)
}

/// The part of a cell at this place, if there is one.
fn part_of(cell: &Cell, place: usize) -> Option<u32>
    ensures part { result ≡ slice_get (parts_of (cell_view cell.now)) place }
    ensures next { IsSome result → place + 1 < 2 ^ 64 }
{
    match cell {
        Cell::Open => None,
        Cell::Bound(slot) => only(Some(*slot), place),
        Cell::Built(_, parts) => parts.get(place).copied(),
        Cell::Row(fields, end) => {
            if place < fields.len() {
                Some(fields[place].slot)
            } else {
                only(*end, place - fields.len())
            }
        }
        Cell::Constant(_) => None,
    }
}

/// The slot, if there is one, at place 0.
fn only(slot: Option<u32>, place: usize) -> Option<u32>
    ensures { result ≡ slice_get (end_slots slot) place }
{
    if place == 0 { slot } else { None }
}

/// The depth of a variable.
pub(crate) fn depth(slots: &[Slot], slot: u32) -> u32
    requires { slot < length slots.now }
    ensures { result ≡ (slot_at (store_view slots.now) slot).depth }
{
    slots[slot as usize].depth
}
