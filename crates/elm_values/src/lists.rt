//! Lists that are held from the last item to the first.

ghost use Rattle.std.specs.Prelude.{◌≡◌, ◌∷◌, [], map, reverse, IfOk, IfErr, OnOk};
ghost use Rattle.elm_values.specs.Stack.{first, head_or, items_of, tail};

use std::alloc::{AllocError, Global};

/// Puts an item in front, or a value on a stack.
pub fn put<T: Drop>(list: &mut Vec<T>, item: T) -> Result<(), AllocError>
    ensures { OnOk result (reverse list.new.items ≡ item ∷ reverse list.old.items) }
{
    list.push(item)?;
    Ok(())
}

/// Takes the last value off a stack. Where there is none, it is the other one.
pub fn take_or<T: Drop>(stack: &mut Vec<T>, other: T) -> T
    ensures value { result ≡ head_or other (reverse stack.old.items) }
    ensures rest { reverse stack.new.items ≡ tail (reverse stack.old.items) }
{
    match stack.pop() {
        Some(value) => value,
        None => other,
    }
}

/// Takes the last value off a stack, in a box. Where there is none, it is the other one.
pub fn take_boxed<T: Drop>(
    alloc: Global,
    stack: &mut Vec<T>,
    other: T,
) -> Result<Box<T>, AllocError>
    ensures value { IfOk result (λ made. made.value ≡ head_or other (reverse stack.old.items)) }
    ensures rest { OnOk result (reverse stack.new.items ≡ tail (reverse stack.old.items)) }
{
    let value = take_or(stack, other);
    Ok(Box::new(alloc, value)?)
}

/// Leaves the last value on a stack. Where there is none, the other one is put there.
pub fn keep<T: Drop>(stack: &mut Vec<T>, other: T) -> Result<(), AllocError>
    ensures { OnOk result (reverse stack.new.items
        ≡ head_or other (reverse stack.old.items) ∷ tail (reverse stack.old.items)) }
{
    let value = take_or(stack, other);
    put(stack, value)
}

/// Puts an item in front of the last list of a stack. Where there is no list, it is put in front of none.
pub fn put_in<T: Drop>(alloc: Global, lists: &mut Vec<Vec<T>>, item: T) -> Result<(), AllocError>
    ensures { OnOk result (items_of lists.new.items
        ≡ (item ∷ head_or [] (items_of lists.old.items)) ∷ tail (items_of lists.old.items)) }
{
    let mut list = take_or(lists, Vec::new(alloc));
    put(&mut list, item)?;
    put(lists, list)
}

/// Takes the last value off a stack, and puts it in front of the last list of another one.
pub fn grow<T: Drop>(
    alloc: Global,
    stack: &mut Vec<T>,
    lists: &mut Vec<Vec<T>>,
    other: T,
) -> Result<(), AllocError>
    ensures { OnOk result ((reverse stack.new.items ≡ tail (reverse stack.old.items))
        × (items_of lists.new.items
        ≡ (head_or other (reverse stack.old.items) ∷ head_or [] (items_of lists.old.items))
        ∷ tail (items_of lists.old.items))) }
{
    let item = take_or(stack, other);
    put_in(alloc, lists, item)
}

/// Takes the last value off a stack, and puts it in front of a list.
pub fn move_to<T: Drop>(stack: &mut Vec<T>, list: &mut Vec<T>, other: T) -> Result<(), AllocError>
    ensures { OnOk result ((reverse stack.new.items ≡ tail (reverse stack.old.items))
        × (reverse list.new.items ≡ head_or other (reverse stack.old.items) ∷ reverse list.old.items)) }
{
    let item = take_or(stack, other);
    put(list, item)
}

/// Puts an empty list on a stack.
pub fn put_empty<T: Drop>(alloc: Global, lists: &mut Vec<Vec<T>>) -> Result<(), AllocError>
    ensures { OnOk result (items_of lists.new.items ≡ [] ∷ items_of lists.old.items) }
{
    put(lists, Vec::new(alloc))
}

/// The list of one item.
pub fn one_item<T: Drop>(alloc: Global, item: T) -> Result<Vec<T>, AllocError>
    ensures { IfOk result (λ list. reverse list.items ≡ item ∷ []) }
{
    let mut list = Vec::new(alloc);
    list.push(item)?;
    Ok(list)
}

/// The first item, if there is one.
pub fn first<T: Drop>(mut list: Vec<T>) -> Option<T>
    ensures { result ≡ first (reverse list.items) }
{
    list.pop()
}

/// The items from the first on.
pub fn turned<T: Drop>(mut list: Vec<T>) -> Vec<T>
    ensures { result.items ≡ reverse list.items }
{
    list.reverse();
    list
}

/// The one item, or else the list.
pub fn single<T: Drop>(mut list: Vec<T>) -> Result<T, Vec<T>>
    ensures one { IfOk result (λ item. reverse list.items ≡ item ∷ []) }
    ensures same { IfErr result (λ others. others.items ≡ list.items) }
    ensures several { IfErr result (λ others. (item : T) → reverse others.items ≡ item ∷ [] → ⊥) }
{
    if list.len() != 1 {
        return Err(list);
    }
    match list.pop() {
        Some(item) => Ok(item),
        None => Err(list),
    }
}
