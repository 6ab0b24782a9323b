//! What is said of bad items, in UTF-16 units.

ghost use Rattle.std.specs.Prelude.{◌≡◌, ◌++◌, ◌<◌, codes, length, IfOk, OnOk};
ghost use Rattle.elm_type.specs.Parts.{IsPair};
ghost use Rattle.elm_type.specs.Text.{leaf_name, text_in};
ghost use Rattle.elm_type.specs.Used.{stem};
ghost use Rattle.elm_type.specs.View.{scheme_view, type_view};
ghost use Rattle.elm_type.specs.declared.frame.Around.TheVariants.{Alone};
ghost use Rattle.infer.specs.Texts.{SaysParts};
ghost use Rattle.type_constructs.specs.Texts.{SaysClass, SaysPair};
ghost use Rattle.type_store.specs.Shape.{IsStore};

use elm_base::names::Name;
use elm_type::class::Class;
use elm_type::head::Head;
use elm_type::naming::names_of;
use elm_type::pairs::{Pair, parts_of_pair};
use elm_type::scheme::Scheme;
use elm_type::writing::write;
use std::alloc::{AllocError, Global};
use type_schemes::schemes::scheme;
use type_store::store::Store;

/// Adds a text in ASCII.
fn put(text: &mut Vec<u16>, ascii: &[u8]) -> Result<(), AllocError>
    ensures { OnOk result (text.new.items ≡ text.old.items ++ ascii.now) }
{
    for byte in ascii {
        text.push(u16::from(*byte))?;
    }
    Ok(())
}

/// The name of a class.
fn class_name(class: Class) -> &'static [u8]
    ensures { result.now ≡ stem class }
{
    match class {
        Class::Any => b"",
        Class::Number => b"number",
        Class::Comparable => b"comparable",
        Class::Appendable => b"appendable",
        Class::CompAppend => b"compappend",
    }
}

/// The text `TYPE is not CLASS`, of the type of a variable.
pub fn class_text(
    alloc: Global,
    store: &Store,
    variable: u32,
    class: Class,
) -> Result<Vec<u16>, AllocError>
    requires whole { IsStore store.now }
    requires inside { variable < length store.now }
    ensures { IfOk result (λ text. SaysClass store.now variable (stem class) text.items) }
{
    let scheme = scheme(alloc, store, variable)?;
    let names = names_of(alloc, &scheme)?;
    let mut text = write(alloc, &scheme.ty, &names)?;
    put(&mut text, b" is not ")?;
    put(&mut text, class_name(class))?;
    Ok(text)
}

/// The text `LEFT /= RIGHT`, where variables have these names.
fn parts_text(alloc: Global, parts: &Pair, names: &[Name]) -> Result<Vec<u16>, AllocError>
    ensures { IfOk result (λ text. text.items ≡ text_in (leaf_name names.now) Alone (type_view parts.now.left)
        ++ codes " /= " ++ text_in (leaf_name names.now) Alone (type_view parts.now.right)) }
{
    let mut text = write(alloc, &parts.left, names)?;
    put(&mut text, b" /= ")?;
    let right = write(alloc, &parts.right, names)?;
    text.extend_from_slice(&right)?;
    Ok(text)
}

/// The text `LEFT /= RIGHT`, of the scheme of their pair.
fn scheme_text(alloc: Global, scheme: &Scheme) -> Result<Vec<u16>, AllocError>
    requires { IsPair (type_view scheme.now.ty) }
    ensures { IfOk result (λ text. SaysParts (scheme_view scheme.now) text.items) }
{
    let names = names_of(alloc, scheme)?;
    let parts = parts_of_pair(alloc, &scheme.ty)?;
    parts_text(alloc, &parts, &names)
}

/// The text `LEFT /= RIGHT`, of the types of two variables, with one name for each variable of both. A variable for
/// their pair is made in the store.
pub fn pair_text(
    alloc: Global,
    store: &mut Store,
    first: u32,
    second: u32,
) -> Result<Vec<u16>, AllocError>
    requires whole { IsStore store.old }
    requires first { first < length store.old }
    requires second { second < length store.old }
    ensures { IfOk result (λ text. SaysPair store.old first second text.items) }
{
    let pair = store.built(Head::Tuple, vec![in alloc; first, second]?, 0)?;
    let scheme = scheme(alloc, store, pair)?;
    scheme_text(alloc, &scheme)
}

/// The text `field NAME twice`.
pub fn field_text(alloc: Global, name: &Name) -> Result<Vec<u16>, AllocError>
    ensures { IfOk result (λ text. text.items ≡ codes "field " ++ name.now ++ codes " twice") }
{
    let mut text = Vec::new(alloc);
    put(&mut text, b"field ")?;
    text.extend_from_slice(name.as_slice())?;
    put(&mut text, b" twice")?;
    Ok(text)
}

/// The text `NAME escapes`.
pub fn escape_text(alloc: Global, name: &Name) -> Result<Vec<u16>, AllocError>
    ensures { IfOk result (λ text. text.items ≡ name.now ++ codes " escapes") }
{
    let mut text = Vec::new(alloc);
    text.extend_from_slice(name.as_slice())?;
    put(&mut text, b" escapes")?;
    Ok(text)
}
