//! The modules of the core library.

ghost use Rattle.std.specs.Prelude.{◌≡◌, ◌++◌, ◌∷◌, [], map, IfOk, OnOk};
ghost use Rattle.core_modules.specs.Library.{core_library, module_view};
ghost use Rattle.core_modules.specs.Thirds.{first_modules, second_modules, third_modules};

use crate::basics_text::BASICS;
use crate::bitwise_text::BITWISE;
use crate::char_text::CHAR;
use crate::debug_text::DEBUG;
use crate::dict_text::{DICT_1, DICT_2};
use crate::list_text::{LIST_1, LIST_2};
use crate::maybe_text::MAYBE;
use crate::platform_cmd_text::PLATFORM_CMD;
use crate::platform_sub_text::PLATFORM_SUB;
use crate::platform_text::PLATFORM;
use crate::result_text::RESULT;
use crate::set_text::SET;
use crate::string_text::{STRING_1, STRING_2};
use crate::tuple_text::TUPLE;
use std::alloc::{AllocError, Global};

/// A module of the core library.
#[derive(Drop)]
pub struct CoreModule {
    pub name: String,
    pub text: Vec<u8>,
}

/// Adds the module `name` of the text `text`.
fn push(
    alloc: Global,
    modules: &mut Vec<CoreModule>,
    name: &str,
    text: &[u8],
) -> Result<(), AllocError>
    ensures { OnOk result (map module_view modules.new.items
        ≡ map module_view modules.old.items ++ (name.now, text.now) ∷ []) }
{
    push_halves(alloc, modules, name, text, &[])
}

/// Adds the module `name`, whose text is `first` and then `second`.
fn push_halves(
    alloc: Global,
    modules: &mut Vec<CoreModule>,
    name: &str,
    first: &[u8],
    second: &[u8],
) -> Result<(), AllocError>
    ensures { OnOk result (map module_view modules.new.items
        ≡ map module_view modules.old.items ++ (name.now, first.now ++ second.now) ∷ []) }
{
    let mut text = Vec::with_capacity(alloc, first.len().saturating_add(second.len()))?;
    text.extend_from_slice(first)?;
    text.extend_from_slice(second)?;
    let name = String::from_str(alloc, name)?;
    modules.push(CoreModule { name, text })?;
    Ok(())
}

/// Adds the first modules.
fn push_first(alloc: Global, modules: &mut Vec<CoreModule>) -> Result<(), AllocError>
    ensures { OnOk result (map module_view modules.new.items ≡ map module_view modules.old.items ++ first_modules) }
{
    push(alloc, modules, "Basics", BASICS)?;
    push(alloc, modules, "Bitwise", BITWISE)?;
    push(alloc, modules, "Char", CHAR)?;
    push(alloc, modules, "Debug", DEBUG)?;
    push(alloc, modules, "Maybe", MAYBE)?;
    Ok(())
}

/// Adds the modules after these.
fn push_second(alloc: Global, modules: &mut Vec<CoreModule>) -> Result<(), AllocError>
    ensures { OnOk result (map module_view modules.new.items ≡ map module_view modules.old.items ++ second_modules) }
{
    push_halves(alloc, modules, "Dict", DICT_1, DICT_2)?;
    push_halves(alloc, modules, "List", LIST_1, LIST_2)?;
    push(alloc, modules, "Platform.Cmd", PLATFORM_CMD)?;
    push(alloc, modules, "Platform.Sub", PLATFORM_SUB)?;
    push(alloc, modules, "Platform", PLATFORM)?;
    Ok(())
}

/// Adds the last modules.
fn push_third(alloc: Global, modules: &mut Vec<CoreModule>) -> Result<(), AllocError>
    ensures { OnOk result (map module_view modules.new.items ≡ map module_view modules.old.items ++ third_modules) }
{
    push(alloc, modules, "Result", RESULT)?;
    push(alloc, modules, "Set", SET)?;
    push_halves(alloc, modules, "String", STRING_1, STRING_2)?;
    push(alloc, modules, "Tuple", TUPLE)?;
    Ok(())
}

/// The modules of the core library, with their texts, in the order in which a build takes them: each stands after those
/// that it imports. The error means that memory ran out.
pub fn core_library(alloc: Global) -> Result<Vec<CoreModule>, AllocError>
    ensures { IfOk result (λ v. map module_view v.items ≡ core_library) }
{
    let mut modules = Vec::with_capacity(alloc, 14)?;
    push_first(alloc, &mut modules)?;
    push_second(alloc, &mut modules)?;
    push_third(alloc, &mut modules)?;
    Ok(modules)
}
