//! The modules of core.

use elm_base::text::Text;
use indexmap::IndexSet;
use std::alloc::{AllocError, Global};

/// The names of the core modules.
const NAMES: [&str; 14] = [
    "Basics",
    "Bitwise",
    "Char",
    "Debug",
    "Dict",
    "List",
    "Maybe",
    "Platform",
    "Platform.Cmd",
    "Platform.Sub",
    "Result",
    "Set",
    "String",
    "Tuple",
];

/// The names of the core modules, as texts.
pub fn core_names(alloc: Global) -> Result<IndexSet<Text>, AllocError> {
    let mut names = IndexSet::with_capacity(alloc, NAMES.len())?;
    for name in NAMES {
        names.insert(Text::copy(alloc, name.as_bytes())?)?;
    }
    Ok(names)
}
