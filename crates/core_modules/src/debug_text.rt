//! The module `Debug`.

/// The text of `Debug`.
pub const DEBUG: &[u8] = br##"module Debug exposing (todo)

-- (elm/core 1.0.5: Debug.)

-- A body here is never used: the compiler knows these functions.


todo : String -> a
todo text =
    todo text
"##;
