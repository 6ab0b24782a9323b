//! The module `Bitwise`.

/// The text of `Bitwise`.
pub const BITWISE: &[u8] =
    br##"module Bitwise exposing (and, or, xor, complement, shiftLeftBy, shiftRightBy, shiftRightZfBy)

-- (elm/core 1.0.5: Bitwise.)

-- A body here is never used: the compiler knows these functions.


and : Int -> Int -> Int
and x y =
    and x y


or : Int -> Int -> Int
or x y =
    or x y


xor : Int -> Int -> Int
xor x y =
    xor x y


complement : Int -> Int
complement x =
    complement x


shiftLeftBy : Int -> Int -> Int
shiftLeftBy places x =
    shiftLeftBy places x


shiftRightBy : Int -> Int -> Int
shiftRightBy places x =
    shiftRightBy places x


shiftRightZfBy : Int -> Int -> Int
shiftRightZfBy places x =
    shiftRightZfBy places x
"##;
