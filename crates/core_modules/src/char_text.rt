//! The module `Char`.

/// The text of `Char`.
pub const CHAR: &[u8] = br##"module Char exposing
    ( Char, isUpper, isLower, isAlpha, isAlphaNum, isDigit, isOctDigit, isHexDigit
    , toUpper, toLower, toCode, fromCode
    )

-- (elm/core 1.0.5: Char.) A Char is a code point of Unicode: one unit of UTF-16, or a high surrogate and a low one. A
-- surrogate may stand alone, too. Chars are ordered by their units.
--
-- The type Char has no text.

import Basics exposing (Bool, remainderBy)


isUpper : Char -> Bool
isUpper char =
    'A' <= char && char <= 'Z'


isLower : Char -> Bool
isLower char =
    'a' <= char && char <= 'z'


isAlpha : Char -> Bool
isAlpha char =
    isLower char || isUpper char


isAlphaNum : Char -> Bool
isAlphaNum char =
    isLower char || isUpper char || isDigit char


isDigit : Char -> Bool
isDigit char =
    '0' <= char && char <= '9'


isOctDigit : Char -> Bool
isOctDigit char =
    '0' <= char && char <= '7'


isHexDigit : Char -> Bool
isHexDigit char =
    isDigit char || ('a' <= char && char <= 'f') || ('A' <= char && char <= 'F')


-- letters of ASCII alone
toUpper : Char -> Char
toUpper char =
    if isLower char then
        fromCode (toCode char - 32)

    else
        char


-- letters of ASCII alone
toLower : Char -> Char
toLower char =
    if isUpper char then
        fromCode (toCode char + 32)

    else
        char


toCode : Char -> Int
toCode char =
    toCodeFrom (unitAt 0 char) char


-- `unit` is the first one
toCodeFrom : Int -> Char -> Int
toCodeFrom unit char =
    if unit < 0xD800 || unit > 0xDBFF || char == fromText (fromUnit unit) then
        unit

    else
        0x10000 + (unit - 0xD800) * 0x400 + unitAt 1 char - 0xDC00


-- A number that is no code point gives U+FFFD.
fromCode : Int -> Char
fromCode code =
    if code < 0 || code > 0x10FFFF then
        fromText (fromUnit 0xFFFD)

    else if code < 0x10000 then
        fromText (fromUnit code)

    else
        fromText (fromUnit (0xD800 + (code - 0x10000) // 0x400) ++ fromUnit (0xDC00 + remainderBy 0x400 code))



-- KNOWN TO THE COMPILER (a body here is never used)


-- the unit at a place
unitAt : Int -> Char -> Int
unitAt place char =
    unitAt place char


-- the text of one unit
fromUnit : Int -> String
fromUnit unit =
    fromUnit unit


-- the Char that a text of one Char is
fromText : String -> Char
fromText text =
    fromText text
"##;
