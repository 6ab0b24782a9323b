//! The module `String`.

/// The text of `String`, part 1 of 2.
pub const STRING_1: &[u8] = br##"module String exposing
    ( String, isEmpty, length, reverse, repeat, replace, append, concat, split, join, words, lines
    , slice, left, right, dropLeft, dropRight, contains, startsWith, endsWith, indexes, indices
    , toInt, fromInt, fromChar, cons, uncons, toList, fromList
    , toUpper, toLower, pad, padLeft, padRight, trim, trimLeft, trimRight, map, filter, foldl, foldr, any, all
    )

-- (elm/core 1.0.5: String.) A String is a list of units of UTF-16. As characters it is read from left to right: a high
-- surrogate and a low one after it are one Char, and each other unit is one. Places and lengths count units.
--
-- The type String has no text.

import Basics exposing (Bool(..), negate, not, remainderBy)
import Char
import List
import Maybe exposing (Maybe(..))



-- CHARACTERS


isHigh : Int -> Bool
isHigh unit =
    0xD800 <= unit && unit <= 0xDBFF


isLow : Int -> Bool
isLow unit =
    0xDC00 <= unit && unit <= 0xDFFF


codeOf : Int -> Int -> Int
codeOf high low =
    0x10000 + (high - 0xD800) * 0x400 + low - 0xDC00


-- how many units a code point takes
width : Int -> Int
width code =
    if code < 0x10000 then
        1

    else
        2


-- the code of the Char that begins at a place, which is below the length
codeAt : Int -> String -> Int
codeAt place string =
    codeFrom (unitAt place string) (place + 1) string


codeFrom : Int -> Int -> String -> Int
codeFrom unit next string =
    if isHigh unit && next < length string && isLow (unitAt next string) then
        codeOf unit (unitAt next string)

    else
        unit


-- the code of the Char that ends at a place, which is above 0
codeBefore : Int -> String -> Int
codeBefore place string =
    codeUpTo (unitAt (place - 1) string) (place - 2) string


codeUpTo : Int -> Int -> String -> Int
codeUpTo unit before string =
    if isLow unit && before >= 0 && isHigh (unitAt before string) then
        codeOf (unitAt before string) unit

    else
        unit


toList : String -> List Char
toList string =
    foldr (\char rest -> char :: rest) [] string


fromList : List Char -> String
fromList chars =
    List.foldl (\char string -> string ++ fromChar char) "" chars


cons : Char -> String -> String
cons char string =
    fromChar char ++ string


uncons : String -> Maybe ( Char, String )
uncons string =
    if isEmpty string then
        Nothing

    else
        unconsCode (codeAt 0 string) string


unconsCode : Int -> String -> Maybe ( Char, String )
unconsCode code string =
    Just ( Char.fromCode code, slice (width code) (length string) string )


foldl : (Char -> b -> b) -> b -> String -> b
foldl f state string =
    foldlFrom 0 f state string


foldlFrom : Int -> (Char -> b -> b) -> b -> String -> b
foldlFrom place f state string =
    if place < length string then
        let
            code =
                codeAt place string
        in
        foldlFrom (place + width code) f (f (Char.fromCode code) state) string

    else
        state


foldr : (Char -> b -> b) -> b -> String -> b
foldr f state string =
    foldrBefore (length string) f state string


foldrBefore : Int -> (Char -> b -> b) -> b -> String -> b
foldrBefore place f state string =
    if place > 0 then
        let
            code =
                codeBefore place string
        in
        foldrBefore (place - width code) f (f (Char.fromCode code) state) string

    else
        state


map : (Char -> Char) -> String -> String
map f string =
    foldl (\char mapped -> mapped ++ fromChar (f char)) "" string


filter : (Char -> Bool) -> String -> String
filter isGood string =
    foldl
        (\char good ->
            if isGood char then
                good ++ fromChar char

            else
                good
        )
        ""
        string


any : (Char -> Bool) -> String -> Bool
any isGood string =
    anyFrom 0 isGood string


anyFrom : Int -> (Char -> Bool) -> String -> Bool
anyFrom place isGood string =
    if place < length string then
        let
            code =
                codeAt place string
        in
        if isGood (Char.fromCode code) then
            True

        else
            anyFrom (place + width code) isGood string

    else
        False


all : (Char -> Bool) -> String -> Bool
all isGood string =
    not (any (\char -> not (isGood char)) string)


reverse : String -> String
reverse string =
    foldr (\char reversed -> reversed ++ fromChar char) "" string


-- letters of ASCII alone
toUpper : String -> String
toUpper string =
    map Char.toUpper string


-- letters of ASCII alone
toLower : String -> String
toLower string =
    map Char.toLower string



-- BUILDING


isEmpty : String -> Bool
isEmpty string =
    string == ""


append : String -> String -> String
append one other =
    one ++ other


concat : List String -> String
concat strings =
    List.foldl (\string joined -> joined ++ string) "" strings


join : String -> List String -> String
join separator strings =
    case strings of
        [] ->
            ""

        string :: rest ->
            List.foldl (\next joined -> joined ++ separator ++ next) string rest


repeat : Int -> String -> String
repeat count string =
    repeatAfter "" count string


repeatAfter : String -> Int -> String -> String
repeatAfter done count string =
    if count > 1 then
        repeatAfter (onceIfOdd done count string) (half count) (string ++ string)

    else if count == 1 then
        done ++ string

    else
        done


onceIfOdd : String -> Int -> String -> String
onceIfOdd done count string =
    if remainderBy 2 count == 1 then
        done ++ string

    else
        done


-- of a number that is not negative; `//` alone gives 32 bits
half : Int -> Int
half n =
    n // 0x04000000 * 0x02000000 + remainderBy 0x04000000 n // 2


-- The larger half is on the left.
pad : Int -> Char -> String -> String
pad count char string =
    if count > length string then
        padBoth (half (count - length string)) (count - length string) (fromChar char) string

    else
        string


padBoth : Int -> Int -> String -> String -> String
padBoth after count char string =
    repeat (count - after) char ++ string ++ repeat after char


padLeft : Int -> Char -> String -> String
padLeft count char string =
    if count > length string then
        repeat (count - length string) (fromChar char) ++ string

    else
        string


padRight : Int -> Char -> String -> String
padRight count char string =
    if count > length string then
        string ++ repeat (count - length string) (fromChar char)

    else
        string



-- PARTS


left : Int -> String -> String
left count string =
    if count > 0 then
        slice 0 count string

    else
        ""


right : Int -> String -> String
right count string =
    if count > 0 then
        slice -count (length string) string

    else
        ""


dropLeft : Int -> String -> String
dropLeft count string =
    if count > 0 then
        slice count (length string) string

    else
        string


dropRight : Int -> String -> String
dropRight count string =
    if count > 0 then
        slice 0 -count string

    else
        string


contains : String -> String -> Bool
contains part string =
    find part 0 string >= 0


startsWith : String -> String -> Bool
startsWith part string =
    slice 0 (length part) string == part


endsWith : String -> String -> Bool
endsWith part string =
    length part <= length string && slice (length string - length part) (length string) string == part


-- None of them overlaps the one before.
indexes : String -> String -> List Int
indexes part string =
    if isEmpty part then
        []

    else
        indexesAfter [] (find part 0 string) part string


"##;

/// The text of `String`, part 2 of 2.
pub const STRING_2: &[u8] = br##"-- `place` is the next one, or -1
indexesAfter : List Int -> Int -> String -> String -> List Int
indexesAfter done place part string =
    if place < 0 then
        List.reverse done

    else
        indexesAfter (place :: done) (find part (place + length part) string) part string


indices : String -> String -> List Int
indices part string =
    indexes part string


replace : String -> String -> String -> String
replace before after string =
    join after (split before string)


-- Between empty texts stands each unit.
split : String -> String -> List String
split separator string =
    if isEmpty separator then
        unitsBefore [] (length string) string

    else
        splitAfter [] 0 (find separator 0 string) separator string


-- the texts of one unit that stand before a place, before `rest`
unitsBefore : List String -> Int -> String -> List String
unitsBefore rest place string =
    if place > 0 then
        unitsBefore (slice (place - 1) place string :: rest) (place - 1) string

    else
        rest


-- a part begins at `start` and ends at `place`, or else at the end of the text
splitAfter : List String -> Int -> Int -> String -> String -> List String
splitAfter done start place separator string =
    if place < 0 then
        List.reverse (slice start (length string) string :: done)

    else
        let
            next =
                place + length separator
        in
        splitAfter (slice start place string :: done) next (find separator next string) separator string


-- A carriage return with a line feed ends one line, and each of the two alone does.
lines : String -> List String
lines string =
    linesAfter [] 0 0 string


-- a line begins at `start`, and has no end before `place`
linesAfter : List String -> Int -> Int -> String -> List String
linesAfter done start place string =
    if place >= length string then
        List.reverse (slice start place string :: done)

    else
        let
            next =
                place + lineEnd place string
        in
        if next > place then
            linesAfter (slice start place string :: done) next next string

        else
            linesAfter done start (place + 1) string


-- how many units end a line there, or 0
lineEnd : Int -> String -> Int
lineEnd place string =
    let
        unit =
            unitAt place string
    in
    if unit == 10 then
        1

    else if unit /= 13 then
        0

    else if place + 1 < length string && unitAt (place + 1) string == 10 then
        2

    else
        1



-- WHITE SPACE


-- what ECMA-262 calls white space or the end of a line
isSpace : Int -> Bool
isSpace unit =
    if unit < 0x80 then
        unit == 32 || (9 <= unit && unit <= 13)

    else
        isWideSpace unit


isWideSpace : Int -> Bool
isWideSpace unit =
    (unit == 0xA0)
        || (unit == 0x1680)
        || (0x2000 <= unit && unit <= 0x200A)
        || (unit == 0x2028)
        || (unit == 0x2029)
        || (unit == 0x202F)
        || (unit == 0x205F)
        || (unit == 0x3000)
        || (unit == 0xFEFF)


-- the first place from `place` on where no white space stands
spaceEnd : Int -> String -> Int
spaceEnd place string =
    if place < length string && isSpace (unitAt place string) then
        spaceEnd (place + 1) string

    else
        place


-- the last place up to `place` before which no white space stands
spaceStart : Int -> String -> Int
spaceStart place string =
    if place > 0 && isSpace (unitAt (place - 1) string) then
        spaceStart (place - 1) string

    else
        place


trim : String -> String
trim string =
    trimRight (trimLeft string)


trimLeft : String -> String
trimLeft string =
    slice (spaceEnd 0 string) (length string) string


trimRight : String -> String
trimRight string =
    slice 0 (spaceStart (length string) string) string


words : String -> List String
words string =
    wordsAfter [] 0 0 (trim string)


-- a word begins at `start`, and has no end before `place`
wordsAfter : List String -> Int -> Int -> String -> List String
wordsAfter done start place string =
    if place >= length string then
        List.reverse (slice start place string :: done)

    else if isSpace (unitAt place string) then
        let
            next =
                spaceEnd place string
        in
        wordsAfter (slice start place string :: done) next next string

    else
        wordsAfter done start (place + 1) string



-- NUMBERS


toInt : String -> Maybe Int
toInt string =
    if startsWith "-" string then
        Maybe.map negate (digitsToInt 1 string)

    else if startsWith "+" string then
        digitsToInt 1 string

    else
        digitsToInt 0 string


-- the number whose digits are all that stands from a place on
digitsToInt : Int -> String -> Maybe Int
digitsToInt place string =
    if place < length string && areDigits place string then
        Just (numberFrom 0 place string)

    else
        Nothing


areDigits : Int -> String -> Bool
areDigits place string =
    if place >= length string then
        True

    else if isDigit (unitAt place string) then
        areDigits (place + 1) string

    else
        False


isDigit : Int -> Bool
isDigit unit =
    48 <= unit && unit <= 57


numberFrom : Int -> Int -> String -> Int
numberFrom number place string =
    if place < length string then
        numberFrom (number * 10 + (unitAt place string - 48)) (place + 1) string

    else
        number



-- KNOWN TO THE COMPILER (a body here is never used)


length : String -> Int
length text =
    length text


slice : Int -> Int -> String -> String
slice start end text =
    slice start end text


fromInt : Int -> String
fromInt n =
    fromInt n


fromChar : Char -> String
fromChar char =
    fromChar char


-- the unit at a place
unitAt : Int -> String -> Int
unitAt place text =
    unitAt place text


-- where the first text stands first in the second, from a place on, or -1
find : String -> Int -> String -> Int
find part place text =
    find part place text
"##;
