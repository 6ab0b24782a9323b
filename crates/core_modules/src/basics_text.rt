//! The module `Basics`.

/// The text of `Basics`.
pub const BASICS: &[u8] = br##"module Basics exposing
    ( Int, Bool(..), Order(..), Never
    , max, min, compare, not, xor, modBy, remainderBy, negate, abs, clamp
    , identity, always, never
    )

-- (elm/core 1.0.5: Basics.) The type Int has no text. The functions of operators are not exposed: a name such as `add`
-- is what `(+)` means.


type Bool
    = True
    | False


type Order
    = LT
    | EQ
    | GT


type Never
    = JustOneMore Never



-- ORDER


max : comparable -> comparable -> comparable
max x y =
    if x > y then
        x

    else
        y


min : comparable -> comparable -> comparable
min x y =
    if x < y then
        x

    else
        y


compare : comparable -> comparable -> Order
compare x y =
    if x < y then
        LT

    else if x > y then
        GT

    else
        EQ



-- TRUTH VALUES


not : Bool -> Bool
not truth =
    if truth then
        False

    else
        True


xor : Bool -> Bool -> Bool
xor one other =
    if one then
        not other

    else
        other



-- NUMBERS


negate : number -> number
negate n =
    -n


abs : number -> number
abs n =
    if n < 0 then
        -n

    else
        n


clamp : number -> number -> number -> number
clamp low high n =
    if n < low then
        low

    else if n > high then
        high

    else
        n



-- FUNCTIONS


identity : a -> a
identity x =
    x


always : a -> b -> a
always x _ =
    x


never : Never -> a
never (JustOneMore more) =
    never more



-- OPERATORS


apL : (a -> b) -> a -> b
apL f x =
    f x


apR : a -> (a -> b) -> b
apR x f =
    f x


composeL : (b -> c) -> (a -> b) -> a -> c
composeL g f x =
    g (f x)


composeR : (a -> b) -> (b -> c) -> a -> c
composeR f g x =
    g (f x)


or : Bool -> Bool -> Bool
or one other =
    one || other


and : Bool -> Bool -> Bool
and one other =
    one && other


eq : a -> a -> Bool
eq x y =
    x == y


neq : a -> a -> Bool
neq x y =
    x /= y


lt : comparable -> comparable -> Bool
lt x y =
    x < y


gt : comparable -> comparable -> Bool
gt x y =
    x > y


le : comparable -> comparable -> Bool
le x y =
    x <= y


ge : comparable -> comparable -> Bool
ge x y =
    x >= y


append : appendable -> appendable -> appendable
append x y =
    x ++ y


add : number -> number -> number
add m n =
    m + n


sub : number -> number -> number
sub m n =
    m - n


mul : number -> number -> number
mul m n =
    m * n


idiv : Int -> Int -> Int
idiv m n =
    m // n


-- A negative exponent is like a remainder by 0: no number.
pow : number -> number -> number
pow base exponent =
    if exponent < 0 then
        case remainderBy 0 1 of
            _ ->
                base

    else if exponent == 0 || base == 1 then
        1

    else if base == 0 then
        0

    else if base == -1 then
        if isOdd exponent then
            -1

        else
            1

    else
        multiply base exponent 1


-- the product of `product` and of `base` as often as `count` says
multiply : number -> number -> number -> number
multiply base count product =
    if count == 0 then
        product

    else
        multiply base (count - 1) (product * base)


-- of a number that is not negative
isOdd : number -> Bool
isOdd n =
    if n < 2 then
        n == 1

    else
        isOdd (n - highestDouble 2 n)


-- the last of `double`, twice `double` and so on that is not above n
highestDouble : number -> number -> number
highestDouble double n =
    if double > n - double then
        double

    else
        highestDouble (double + double) n



-- KNOWN TO THE COMPILER (a body here is never used)


modBy : Int -> Int -> Int
modBy divisor n =
    modBy divisor n


remainderBy : Int -> Int -> Int
remainderBy divisor n =
    remainderBy divisor n
"##;
