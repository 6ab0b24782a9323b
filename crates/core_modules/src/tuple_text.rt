//! The module `Tuple`.

/// The text of `Tuple`.
pub const TUPLE: &[u8] =
    br##"module Tuple exposing (pair, first, second, mapFirst, mapSecond, mapBoth)

-- (elm/core 1.0.5: Tuple.)


pair : a -> b -> ( a, b )
pair x y =
    ( x, y )


first : ( a, b ) -> a
first ( x, _ ) =
    x


second : ( a, b ) -> b
second ( _, y ) =
    y


mapFirst : (a -> x) -> ( a, b ) -> ( x, b )
mapFirst f ( x, y ) =
    ( f x, y )


mapSecond : (b -> y) -> ( a, b ) -> ( a, y )
mapSecond g ( x, y ) =
    ( x, g y )


mapBoth : (a -> x) -> (b -> y) -> ( a, b ) -> ( x, y )
mapBoth f g ( x, y ) =
    ( f x, g y )
"##;
