//! The module `Platform.Sub`.

/// The text of `Platform.Sub`.
pub const PLATFORM_SUB: &[u8] = br##"module Platform.Sub exposing (Sub, none, batch, map)

-- (elm/core 1.0.5: Platform.Sub.) What an incoming port makes is a `Listen`, of the port's name and of the function
-- that makes a message of what comes in.

import List


type Sub msg
    = Listen String (Payload -> msg)
    | Batch (List (Sub msg))


-- of any type: no text makes or looks at one
type Payload
    = Payload


none : Sub msg
none =
    Batch []


batch : List (Sub msg) -> Sub msg
batch subscriptions =
    Batch subscriptions


map : (a -> msg) -> Sub a -> Sub msg
map f subscription =
    case subscription of
        Listen name toMessage ->
            Listen name (\payload -> f (toMessage payload))

        Batch subscriptions ->
            Batch (List.map (map f) subscriptions)
"##;
