//! The module `Platform.Cmd`.

/// The text of `Platform.Cmd`.
pub const PLATFORM_CMD: &[u8] = br##"module Platform.Cmd exposing (Cmd, none, batch, map)

-- (elm/core 1.0.5: Platform.Cmd.) What an outgoing port makes is a `Send`, of the port's name and of what it sends.

import List


type Cmd msg
    = Send String Payload
    | Batch (List (Cmd msg))


-- of any type: no text makes or looks at one
type Payload
    = Payload


none : Cmd msg
none =
    Batch []


batch : List (Cmd msg) -> Cmd msg
batch commands =
    Batch commands


-- no command makes a message
map : (a -> msg) -> Cmd a -> Cmd msg
map f command =
    case command of
        Send name payload ->
            Send name payload

        Batch commands ->
            Batch (List.map (map f) commands)
"##;
