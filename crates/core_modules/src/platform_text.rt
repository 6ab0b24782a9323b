//! The module `Platform`.

/// The text of `Platform`.
pub const PLATFORM: &[u8] = br##"module Platform exposing (Program, worker)

-- (elm/core 1.0.5: Platform.)

import Platform.Cmd exposing (Cmd)
import Platform.Sub exposing (Sub)


type Program flags model msg
    = Program
        { init : flags -> ( model, Cmd msg )
        , update : msg -> model -> ( model, Cmd msg )
        , subscriptions : model -> Sub msg
        }


worker :
    { init : flags -> ( model, Cmd msg )
    , update : msg -> model -> ( model, Cmd msg )
    , subscriptions : model -> Sub msg
    }
    -> Program flags model msg
worker program =
    Program program
"##;
