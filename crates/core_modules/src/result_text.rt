//! The module `Result`.

/// The text of `Result`.
pub const RESULT: &[u8] = br##"module Result exposing
    ( Result(..), andThen, map, map2, map3, map4, map5
    , withDefault, toMaybe, fromMaybe, mapError
    )

-- (elm/core 1.0.5: Result.) Of several errors the first one is the result.

import Maybe exposing (Maybe(..))


type Result error value
    = Ok value
    | Err error


withDefault : a -> Result x a -> a
withDefault default result =
    case result of
        Ok value ->
            value

        Err _ ->
            default


map : (a -> value) -> Result x a -> Result x value
map f ra =
    case ra of
        Ok a ->
            Ok (f a)

        Err error ->
            Err error


map2 : (a -> b -> value) -> Result x a -> Result x b -> Result x value
map2 f ra rb =
    case ra of
        Ok a ->
            map (\b -> f a b) rb

        Err error ->
            Err error


map3 : (a -> b -> c -> value) -> Result x a -> Result x b -> Result x c -> Result x value
map3 f ra rb rc =
    case ra of
        Ok a ->
            map2 (\b c -> f a b c) rb rc

        Err error ->
            Err error


map4 :
    (a -> b -> c -> d -> value)
    -> Result x a
    -> Result x b
    -> Result x c
    -> Result x d
    -> Result x value
map4 f ra rb rc rd =
    case ra of
        Ok a ->
            map3 (\b c d -> f a b c d) rb rc rd

        Err error ->
            Err error


map5 :
    (a -> b -> c -> d -> e -> value)
    -> Result x a
    -> Result x b
    -> Result x c
    -> Result x d
    -> Result x e
    -> Result x value
map5 f ra rb rc rd re =
    case ra of
        Ok a ->
            map4 (\b c d e -> f a b c d e) rb rc rd re

        Err error ->
            Err error


andThen : (a -> Result x b) -> Result x a -> Result x b
andThen next result =
    case result of
        Ok value ->
            next value

        Err error ->
            Err error


mapError : (x -> y) -> Result x a -> Result y a
mapError f result =
    case result of
        Ok value ->
            Ok value

        Err error ->
            Err (f error)


toMaybe : Result x a -> Maybe a
toMaybe result =
    case result of
        Ok value ->
            Just value

        Err _ ->
            Nothing


fromMaybe : x -> Maybe a -> Result x a
fromMaybe error maybe =
    case maybe of
        Just value ->
            Ok value

        Nothing ->
            Err error
"##;
