//! The module `Maybe`.

/// The text of `Maybe`.
pub const MAYBE: &[u8] =
    br##"module Maybe exposing (Maybe(..), andThen, map, map2, map3, map4, map5, withDefault)

-- (elm/core 1.0.5: Maybe.)


type Maybe a
    = Just a
    | Nothing


withDefault : a -> Maybe a -> a
withDefault default maybe =
    case maybe of
        Just value ->
            value

        Nothing ->
            default


andThen : (a -> Maybe b) -> Maybe a -> Maybe b
andThen next maybe =
    case maybe of
        Just value ->
            next value

        Nothing ->
            Nothing


map : (a -> b) -> Maybe a -> Maybe b
map f maybe =
    case maybe of
        Just value ->
            Just (f value)

        Nothing ->
            Nothing


map2 : (a -> b -> value) -> Maybe a -> Maybe b -> Maybe value
map2 f ma mb =
    case ma of
        Just a ->
            case mb of
                Just b ->
                    Just (f a b)

                Nothing ->
                    Nothing

        Nothing ->
            Nothing


map3 : (a -> b -> c -> value) -> Maybe a -> Maybe b -> Maybe c -> Maybe value
map3 f ma mb mc =
    case ma of
        Just a ->
            map2 (\b c -> f a b c) mb mc

        Nothing ->
            Nothing


map4 : (a -> b -> c -> d -> value) -> Maybe a -> Maybe b -> Maybe c -> Maybe d -> Maybe value
map4 f ma mb mc md =
    case ma of
        Just a ->
            map3 (\b c d -> f a b c d) mb mc md

        Nothing ->
            Nothing


map5 :
    (a -> b -> c -> d -> e -> value)
    -> Maybe a
    -> Maybe b
    -> Maybe c
    -> Maybe d
    -> Maybe e
    -> Maybe value
map5 f ma mb mc md me =
    case ma of
        Just a ->
            map4 (\b c d e -> f a b c d e) mb mc md me

        Nothing ->
            Nothing
"##;
