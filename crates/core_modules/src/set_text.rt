//! The module `Set`.

/// The text of `Set`.
pub const SET: &[u8] = br##"module Set exposing
    ( Set, empty, singleton, insert, remove
    , isEmpty, member, size, union, intersect, diff, toList, fromList
    , map, foldl, foldr, filter, partition
    )

-- (elm/core 1.0.5: Set.) A set is a dictionary with its values as keys.

import Basics exposing (Bool)
import Dict exposing (Dict)
import List


type Set t
    = Set (Dict t ())


empty : Set a
empty =
    Set Dict.empty


singleton : comparable -> Set comparable
singleton key =
    Set (Dict.singleton key ())


insert : comparable -> Set comparable -> Set comparable
insert key (Set dict) =
    Set (Dict.insert key () dict)


remove : comparable -> Set comparable -> Set comparable
remove key (Set dict) =
    Set (Dict.remove key dict)


isEmpty : Set a -> Bool
isEmpty (Set dict) =
    Dict.isEmpty dict


member : comparable -> Set comparable -> Bool
member key (Set dict) =
    Dict.member key dict


size : Set a -> Int
size (Set dict) =
    Dict.size dict


union : Set comparable -> Set comparable -> Set comparable
union (Set one) (Set other) =
    Set (Dict.union one other)


intersect : Set comparable -> Set comparable -> Set comparable
intersect (Set one) (Set other) =
    Set (Dict.intersect one other)


diff : Set comparable -> Set comparable -> Set comparable
diff (Set one) (Set without) =
    Set (Dict.diff one without)


toList : Set a -> List a
toList (Set dict) =
    Dict.keys dict


fromList : List comparable -> Set comparable
fromList keys =
    List.foldl insert empty keys


foldl : (a -> b -> b) -> b -> Set a -> b
foldl f state (Set dict) =
    Dict.foldl (\key _ folded -> f key folded) state dict


foldr : (a -> b -> b) -> b -> Set a -> b
foldr f state (Set dict) =
    Dict.foldr (\key _ folded -> f key folded) state dict


map : (comparable -> comparable2) -> Set comparable -> Set comparable2
map f set =
    foldl (\key mapped -> insert (f key) mapped) empty set


filter : (comparable -> Bool) -> Set comparable -> Set comparable
filter isGood (Set dict) =
    Set (Dict.filter (\key _ -> isGood key) dict)


partition : (comparable -> Bool) -> Set comparable -> ( Set comparable, Set comparable )
partition isGood (Set dict) =
    let
        ( good, bad ) =
            Dict.partition (\key _ -> isGood key) dict
    in
    ( Set good, Set bad )
"##;
