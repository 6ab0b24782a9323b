//! The module `Dict`.

/// The text of `Dict`, part 1 of 2.
pub const DICT_1: &[u8] = br##"module Dict exposing
    ( Dict, empty, singleton, insert, update, remove
    , isEmpty, member, get, size, keys, values, toList, fromList
    , map, foldl, foldr, filter, partition, union, intersect, diff, merge
    )

-- (elm/core 1.0.5: Dict.) A dictionary is a red-black tree: its keys rise from left to right, each way from the top to
-- an `Empty` passes the same number of black nodes, no red node is directly below a red one, and the top is black.
--
-- The module List stands on this one, so this one does not import it.

import Basics exposing (Bool(..))
import Maybe exposing (Maybe(..))


type Dict k v
    = Node Color k v (Dict k v) (Dict k v)
    | Empty


type Color
    = Red
    | Black



-- QUERY


isEmpty : Dict k v -> Bool
isEmpty dict =
    case dict of
        Empty ->
            True

        Node _ _ _ _ _ ->
            False


get : comparable -> Dict comparable v -> Maybe v
get wanted dict =
    case dict of
        Empty ->
            Nothing

        Node _ key value left right ->
            if wanted < key then
                get wanted left

            else if wanted > key then
                get wanted right

            else
                Just value


member : comparable -> Dict comparable v -> Bool
member wanted dict =
    case dict of
        Empty ->
            False

        Node _ key _ left right ->
            if wanted < key then
                member wanted left

            else if wanted > key then
                member wanted right

            else
                True


size : Dict k v -> Int
size dict =
    sizeAnd 0 dict


sizeAnd : Int -> Dict k v -> Int
sizeAnd count dict =
    case dict of
        Empty ->
            count

        Node _ _ _ left right ->
            sizeAnd (sizeAnd count right + 1) left



-- BUILD


empty : Dict k v
empty =
    Empty


singleton : comparable -> v -> Dict comparable v
singleton key value =
    Node Black key value Empty Empty


insert : comparable -> v -> Dict comparable v -> Dict comparable v
insert key value dict =
    paint Black (insertBelow key value dict)


update : comparable -> (Maybe v -> Maybe v) -> Dict comparable v -> Dict comparable v
update key change dict =
    case change (get key dict) of
        Just value ->
            insert key value dict

        Nothing ->
            remove key dict


remove : comparable -> Dict comparable v -> Dict comparable v
remove key dict =
    paint Black (removeBelow key dict)


paint : Color -> Dict k v -> Dict k v
paint color dict =
    case dict of
        Node _ key value left right ->
            Node color key value left right

        Empty ->
            Empty


-- The top of the result may be red above one red node, where the top of `dict` is red.
insertBelow : comparable -> v -> Dict comparable v -> Dict comparable v
insertBelow newKey newValue dict =
    case dict of
        Empty ->
            Node Red newKey newValue Empty Empty

        Node Black key value left right ->
            if newKey < key then
                blackLeft key value (insertBelow newKey newValue left) right

            else if newKey > key then
                blackRight key value left (insertBelow newKey newValue right)

            else
                Node Black key newValue left right

        Node Red key value left right ->
            if newKey < key then
                Node Red key value (insertBelow newKey newValue left) right

            else if newKey > key then
                Node Red key value left (insertBelow newKey newValue right)

            else
                Node Red key newValue left right


-- A black node whose left part may be red above one red node: then a red node above two black ones.
blackLeft : k -> v -> Dict k v -> Dict k v -> Dict k v
blackLeft key value left right =
    case left of
        Node Red leftKey leftValue (Node Red lowKey lowValue a b) c ->
            Node Red leftKey leftValue (Node Black lowKey lowValue a b) (Node Black key value c right)

        Node Red leftKey leftValue a (Node Red midKey midValue b c) ->
            Node Red midKey midValue (Node Black leftKey leftValue a b) (Node Black key value c right)

        _ ->
            Node Black key value left right


-- A black node whose right part may be red above one red node.
blackRight : k -> v -> Dict k v -> Dict k v -> Dict k v
blackRight key value left right =
    case right of
        Node Red rightKey rightValue a (Node Red highKey highValue b c) ->
            Node Red rightKey rightValue (Node Black key value left a) (Node Black highKey highValue b c)

        Node Red rightKey rightValue (Node Red midKey midValue a b) c ->
            Node Red midKey midValue (Node Black key value left a) (Node Black rightKey rightValue b c)

        _ ->
            Node Black key value left right


-- Where the top of `dict` is black, each way through the result passes one black node less, and the top of the result
-- may be red above one red node. `oldKey` need not be there.
removeBelow : comparable -> Dict comparable v -> Dict comparable v
removeBelow oldKey dict =
    case dict of
        Empty ->
            Empty

        Node _ key value left right ->
            if oldKey < key then
                case left of
                    Node Black _ _ _ _ ->
                        shortLeft key value (removeBelow oldKey left) right

                    _ ->
                        Node Red key value (removeBelow oldKey left) right

            else if oldKey > key then
                case right of
                    Node Black _ _ _ _ ->
                        shortRight key value left (removeBelow oldKey right)

                    _ ->
                        Node Red key value left (removeBelow oldKey right)

            else
                join left right


-- A node whose left part passes one black node less than the right one.
shortLeft : k -> v -> Dict k v -> Dict k v -> Dict k v
shortLeft key value left right =
    case left of
        Node Red leftKey leftValue a b ->
            Node Red key value (Node Black leftKey leftValue a b) right

        _ ->
            case right of
                Node Black rightKey rightValue a b ->
                    blackRight key value left (Node Red rightKey rightValue a b)

                Node Red rightKey rightValue (Node Black midKey midValue a b) c ->
                    Node Red
                        midKey
                        midValue
                        (Node Black key value left a)
                        (blackRight rightKey rightValue b (paint Red c))

                _ ->
                    Node Red key value left right


-- A node whose right part passes one black node less than the left one.
shortRight : k -> v -> Dict k v -> Dict k v -> Dict k v
shortRight key value left right =
    case right of
        Node Red rightKey rightValue a b ->
            Node Red key value left (Node Black rightKey rightValue a b)

        _ ->
            case left of
                Node Black leftKey leftValue a b ->
                    blackLeft key value (Node Red leftKey leftValue a b) right

                Node Red leftKey leftValue a (Node Black midKey midValue b c) ->
                    Node Red
                        midKey
                        midValue
                        (blackLeft leftKey leftValue (paint Red a) b)
                        (Node Black key value c right)

                _ ->
                    Node Red key value left right


"##;

/// The text of `Dict`, part 2 of 2.
pub const DICT_2: &[u8] =
    br##"-- The pairs of two parts that pass the same number of black nodes, the keys of the first below those of the second.
join : Dict k v -> Dict k v -> Dict k v
join left right =
    case left of
        Empty ->
            right

        Node leftColor leftKey leftValue a b ->
            case right of
                Empty ->
                    left

                Node rightColor rightKey rightValue c d ->
                    case leftColor of
                        Red ->
                            case rightColor of
                                Red ->
                                    joinRed leftKey leftValue a (join b c) rightKey rightValue d

                                Black ->
                                    Node Red leftKey leftValue a (join b right)

                        Black ->
                            case rightColor of
                                Red ->
                                    Node Red rightKey rightValue (join left c) d

                                Black ->
                                    joinBlack leftKey leftValue a (join b c) rightKey rightValue d


joinRed : k -> v -> Dict k v -> Dict k v -> k -> v -> Dict k v -> Dict k v
joinRed leftKey leftValue left middle rightKey rightValue right =
    case middle of
        Node Red key value a b ->
            Node Red key value (Node Red leftKey leftValue left a) (Node Red rightKey rightValue b right)

        _ ->
            Node Red leftKey leftValue left (Node Red rightKey rightValue middle right)


joinBlack : k -> v -> Dict k v -> Dict k v -> k -> v -> Dict k v -> Dict k v
joinBlack leftKey leftValue left middle rightKey rightValue right =
    case middle of
        Node Red key value a b ->
            Node Red key value (Node Black leftKey leftValue left a) (Node Black rightKey rightValue b right)

        _ ->
            shortLeft leftKey leftValue left (Node Black rightKey rightValue middle right)



-- LISTS


keys : Dict k v -> List k
keys dict =
    foldr (\key _ rest -> key :: rest) [] dict


values : Dict k v -> List v
values dict =
    foldr (\_ value rest -> value :: rest) [] dict


toList : Dict k v -> List ( k, v )
toList dict =
    toListBefore [] dict


-- the pairs of `dict`, before `rest`
toListBefore : List ( k, v ) -> Dict k v -> List ( k, v )
toListBefore rest dict =
    case dict of
        Empty ->
            rest

        Node _ key value left right ->
            toListBefore (( key, value ) :: toListBefore rest right) left


fromList : List ( comparable, v ) -> Dict comparable v
fromList pairs =
    insertAll pairs empty


insertAll : List ( comparable, v ) -> Dict comparable v -> Dict comparable v
insertAll pairs dict =
    case pairs of
        [] ->
            dict

        ( key, value ) :: rest ->
            insertAll rest (insert key value dict)



-- TRANSFORM


map : (k -> a -> b) -> Dict k a -> Dict k b
map f dict =
    case dict of
        Empty ->
            Empty

        Node color key value left right ->
            Node color key (f key value) (map f left) (map f right)


foldl : (k -> v -> b -> b) -> b -> Dict k v -> b
foldl f state dict =
    case dict of
        Empty ->
            state

        Node _ key value left right ->
            foldl f (f key value (foldl f state left)) right


foldr : (k -> v -> b -> b) -> b -> Dict k v -> b
foldr f state dict =
    case dict of
        Empty ->
            state

        Node _ key value left right ->
            foldr f (f key value (foldr f state right)) left


filter : (comparable -> v -> Bool) -> Dict comparable v -> Dict comparable v
filter isGood dict =
    foldl
        (\key value good ->
            if isGood key value then
                insert key value good

            else
                good
        )
        empty
        dict


partition : (comparable -> v -> Bool) -> Dict comparable v -> ( Dict comparable v, Dict comparable v )
partition isGood dict =
    foldl
        (\key value ( good, bad ) ->
            if isGood key value then
                ( insert key value good, bad )

            else
                ( good, insert key value bad )
        )
        ( empty, empty )
        dict



-- COMBINE


union : Dict comparable v -> Dict comparable v -> Dict comparable v
union preferred other =
    foldl insert other preferred


intersect : Dict comparable v -> Dict comparable v -> Dict comparable v
intersect preferred other =
    filter (\key _ -> member key other) preferred


diff : Dict comparable a -> Dict comparable b -> Dict comparable a
diff dict without =
    foldl (\key _ rest -> remove key rest) dict without


merge :
    (comparable -> a -> result -> result)
    -> (comparable -> a -> b -> result -> result)
    -> (comparable -> b -> result -> result)
    -> Dict comparable a
    -> Dict comparable b
    -> result
    -> result
merge onLeft onBoth onRight left right result =
    mergeLists onLeft onBoth onRight (toList left) (toList right) result


mergeLists :
    (comparable -> a -> result -> result)
    -> (comparable -> a -> b -> result -> result)
    -> (comparable -> b -> result -> result)
    -> List ( comparable, a )
    -> List ( comparable, b )
    -> result
    -> result
mergeLists onLeft onBoth onRight lefts rights result =
    case lefts of
        [] ->
            case rights of
                [] ->
                    result

                ( rightKey, rightValue ) :: afterRight ->
                    mergeLists onLeft onBoth onRight lefts afterRight (onRight rightKey rightValue result)

        ( leftKey, leftValue ) :: afterLeft ->
            case rights of
                [] ->
                    mergeLists onLeft onBoth onRight afterLeft rights (onLeft leftKey leftValue result)

                ( rightKey, rightValue ) :: afterRight ->
                    if leftKey < rightKey then
                        mergeLists onLeft onBoth onRight afterLeft rights (onLeft leftKey leftValue result)

                    else if leftKey > rightKey then
                        mergeLists onLeft onBoth onRight lefts afterRight (onRight rightKey rightValue result)

                    else
                        mergeLists
                            onLeft
                            onBoth
                            onRight
                            afterLeft
                            afterRight
                            (onBoth leftKey leftValue rightValue result)
"##;
