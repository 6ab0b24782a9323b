//! What small programs ask, and what inference tells of them.

ghost use Rattle.type_examples.specs.ItemExamples.{FieldOfRecord, Copies, TakenApart, Annotated, Next, ByAnnotation};
ghost use Rattle.type_examples.specs.ItemExamples.{InScope, Updated, BothClasses, Branches};
ghost use Rattle.type_examples.specs.InferredExamples.{PairsType, NextType, UpdatedType, BothClassesType, NotEveryType};
ghost use Rattle.type_examples.specs.InferredExamples.{OneTypeAlone, NoSuchField};

/// What small programs ask: an access to a field, a name that is used at two types, names that are taken apart,
/// annotations, annotations inside annotations, the update of a record, operators, and a `case`.
pub fn item_examples()
    ensures field_of_record { FieldOfRecord }
    ensures copies { Copies }
    ensures taken_apart { TakenApart }
    ensures annotated { Annotated }
    ensures next { Next }
    ensures by_annotation { ByAnnotation }
    ensures in_scope { InScope }
    ensures updated { Updated }
    ensures both_classes { BothClasses }
    ensures branches { Branches }
{}

/// The first bad item of a definition that has not every type that its annotation promises.
pub fn first_bad_example()
    ensures { NotEveryType }
{}

/// The first bad item of a function that uses its parameter at two types.
pub fn one_type_example()
    ensures { OneTypeAlone }
{}

/// The principal type of a function whose parameters have two classes.
pub fn both_classes_example()
    ensures { BothClassesType }
{}

/// The principal type of a function that updates a field of a record.
pub fn updated_example()
    ensures { UpdatedType }
{}

/// The first bad item of an access to a field that a record has not.
pub fn no_field_example()
    ensures { NoSuchField }
{}

/// A definition that keeps what its annotation promises.
pub fn annotated_example()
    ensures { NextType }
{}

/// A name of a `let` that is used at two types.
pub fn pairs_example()
    ensures { PairsType }
{}
