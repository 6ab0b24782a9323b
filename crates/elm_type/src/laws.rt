//! What holds of types and classes; and types, worked out.

ghost use Rattle.elm_type.specs.Classes.{MeetsBoth, AllowsSome};
ghost use Rattle.elm_type.specs.Rows.{RenamesBySubstitution};
ghost use Rattle.elm_type.specs.Examples.{Examples};

/// A type meets two classes exactly when it meets the one that `meet` gives; where it gives none, no type does.
pub fn meet_law()
    ensures { MeetsBoth }
{}

/// A type that meets a class has a head that the class allows. Each head that a class allows is that of such a type.
pub fn allows_law()
    ensures { AllowsSome }
{}

/// To put other variables in the place of variables is a substitution, where the fields of each record stand in order.
pub fn renaming_law<X, Y>()
    ensures { RenamesBySubstitution X Y }
{}

/// Types and classes.
pub fn examples()
    ensures { Examples }
{}
