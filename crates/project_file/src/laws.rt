//! What holds of paths, and small files worked out.

ghost use Rattle.std.specs.Prelude.{◌≡◌, ◌↔◌, ℕ, List, Some};
ghost use Rattle.project_file.specs.Paths.{below, inside};
ghost use Rattle.project_file.specs.Examples.{Normal, Below, NotBelow, OfModule, Once, OfFolder, NoVersion};
ghost use Rattle.project_file.specs.Examples.{WrongVersion, VersionNoText, OtherType, NoType, Absolute, NoDirectories};
ghost use Rattle.project_file.specs.Examples.{NoText, NoObject, Unread};

/// A path stands below a folder exactly when it is the path of something inside the folder.
pub fn below_law()
    ensures { (folder path rest : List ℕ) → (below folder path ≡ Some rest) ↔ (path ≡ inside folder rest) }
{}

/// Paths and files, worked out.
pub fn examples()
    ensures normal { Normal }
    ensures below { Below }
    ensures not_below { NotBelow }
    ensures of_module { OfModule }
    ensures once { Once }
    ensures of_folder { OfFolder }
    ensures no_version { NoVersion }
    ensures wrong_version { WrongVersion }
    ensures version_no_text { VersionNoText }
    ensures other_type { OtherType }
    ensures no_type { NoType }
    ensures absolute { Absolute }
    ensures no_directories { NoDirectories }
    ensures no_text { NoText }
    ensures no_object { NoObject }
    ensures unread { Unread }
{}
