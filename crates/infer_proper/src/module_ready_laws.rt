//! Modules that are compiled where everything is sound.

ghost use Rattle.std.specs.Prelude.{◌≡◌, ℕ, ◌<◌, ◌^◌, List, length, true};
ghost use Rattle.elm_tree.specs.Tree as tree;
ghost use Rattle.elm_canon.specs.Tree as canon;
ghost use Rattle.elm_canon.specs.Spelled.{is_module};
ghost use Rattle.canon_module.specs.Resolve.{module_shows};
ghost use Rattle.module_proper.specs.Modules.{AreRead};
ghost use Rattle.module_proper.specs.Records.{ImportsHaveRecords};
ghost use Rattle.type_items.specs.Inferred.{Schemes};
ghost use Rattle.infer_steps.specs.Ready.{AreWritten};
ghost use Rattle.infer.specs.Modules.{CanInfer};
ghost use Rattle.infer.specs.Modules.{SchemesWritten};
ghost use Rattle.module_offers.specs.Offers.{Interfaces, known_by, module_interface};
ghost use Rattle.module_made.specs.Around.{Around, home_of, setting_of};
ghost use Rattle.module_made.specs.Made.{IsNamed};
ghost use Rattle.infer_proper.specs.Sound.{AreSound, IsSound, SoundInterface};

use crate::annotation_proper_laws as annotations;
use crate::infer_ready_laws::can_infer_law;

/// A module in whose names no fault was found, compiled where everything is sound, can be inferred. Its name is the
/// name of a module, its declarations are as a text of few bytes guarantees, and the aliases that its imports show
/// stand for types whose records have words for fields, each once. What inference knows of the imports can be written
/// into a store.
pub fn ready_law()
    ensures named { (a : Around) (text : List ℕ) (t : tree.Module) (m : canon.Module) → IsNamed a text t m
        → length text < 2 ^ 32 → is_module true (home_of a) ≡ true }
    ensures read { (a : Around) (text : List ℕ) (t : tree.Module) (m : canon.Module) → IsNamed a text t m
        → length text < 2 ^ 32 → AreRead (home_of a) t.declarations }
    ensures imports { (a : Around) (t : tree.Module) → IsSound a → ImportsHaveRecords (setting_of a t).imports }
    ensures inferable { (a : Around) (text : List ℕ) (t : tree.Module) (m : canon.Module) → IsSound a
        → IsNamed a text t m → length text < 2 ^ 32 → CanInfer m }
    ensures written { (interfaces : Interfaces) → AreSound interfaces → AreWritten (known_by interfaces) }
{
    can_infer_law()
}

/// What a module offers in whose names no fault was found is sound, with the types that inference told, where all that
/// it is compiled in is sound.
pub fn offer_law()
    ensures { (a : Around) (text : List ℕ) (t : tree.Module) (m : canon.Module) (told : Schemes) → IsSound a
        → IsNamed a text t m → length text < 2 ^ 32 → SchemesWritten told
        → SoundInterface (home_of a) (module_interface (module_shows (setting_of a t) t m) m told) }
{
    annotations::module_law()
}
