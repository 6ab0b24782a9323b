//! What holds of the graph of any project.

ghost use Rattle.std.specs.Prelude.{◌≡◌, ℕ, List, []};
ghost use Rattle.elm_base.specs.declared.fault.Fault.{Fault};
ghost use Rattle.import_graph.specs.Order.{IsOrder};
ghost use Rattle.import_graph.specs.Modules.{Setting, Module};
ghost use Rattle.import_graph.specs.ModuleGraphExamples.{Uses, Ring, Entry, Absolute};
ghost use Rattle.import_graph.specs.Faults.{IsRefused};
ghost use Rattle.import_graph.specs.Graph.{AreModules, uses_of};
ghost use Rattle.import_graph.specs.Laws.{IsDetermined};

use crate::Reader;

/// An entry has one list of modules, or is refused for one fault, and not both, where a text imports one list of names.
/// (`import_graph` has the law that modules have one order.)
pub fn graph_law<R: Reader>()
    ensures one_list { IsDetermined R.has_imports → (s : Setting) (written : List ℕ) (ms others : List Module)
        → AreModules R.has_imports s written ms → AreModules R.has_imports s written others → ms ≡ others }
    ensures one_fault { IsDetermined R.has_imports → (s : Setting) (written : List ℕ) (fault other : Fault)
        → IsRefused R.has_imports s written fault → IsRefused R.has_imports s written other → fault ≡ other }
    ensures not_both { IsDetermined R.has_imports → (s : Setting) (written : List ℕ) (ms : List Module)
        (order : List ℕ) (fault : Fault) → AreModules R.has_imports s written ms → IsOrder (uses_of ms) [] order
        → IsRefused R.has_imports s written fault → ⊥ }
{}

/// The numbers and the faults of small projects.
pub fn examples()
    ensures uses { Uses }
    ensures ring { Ring }
    ensures entry { Entry }
    ensures absolute { Absolute }
{}
