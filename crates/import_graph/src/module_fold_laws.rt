//! Modules have one list of values, and three modules, worked out.

ghost use Rattle.import_graph.specs.Fold.{FoldsOnce};
ghost use Rattle.import_graph.specs.ModuleFoldExamples.{Numbered};

use crate::work::Work;

/// Modules have one list of values at most, where each makes one value at most of those of its imports.
pub fn once_law<W: Work>(_work: &W)
    ensures { FoldsOnce (W.makes _work.now) (W.graph _work.now) }
{}

/// The values of three modules.
pub fn examples()
    ensures { Numbered }
{}
