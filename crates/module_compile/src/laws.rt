//! What a module is compiled in is sound.

ghost use Rattle.infer_proper.specs.Sound.{IsSound};
ghost use Rattle.module_compile.specs.ModulePhasesView.{around_view};
ghost use Rattle.module_compile.specs.declared.imports.Imports.{Imports};

/// What a module is compiled in is sound.
#[tactic(auto, unfolding(crate::specs::ModulePhasesView::around_view))]
pub fn sound_law()
    ensures { (i : Imports) → IsSound (around_view i) }
{}
