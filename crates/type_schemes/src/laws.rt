//! The walk of an annotated definition.

ghost use Rattle.type_schemes.specs.Laws.{Closes, OpensNone, IsNew, OpensOneMore, StaysOwn, HoldsOwn};
ghost use Rattle.type_schemes.specs.Laws.{LoosensNone, MayLoosen, LoosensOneMore, LoosensAll};

use type_store::laws::choice_law;

/// Where the body of an annotated definition was walked with variables for its constants, and these were let go, the
/// definition was walked.
pub fn scope_law()
    ensures { Closes }
{
    choice_law()
}

/// The constants of a definition are made one after another.
pub fn open_law()
    ensures none { OpensNone }
    ensures new { IsNew }
    ensures more { OpensOneMore }
{}

/// After the walk of the body its constants are still held, each by one variable.
pub fn own_law()
    ensures stays { StaysOwn }
    ensures holds { HoldsOwn }
{
    choice_law()
}

/// The constants of a definition are let go one after another.
pub fn loosen_law()
    ensures none { LoosensNone }
    ensures may { MayLoosen }
    ensures more { LoosensOneMore }
    ensures all { LoosensAll }
{
    choice_law()
}
