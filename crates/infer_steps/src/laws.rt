//! What stays of a scope and of a setting, and what becomes of them.

ghost use Rattle.infer_steps.specs.Promises.{Walked, Stopped, Matched, MatchStopped};
ghost use Rattle.infer_steps.specs.Laws.{FollowsItself, FollowsOn, ReadyLater, MeansLater, SettingLater, SettingLinks};
ghost use Rattle.infer_steps.specs.Laws.{AroundChild, SettingChild, ReadyEnters, ReadyConstant, EntersOne, EntersMany};
ghost use Rattle.infer_steps.specs.Laws.{EntersEach, EntersConstant, SettingBinds, ReadyBinds};

use type_store::laws::choice_law;
use type_walks::type_copies_laws::saying_law;

/// A later state of a later state is a later state.
pub fn following_law()
    ensures itself { FollowsItself }
    ensures on { FollowsOn }
    ensures ready { ReadyLater }
{
    choice_law()
}

/// A scope stands in later states for what it stood for, with more links, and at children of the place.
pub fn setting_law()
    ensures means { MeansLater }
    ensures later { SettingLater }
    ensures links { SettingLinks }
    ensures around { AroundChild }
    ensures child { SettingChild }
{
    saying_law()
}

/// With a name more a scope can be used where it could.
pub fn entering_law()
    ensures names { ReadyEnters }
    ensures constants { ReadyConstant }
    ensures bound { ReadyBinds }
{}

/// With a name more a scope stands for one with that name.
pub fn scope_law()
    ensures one { EntersOne }
    ensures many { EntersMany }
    ensures each { EntersEach }
    ensures constant { EntersConstant }
    ensures bound { SettingBinds }
{
    saying_law()
}
