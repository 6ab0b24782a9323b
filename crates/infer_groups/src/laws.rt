//! How the walks of definitions are put together.

ghost use Rattle.infer_groups.specs.Laws.{MembersOpen, MemberGoesOn, MemberStops, MemberIsLarge, MembersEnd};
ghost use Rattle.infer_groups.specs.Laws.{GroupCloses, PatternIsDone};
ghost use Rattle.infer_groups.specs.Lets.{DefinesNone, DefinesOneMore, DefinesAll, StopsAtNames, StopsAtGroup};
ghost use Rattle.infer_groups.specs.Lets.{LetIsWalked, LetStops, BodyStops};

use type_store::laws::choice_law;
use type_walks::told_types_laws::principal_law;
use type_walks::type_copies_laws::saying_law;

/// The members of a type group are walked in turn.
pub fn members_law()
    ensures open { MembersOpen }
    ensures on { MemberGoesOn }
    ensures stops { MemberStops }
    ensures large { MemberIsLarge }
    ensures end { MembersEnd }
{
    principal_law();
    saying_law();
    choice_law()
}

/// A type group that is one pattern with its value is walked where these are.
pub fn pattern_law()
    ensures { PatternIsDone }
{
    principal_law();
    saying_law();
    choice_law()
}

/// A type group whose members were walked is closed.
pub fn closing_law()
    ensures { GroupCloses }
{
    saying_law();
    choice_law()
}

/// The definitions of a let are walked one type group after another.
pub fn groups_law()
    ensures none { DefinesNone }
    ensures more { DefinesOneMore }
    ensures all { DefinesAll }
    ensures names { StopsAtNames }
    ensures group { StopsAtGroup }
{}

/// A let is walked where its definitions are, and its body in their scope.
pub fn let_law()
    ensures walked { LetIsWalked }
    ensures stops { LetStops }
    ensures body { BodyStops }
{}
