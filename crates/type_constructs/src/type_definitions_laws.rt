//! The walk of each definition and of groups of them, from the walks of their parts.

ghost use Rattle.type_constructs.specs.Groups.{WalksSmall, WalksDestructure, WalksNoMember, WalksOneMember};
ghost use Rattle.type_constructs.specs.Groups.{WalksGroup, ClosesGroup, SaysGroup, WalksNoGroup, WalksOneGroup};
ghost use Rattle.type_constructs.specs.Groups.{ScopeAfterOneGroup};
ghost use Rattle.type_constructs.specs.TypeDefinitionsAnnotated.{ClosesAnnotated};

use type_store::laws::choice_law;

/// The members of a group are walked in turn, and each asks for the size of its type.
pub fn member_law()
    ensures small { WalksSmall }
    ensures destructure { WalksDestructure }
    ensures none { WalksNoMember }
    ensures one_more { WalksOneMember }
{}

/// A group is walked where its members are, one definition deeper; and what is frozen of it says what its uses list.
pub fn group_law()
    ensures walks { WalksGroup }
    ensures closes { ClosesGroup }
    ensures says { SaysGroup }
{
    choice_law()
}

/// A definition with an annotation is walked where its body is, with variables for its constants.
pub fn annotated_law()
    ensures { ClosesAnnotated }
{
    choice_law()
}

/// Groups are walked in turn, each in the scope after those before it.
pub fn groups_law()
    ensures none { WalksNoGroup }
    ensures one_more { WalksOneGroup }
    ensures scope { ScopeAfterOneGroup }
{}
