//! What is frozen can be copied.

ghost use Rattle.type_schemes.specs.TypeFreezingLaws.{FrozenIsLive, FrozenCanCopy, CanCopyLater};

/// What is frozen can be copied, there and in each later store, and the variables of the store that it has are in use.
pub fn frozen_law()
    ensures live { FrozenIsLive }
    ensures can { FrozenCanCopy }
    ensures later { CanCopyLater }
{}
