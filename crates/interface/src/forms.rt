//! The bytes of what an interface has. A call that puts adds the bytes of a value. A call that reads takes the value
//! that the input begins with.

pub(crate) mod declarations;
pub(crate) mod lists;
pub(crate) mod parts;
pub(crate) mod steps;
pub(crate) mod types;
