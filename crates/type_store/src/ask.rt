//! What is asked of type variables.

use elm_base::names::Name;
use elm_type::class::Class;

/// What is asked of variables.
#[derive(Drop)]
pub enum Ask {
    /// The two have the same type.
    Same(u32, u32),
    /// The type of the variable meets the class.
    InClass(u32, Class),
    /// The type of the variable is a record without the field.
    Lacks(u32, Name),
}
