//! Values that a module offers.

use elm_base::names::Name;
use elm_type::scheme::Scheme;

/// A value that a module offers, or a port.
#[derive(Drop)]
pub struct Value {
    pub name: Name,
    /// How many parameters the definition writes.
    pub parameters: usize,
    pub scheme: Scheme,
}
