//! Modules that take part in a link.

use crate::fragment::Fragment;
use elm_base::names::Name;

/// A module that takes part in a link.
#[derive(Drop)]
pub struct Part<'a> {
    /// Its name, with its dots.
    pub name: Name,
    /// The path of its file, with which its faults are reported.
    pub path: String,
    pub fragment: &'a Fragment,
}
