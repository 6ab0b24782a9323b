//! Imports that are written, beside what their modules show.

use canon_env::import::Import;
use canon_env::shown::Shown;
use elm_tree::tree;

/// An import that is written, what it says, and what its module shows.
#[derive(Drop)]
pub(crate) struct Seen<'a> {
    pub written: &'a tree::Import,
    pub import: Import,
    pub shown: Shown,
}
