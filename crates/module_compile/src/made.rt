//! What a module compiles to.

use crate::Offered;
use elm_base::fault::Fault;
use link::fragment::Fragment;
use std::alloc::Global;
use std::sync::Arc;

/// What a module compiles to.
#[derive(Drop)]
pub enum Made {
    /// What it offers to those that import it, and what a link needs to know of it.
    Good(Arc<Offered, Global>, Fragment),
    /// The faults of the first phase that has any.
    Bad(Vec<Fault>),
}
