//! Types that are written, as variables of a store: their instances, and uses of the names that have them.
#![tactic(auto)]

mod arrows;
pub mod asking;
pub mod declaring;
pub mod fixing;
pub mod instances;
pub mod names;
pub mod own;
mod stack;
pub mod top;
pub mod writing;
