//! Which branch of a `case` a value takes, as a tree of tests.
//!
//! A row of patterns stands in a tree below for each constructor of a column for which it asks nothing there. So where
//! no row has `_` before a constructor, the tree is as large as the patterns. Otherwise it grows with the product of
//! the numbers of constructors of the columns that a row leaves open, which is exponential at worst, as the tree itself
//! is defined. No path through it has more tests than the patterns have constructors and literals. It is made with a
//! stack of its own, and not by calls in each other, so that its depth does not matter.
#![tactic(auto)]

pub mod bound;
pub mod choice;
pub mod parameters;
mod part;
mod path;
mod row;
mod split;
mod test;
mod vectors;
