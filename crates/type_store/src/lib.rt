//! A store of type variables: which types they may have.
#![tactic(auto)]

mod add;
mod alike;
pub mod ask;
mod asking;
mod build;
mod chain;
mod change;
mod changed;
mod copying;
mod cycle;
mod ends;
pub mod error;
mod finish;
mod gather;
mod join;
mod kinds;
pub mod laws;
mod level;
mod linked;
mod lookup;
mod loosen;
mod make;
mod orders;
mod pair;
mod row;
mod run;
mod same;
pub mod slot;
mod split;
pub mod store;
mod through;
mod tools;
