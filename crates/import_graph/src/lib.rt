//! The order of modules by their imports.
#![tactic(auto)]

mod crawling;
pub mod entries;
mod entry;
mod faults;
mod folding;
mod found;
mod heads;
mod known;
pub mod laws;
pub mod module_fold_laws;
pub mod module_graph_laws;
pub mod module_heads_laws;
mod numbers;
mod ordering;
pub mod places;
mod reader;
mod walk;
mod work;

pub use crawling::{CrawlEnd, Graph, crawl};
pub use folding::fold;
pub use found::Found;
pub use heads::{Heads, imports};
pub use ordering::{OrderError, order};
pub use reader::{Reader, Written};
pub use walk::{Import, Module, ReachError, reach};
pub use work::Work;
