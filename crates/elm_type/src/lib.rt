//! Types of the language.
#![tactic(auto)]

pub mod ascii;
pub mod building;
pub mod class;
mod copying;
pub mod demands;
pub mod elm_type_text_laws;
mod equality;
mod frame;
pub mod ground_types_laws;
pub mod head;
mod instance;
pub mod laws;
pub mod lengths;
pub mod naming;
pub mod node;
pub mod order;
pub mod pairs;
mod parts_copying;
mod renaming;
pub mod rigid;
pub mod scheme;
pub mod scheme_order_laws;
mod sizes;
mod text;
pub mod ty;
pub mod writing;

pub use copying::copy;
pub use demands::{allows, asks, meet};
pub use equality::same;
pub use instance::instantiate;
pub use renaming::rename;
pub use sizes::size;
pub use text::type_text;
