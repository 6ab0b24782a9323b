//! The program of a build never gets stuck: what its modules, its unions, its ports and its `main` are in the law of
//! typed programs.
#![tactic(auto)]

pub mod build_makers;
pub mod build_meaning_laws;
pub mod build_world;
pub mod closed_builds;
pub mod closed_makers;
pub mod compiled_builds_laws;
pub mod kept_links;
pub mod laws;
pub mod linked_builds;
pub mod linked_main;
pub mod linked_primitives;
pub mod linked_simple;
pub mod made_fields_laws;
pub mod placed_builds_laws;
pub mod placed_links;
pub mod port_worlds;
pub mod simple_pieces;
pub mod sound_worlds;
pub mod told_builds_laws;
pub mod told_primitives;
pub mod typed_makers;
pub mod union_names;
pub mod union_tags;
pub mod world_unions;
