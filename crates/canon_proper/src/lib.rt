//! What names give where no fault was found: trees whose names are bound where they are used.
#![tactic(auto)]

pub mod laws;
pub mod parsed_fields_laws;
pub mod parsed_words_laws;
pub mod token_words_laws;
