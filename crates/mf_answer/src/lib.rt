//! What a log at an edition answers to a request for a sentence: definitions, and a law that ties
//! them.
#![tactic(auto)]

pub mod laws;
