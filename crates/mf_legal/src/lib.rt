//! The calls of several callers on one log, and the one history that they make: definitions, for
//! whatever lines and replies mean, and the laws that tie the callers' transcripts to that history.
#![tactic(auto)]

pub mod laws;
