//! What one caller's lines and reply lines say over a log, and what lines and replies mean in a
//! history of several callers: definitions, and laws that tie them.
#![tactic(auto)]

pub mod laws;
