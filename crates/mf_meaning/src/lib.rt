//! What a call of a function gives, what a number shows, and how well a key matches a value:
//! definitions, and laws of them.
//!
//! The definitions stand in specs/, for the crates that compute them and for those that speak of
//! what is formatted.
#![tactic(auto)]

pub mod laws;
