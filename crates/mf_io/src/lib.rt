//! What the program meets outside itself: bytes to read, bytes to write, connections, and how it
//! ends.
//!
//! A session reads from a [`Source`] and writes to a [`Sink`], and a [`Listener`] gives pairs of
//! them. Each tells how often it has failed, so that a contract can say that a failure is answered
//! only where one came. [`MemorySource`], [`MemorySink`] and [`MemoryLinks`] stand in memory and
//! fail where they are told to; [`StdSource`], [`StdSink`] and [`TcpLinks`] stand over std's
//! readers, writers and listeners.
#![tactic(auto)]

mod bounds;
mod bytes;
mod calls;
mod faults;
mod lent;
mod links;
mod memory_links;
mod memory_sink;
mod memory_source;
mod outside;
mod passes;
mod places;
mod statuses;
mod std_sink;
mod std_source;
mod tcp_links;
mod whole;

pub use bounds::Caps;
pub use bytes::Bytes;
pub use links::Listener;
pub use memory_links::MemoryLinks;
pub use memory_sink::MemorySink;
pub use memory_source::MemorySource;
pub use outside::{Failed, Sink, Source};
pub use passes::PassError;
pub use places::{Gate, NoGate, Place};
pub use statuses::Status;
pub use std_sink::StdSink;
pub use std_source::StdSource;
pub use tcp_links::TcpLinks;
pub use whole::{GatherError, gather, send};
