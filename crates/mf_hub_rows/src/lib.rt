//! Callers of a hub in threads: what the tests of mf_hub look at.
#![tactic(auto)]

mod asking;
mod changes;
mod closing;
mod crowd;
mod gates;
mod logs;
mod plans;

pub use asking::{Asker, ask_all, ask_at_gate, ask_together, collect};
pub use changes::{message, messages, too_large};
pub use closing::{closed_log, refused_close};
pub use crowd::{
    Walked, gather, leave_all, make_passes, passes_of, publish_many, publish_together, share_notes,
    walk, walk_often, walk_together,
};
pub use gates::{Compilations, Hold};
pub use logs::is_numbered;
pub use plans::{plan_once, plan_pinned};

#[cfg(test)]
mod plan_tests;
#[cfg(test)]
mod tests;
