//! What a turn does.

/// What a turn did to the value that it gives back.
#[derive(Clone, Copy, Debug)]
pub enum Act {
    /// Nothing.
    Same,
    /// The seat, which had no number, joined as the next caller.
    Join,
    /// The caller left whose leave the seat has in hand.
    Leave,
    /// Nothing; the seat got the plan of an edition and an index.
    Serve(u64, u32),
    /// Nothing; the seat was told that so many tickets were given back.
    Hear(u64),
    /// The entry is in the log whose place the seat has fixed.
    Publish,
    /// The caller pinned the newest edition.
    Pin,
    /// The caller ended its pin.
    Unpin,
    /// The caller claimed the entry of an edition and an index.
    Claim(u64, u32),
    /// The plan that the caller had claimed is there.
    Done,
    /// The caller gave its ticket back.
    Quit,
}
