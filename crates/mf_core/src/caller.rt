/// The state of a caller.
#[derive(Clone, Copy, Debug, PartialEq, Eq, Drop)]
pub struct CallerState {
    /// Whether it has joined and not left. One that isn't joined has no pin and no claim, and
    /// zeros.
    pub joined: bool,
    /// The number of its entries.
    pub made: u64,
    /// The edition that it has seen.
    pub seen: u64,
    /// The edition that it has pinned.
    pub pinned: Option<u64>,
    /// The edition and the index of the entry that it has claimed.
    pub claim: Option<(u64, u32)>,
}
