use crate::board::Board;
use mf_edition::Edition;
use mf_flight::Ticket;

/// The log, the callers' states, and the compilations of the live editions' messages: a board, the
/// newest edition, and the tickets of the claims.
#[derive(Debug)]
pub struct World {
    pub(crate) board: Board<()>,
    pub(crate) newest: Edition,
    pub(crate) tickets: Vec<Option<Ticket>>,
}
