//! What is known at a seat of the turnstile's table. No value of these types is made: contracts speak of them.
use std::collections::LinkedList;

/// One turn.
pub struct TurnRow<E, Q, R> {
    /// The length of the history before it.
    pub place: u64,
    pub request: Q,
    pub reply: R,
    /// What the turn added to the history, if it did.
    pub entry: Option<E>,
    /// The state's count of faults.
    pub faults_before: u64,
    pub faults_after: u64,
}

/// The passes of a new turnstile are numbered from 0 on, and have the split 0. The j-th pass that was split from one has its number and the split j, from 1 on.
pub struct PassName {
    pub number: u64,
    pub split: u64,
}

/// A pass by its name, with the number of passes that were split from it, and its turns.
pub struct PassRecord<E, Q, R> {
    pub name: PassName,
    pub splits: u64,
    pub turns: LinkedList<TurnRow<E, Q, R>>,
}

/// Where a seat stands in its turn.
pub enum Stage {
    Idle,
    /// With this ticket.
    Drawn(u64),
    /// With this ticket and the state, at this count of faults.
    Served(u64, u64),
    /// The seat was met into another.
    Spent,
}

/// What is known at one seat.
pub struct SeatView<E, Q, R> {
    pub seen: LinkedList<E>,
    /// The shorter of the lists at the last meeting.
    pub beside: LinkedList<E>,
    pub own: PassRecord<E, Q, R>,
    pub met: LinkedList<PassRecord<E, Q, R>>,
    pub stage: Stage,
    /// How many tickets may still be drawn, at this seat and those that are split from it.
    pub room: u64,
}
