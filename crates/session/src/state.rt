// All that changes in a book during its day.
use crate::phase::Phase;
use book::table::Table;

// `count` is the last number given out, `collected` the highest opening ticket whose summons was
// collected. That the totals are bounded is asked of each call by a clause: a ghost field here would put a proof into
// every state that a definition builds.
#[derive(Drop)]
pub struct State {
    pub clock: u32,
    pub dynamic: u32,
    pub count: u32,
    pub collected: u32,
    pub totals: Totals,
    pub phase: Phase,
    pub table: Table,
}

// Pieces summed over tickets: a trade between two orders counts for both.
#[derive(Clone, Copy, Default)]
pub struct Totals {
    pub accepted: u64,
    pub done: u64,
    pub out: u64,
}

mod act;
mod calls;
mod carry;
mod check;
mod cross;
mod made;
mod renew;
mod report;
mod rows;
mod tally;
