// What an accepted call answers.
use crate::phase::PhaseKind;

// The phase and the dynamic price are those after the call; `number` is the order's ticket or the
// quote's number, or 0, and `opener` the opening ticket of the open RFE, or 0: the rules tell both as plain numbers.
#[derive(Clone, Copy, PartialEq, Eq, Debug)]
pub struct Answer {
    pub phase: PhaseKind,
    pub slips: usize,
    pub number: u32,
    pub dynamic: u32,
    pub opener: u32,
}
