// What does not change while a cross runs.
ghost use Rattle.std.specs.Prelude.{◌≡◌, if◌then◌else◌};
ghost use Rattle.book.specs.Moves.{Halt, in_limit, in_quote};

use crate::found::Found;
use crate::moves::Move;
use figures::limit::is_within;

// Bid and ask are those of the governing quote. The opener is the ticket that opened the RFE which
// the cross ends. The limit is Limit 2 in percent, around the dynamic price. Opener and entered stand apart, since
// the laws hold of every frame, of one with both too.
#[derive(Clone, Copy)]
pub struct Frame {
    pub bid: u32,
    pub ask: u32,
    pub opener: Option<u32>,
    pub entered: bool,
    pub dynamic: u32,
    pub limit: u32,
}

impl Frame {
    // Whether a trade at the price is within Limit 2.
    fn is_in_limit(self, price: u32) -> bool
        ensures { result ≡ in_limit self price }
    {
        is_within(price, self.dynamic, self.limit)
    }

    // The trade, or where its price is beyond Limit 2 a halt that takes the order out.
    pub(crate) fn or_halt(self, price: u32, trade: Move, order: Found) -> Move
        ensures { result ≡ (if in_limit self price then trade else Halt order) }
    {
        if self.is_in_limit(price) {
            trade
        } else {
            Move::Halt(order)
        }
    }

    // Whether the price lies from the governing bid to the governing ask.
    pub(crate) fn is_in_quote(self, price: u32) -> bool
        ensures { result ≡ in_quote self price }
    {
        (self.bid..=self.ask).contains(&price)
    }
}
