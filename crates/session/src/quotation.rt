// What the Specialist sends.
ghost use Rattle.std.specs.Prelude.{◌≡◌};
ghost use Rattle.session.specs.Calls.{quote_from};

use book::quote::Quote;
use figures::offer::Offer;

// A flagged quotation is asked about before it trades with an order that is being entered.
#[derive(Clone, Copy)]
pub struct Quotation {
    pub offer: Offer,
    pub flagged: bool,
}

impl Quotation {
    pub(crate) fn quote(self, number: u32) -> Quote
        ensures { result ≡ quote_from self.offer self.flagged number }
    {
        Quote {
            number,
            bid: self.offer.bid,
            bid_pieces: self.offer.bid_pieces,
            ask: self.offer.ask,
            ask_pieces: self.offer.ask_pieces,
            flagged: self.flagged,
        }
    }
}
