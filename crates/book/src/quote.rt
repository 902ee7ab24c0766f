// The quote of the Specialist.
ghost use Rattle.std.specs.Prelude.{◌≡◌, ◌&&◌, nat_le};
ghost use Rattle.book.specs.Picks.{reaches};
ghost use Rattle.book.specs.Proposals.{side_of};
ghost use Rattle.book.specs.Tables.{lower_quote};

use crate::order::Order;
use crate::pieces::left;
use crate::proposal::Proposal;
use crate::side::Side;

// A flagged quote is asked about before it trades with an order that is being entered. The numbers of its offer are
// its own fields: the laws read bid and ask at every step.
#[derive(Clone, Copy, PartialEq, Eq)]
pub struct Quote {
    pub number: u32,
    pub bid: u32,
    pub bid_pieces: u32,
    pub ask: u32,
    pub ask_pieces: u32,
    pub flagged: bool,
}

impl Quote {
    // What the quote proposes on one side: it buys at the bid and sells at the ask.
    pub(crate) fn side(self, side: Side) -> Proposal
        ensures { result ≡ side_of self side }
    {
        let (price, pieces) = match side {
            Side::Buy => (self.bid, self.bid_pieces),
            Side::Sell => (self.ask, self.ask_pieces),
        };
        Proposal {
            price,
            pieces,
            number: self.number,
        }
    }

    // Whether the price lies from the bid to the ask: one call of the library, as for a frame.
    pub(crate) fn spans(self, price: u32) -> bool
        ensures { result ≡ (nat_le self.bid price && nat_le price self.ask) }
    {
        (self.bid..=self.ask).contains(&price)
    }

    // Whether an order, taken as one of `side`, reaches the quote.
    pub(crate) fn is_reached(self, order: &Order, side: Side) -> bool
        ensures { result ≡ reaches self order.now side }
    {
        match side {
            Side::Buy => self.ask <= order.price,
            Side::Sell => order.price <= self.bid,
        }
    }

    // The quote with `pieces` fewer on one side; none where that side has none left.
    pub(crate) fn lower(self, side: Side, pieces: u32) -> Option<Quote>
        ensures { result ≡ lower_quote side pieces self }
    {
        match side {
            Side::Buy => left(self.bid_pieces, pieces).map(|bid_pieces| Quote {
                bid_pieces,
                ..self
            }),
            Side::Sell => left(self.ask_pieces, pieces).map(|ask_pieces| Quote {
                ask_pieces,
                ..self
            }),
        }
    }
}
