// What a cross can do next.
ghost use Rattle.std.specs.Prelude.{◌≡◌};
ghost use Rattle.book.specs.Makes.{number, traded};
ghost use Rattle.book.specs.Turns.{end_of};

use crate::crossed::{Crossed, Maker};
use crate::found::Found;
use crate::slip::{Cause, Slip};

// One party of a trade: an order in its row, or none for the quote.
pub(crate) type Party = Option<Found>;

// Data, and no switch: the laws speak of each move. `Ask` carries the ticket of the order that the quote is asked about, and so opens an RFE.
#[derive(Clone, Copy)]
pub enum Move {
    Stop,
    Ask(u32),
    Deal {
        buyer: Party,
        seller: Party,
        price: u32,
        pieces: u32,
    },
    Strike {
        cause: Cause,
        found: Found,
    },
    Halt(Found),
}

// The ticket of a party, 0 for the quote.
fn number(party: Party) -> u32
    ensures { result ≡ number party }
{
    party.map_or(0, |found| found.order.ticket)
}

impl Move {
    // What a cross answers that ends at this move, after `count` slips; none where it goes on.
    pub(crate) fn end(self, count: usize, maker: Maker) -> Option<Crossed>
        ensures { result ≡ end_of self count maker }
    {
        match self {
            Move::Stop => Some(maker.end(count, None)),
            Move::Ask(ticket) => Some(maker.end(count, Some(ticket))),
            Move::Deal { .. } | Move::Strike { .. } | Move::Halt(_) => None,
        }
    }
}

// The slip of a trade.
pub(crate) fn traded(buyer: Party, seller: Party, price: u32, pieces: u32) -> Slip
    ensures { result ≡ traded buyer seller price pieces }
{
    Slip::Trade {
        price,
        pieces,
        buyer: number(buyer),
        seller: number(seller),
    }
}
