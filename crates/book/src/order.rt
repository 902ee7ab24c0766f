// An order that stands.
ghost use Rattle.std.specs.Prelude.{◌≡◌};
ghost use Rattle.book.specs.Picks.{settled};
ghost use Rattle.book.specs.Proposals.{proposal};
ghost use Rattle.book.specs.Tables.{lower};

use crate::pieces::left;
use crate::proposal::Proposal;
use crate::side::Side;

// Not an entry with a ticket, since `pieces` are those left. A brief order is execute-and-cancel (immediate
// or cancel): what a cross leaves of it goes out.
#[derive(Clone, Copy, PartialEq, Eq)]
pub struct Order {
    pub ticket: u32,
    pub sender: u32,
    pub side: Side,
    pub price: u32,
    pub pieces: u32,
    pub brief: bool,
}

impl Order {
    pub(crate) fn proposal(self) -> Proposal
        ensures { result ≡ proposal self }
    {
        Proposal {
            price: self.price,
            pieces: self.pieces,
            number: self.ticket,
        }
    }

    // The order with `pieces` fewer; none where none is left.
    pub(crate) fn lower(self, pieces: u32) -> Option<Order>
        ensures { result ≡ lower pieces self }
    {
        left(self.pieces, pieces).map(|pieces| Order { pieces, ..self })
    }

    // Whether the order does not wait for the end of an RFE.
    pub(crate) fn is_settled(self, opener: Option<u32>) -> bool
        ensures { result ≡ settled opener self }
    {
        opener.is_none_or(|ticket| self.ticket < ticket)
    }
}
