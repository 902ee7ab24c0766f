// What a call writes into its list.
ghost use Rattle.std.specs.Prelude.{◌≡◌};
ghost use Rattle.book.specs.Causes.{cause_number};

// Why an order went out.
#[derive(Clone, Copy, PartialEq, Eq)]
pub enum Cause {
    // taken out by its sender
    Cancelled = 1,
    // the price of its pair lay outside the governing quote
    OutsideQuote = 2,
    // execute-and-cancel, and left over
    Expired = 3,
    // its trade would have been beyond Limit 2
    BeyondLimit = 4,
}

// Buyer and seller are tickets, 0 for the quote: the rules tell them so, and the laws count by them.
#[derive(Clone, Copy, PartialEq, Eq)]
pub enum Slip {
    Trade {
        price: u32,
        pieces: u32,
        buyer: u32,
        seller: u32,
    },
    Out {
        cause: Cause,
        ticket: u32,
        pieces: u32,
    },
}

impl From<Cause> for u32 {
    ghost from_gives = { λ cause number. number ≡ cause_number cause };

    fn from(cause: Cause) -> u32 {
        cause as u32
    }
}
