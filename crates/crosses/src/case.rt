// A cross on a small board, and what it has to leave.
use book::crossed::{Crossed, Outcome};
use book::frame::Frame;
use book::order::Order;
use book::quote::Quote;
use book::ranking::Ranking;
use book::side::Side;
use book::slip::{Cause, Slip};
use book::table::Table;
use std::iter::repeat;
use std::process::Abort;

// What an order does. A brief one does it as execute-and-cancel.
#[derive(Clone, Copy)]
pub enum Mark {
    Buy,
    Sell,
    BriefBuy,
    BriefSell,
}

// An order: ticket, mark, price, pieces.
#[derive(Clone, Copy)]
pub struct Row(pub u32, pub Mark, pub u32, pub u32);

// A slip.
#[derive(Clone, Copy)]
pub enum Line {
    // price, pieces, buyer, seller
    Trade(u32, u32, u32, u32),
    // ticket and pieces of an order that goes out
    Outside(u32, u32),
    Expired(u32, u32),
    Beyond(u32, u32),
}

// In every case the governing quote is 99,000 to 101,000.
pub struct Case {
    pub name: &'static str,
    pub frame: Frame,
    pub quote: Option<Quote>,
    pub orders: &'static [Row],
    pub slips: &'static [Line],
    pub outcome: Outcome,
    pub left: &'static [Row],
}

// A cross that comes from enter, and one that a new quote brings.
pub const ENTER: Frame = Frame {
    bid: 99_000,
    ask: 101_000,
    opener: None,
    entered: true,
    dynamic: 100_000,
    limit: 50,
};

pub const OFFER: Frame = Frame {
    entered: false,
    ..ENTER
};

// The end of the RFE that ticket 2 opened.
pub const ENDED: Frame = Frame {
    opener: Some(2),
    ..OFFER
};

// A limit of 0 percent allows 100,000 alone.
pub const TIGHT: Frame = Frame { limit: 0, ..ENTER };

pub const PLAIN: Quote = Quote {
    number: 1,
    bid: 99_000,
    bid_pieces: 500,
    ask: 101_000,
    ask_pieces: 500,
    flagged: false,
};

pub const FLAGGED: Quote = Quote {
    flagged: true,
    ..PLAIN
};

// What no cross writes.
pub const BLANK: Slip = Slip::Out {
    cause: Cause::Cancelled,
    ticket: 0,
    pieces: 0,
};

impl From<Row> for Order {
    fn from(row: Row) -> Order {
        let Row(ticket, mark, price, pieces) = row;
        let (side, brief) = match mark {
            Mark::Buy => (Side::Buy, false),
            Mark::Sell => (Side::Sell, false),
            Mark::BriefBuy => (Side::Buy, true),
            Mark::BriefSell => (Side::Sell, true),
        };
        Order {
            ticket,
            sender: 7,
            side,
            price,
            pieces,
            brief,
        }
    }
}

impl From<Line> for Slip {
    fn from(line: Line) -> Slip {
        let (cause, ticket, pieces) = match line {
            Line::Trade(price, pieces, buyer, seller) => {
                return Slip::Trade {
                    price,
                    pieces,
                    buyer,
                    seller,
                };
            }
            Line::Outside(ticket, pieces) => (Cause::OutsideQuote, ticket, pieces),
            Line::Expired(ticket, pieces) => (Cause::Expired, ticket, pieces),
            Line::Beyond(ticket, pieces) => (Cause::BeyondLimit, ticket, pieces),
        };
        Slip::Out {
            cause,
            ticket,
            pieces,
        }
    }
}

// Whether the list begins with these slips, and is untouched after them.
fn is_written(list: &[Slip; 129], slips: &[Line]) -> bool {
    let expected = slips.iter().copied().map(Slip::from).chain(repeat(BLANK));
    list.iter()
        .zip(expected)
        .all(|(slip, expected)| *slip == expected)
}

impl Case {
    fn run<R: Ranking>(&self, rt: &impl Abort, ranking: &R) {
        let mut table = Table::new();
        for row in self.orders {
            assert!(rt; table.place(Order::from(*row)).is_ok(), "{}", self.name);
        }
        let mut list = [BLANK; 129];
        let crossed = table.cross(ranking, self.frame, self.quote, &mut list);
        let expected = Crossed {
            count: self.slips.len(),
            outcome: self.outcome,
        };
        assert!(rt; crossed == expected, "{}", self.name);
        assert!(rt; is_written(&list, self.slips), "{}", self.name);
        assert!(rt; self.has_left(&table), "{}", self.name);
    }

    // The orders that are left stand, and no others.
    fn has_left(&self, table: &Table) -> bool {
        let mut left = self.left.iter().copied().map(Order::from);
        table.standing() == self.left.len()
            && left.all(|order| {
                table
                    .find(order.sender, order.ticket)
                    .is_some_and(|found| found.order == order)
            })
    }
}

pub fn run_all<R: Ranking>(rt: &impl Abort, ranking: &R, cases: &[Case]) {
    for case in cases {
        case.run(rt, ranking);
    }
}
