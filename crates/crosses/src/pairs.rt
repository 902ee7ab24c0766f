// Step B, after the quote was taken away: its prices still govern.
use crate::case::Line::{Outside, Trade};
use crate::case::Mark::{Buy, Sell};
use crate::case::{Case, ENDED, Row, run_all};
use book::crossed::Outcome::Dark;
use book::ranking::by_size::BySize;
use book::ranking::by_time::ByTime;

const BY_TIME: [Case; 9] = [
    // The price is that of ticket 2, 105,000, above the governing ask: ticket 3 goes out.
    Case {
        name: "outside",
        frame: ENDED,
        quote: None,
        orders: &[Row(2, Buy, 105_000, 100), Row(3, Sell, 95_000, 40)],
        slips: &[Outside(3, 40)],
        outcome: Dark,
        left: &[Row(2, Buy, 105_000, 100)],
    },
    // The price is that of ticket 2, 101,000, and the governing ask is allowed.
    Case {
        name: "at the ask",
        frame: ENDED,
        quote: None,
        orders: &[Row(2, Buy, 101_000, 100), Row(3, Sell, 100_000, 100)],
        slips: &[Trade(101_000, 100, 2, 3)],
        outcome: Dark,
        left: &[],
    },
    // The price is 99,000, and the governing bid is allowed.
    Case {
        name: "at the bid",
        frame: ENDED,
        quote: None,
        orders: &[Row(2, Sell, 99_000, 10), Row(3, Buy, 99_000, 10)],
        slips: &[Trade(99_000, 10, 3, 2)],
        outcome: Dark,
        left: &[],
    },
    // 99,900 is below 100,000.
    Case {
        name: "no pair",
        frame: ENDED,
        quote: None,
        orders: &[Row(2, Buy, 99_900, 10), Row(3, Sell, 100_000, 10)],
        slips: &[],
        outcome: Dark,
        left: &[Row(2, Buy, 99_900, 10), Row(3, Sell, 100_000, 10)],
    },
    // Against ticket 2 the price is 105,000 each time: the sells go out, best price first.
    Case {
        name: "a chain of sells",
        frame: ENDED,
        quote: None,
        orders: &[
            Row(2, Buy, 105_000, 100),
            Row(3, Sell, 95_000, 40),
            Row(4, Sell, 96_000, 30),
            Row(5, Sell, 100_000, 20),
        ],
        slips: &[Outside(3, 40), Outside(4, 30), Outside(5, 20)],
        outcome: Dark,
        left: &[Row(2, Buy, 105_000, 100)],
    },
    // Ticket 2 sells at 95,000, below the governing bid: the buys go out, best price first.
    Case {
        name: "a chain of buys",
        frame: ENDED,
        quote: None,
        orders: &[
            Row(2, Sell, 95_000, 100),
            Row(3, Buy, 96_000, 30),
            Row(4, Buy, 104_000, 20),
            Row(5, Buy, 105_000, 10),
        ],
        slips: &[Outside(5, 10), Outside(4, 20), Outside(3, 30)],
        outcome: Dark,
        left: &[Row(2, Sell, 95_000, 100)],
    },
    // The first pair is buy 3 and sell 4 at 105,000: sell 4 goes out. Then buy 3 meets sell 2 at
    // 100,000.
    Case {
        name: "out, then a trade",
        frame: ENDED,
        quote: None,
        orders: &[
            Row(2, Sell, 100_000, 50),
            Row(3, Buy, 105_000, 20),
            Row(4, Sell, 95_000, 30),
        ],
        slips: &[Outside(4, 30), Trade(100_000, 20, 3, 2)],
        outcome: Dark,
        left: &[Row(2, Sell, 100_000, 30)],
    },
    // Ticket 2 is the lower of both pairs: 50 and then 30 at 100,000.
    Case {
        name: "one sell and two buys",
        frame: ENDED,
        quote: None,
        orders: &[
            Row(2, Sell, 100_000, 80),
            Row(3, Buy, 105_000, 50),
            Row(4, Buy, 100_500, 50),
        ],
        slips: &[Trade(100_000, 50, 3, 2), Trade(100_000, 30, 4, 2)],
        outcome: Dark,
        left: &[Row(4, Buy, 100_500, 20)],
    },
    // The lower ticket buys first: 100, then 150 of 200.
    Case {
        name: "equal prices by time",
        frame: ENDED,
        quote: None,
        orders: &[
            Row(2, Buy, 100_000, 100),
            Row(3, Buy, 100_000, 200),
            Row(4, Sell, 100_000, 250),
        ],
        slips: &[Trade(100_000, 100, 2, 4), Trade(100_000, 150, 3, 4)],
        outcome: Dark,
        left: &[Row(3, Buy, 100_000, 50)],
    },
];

const BY_SIZE: [Case; 1] = [
    // The larger buy is first: 200, then 50 of 100.
    Case {
        name: "equal prices by size",
        frame: ENDED,
        quote: None,
        orders: &[
            Row(2, Buy, 100_000, 100),
            Row(3, Buy, 100_000, 200),
            Row(4, Sell, 100_000, 250),
        ],
        slips: &[Trade(100_000, 200, 3, 4), Trade(100_000, 50, 2, 4)],
        outcome: Dark,
        left: &[Row(2, Buy, 100_000, 50)],
    },
];

#[test]
fn pairs_trade_at_the_lower_ticket(rt: HostRuntime) {
    run_all(&rt, &ByTime, &BY_TIME);
}

#[test]
fn pairs_go_by_size(rt: HostRuntime) {
    run_all(&rt, &BySize, &BY_SIZE);
}
