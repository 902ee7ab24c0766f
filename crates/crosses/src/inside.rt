// Step A: orders from bid to ask against the quote, under both rankings.
use crate::case::Line::Trade;
use crate::case::Mark::{Buy, Sell};
use crate::case::{Case, ENTER, OFFER, PLAIN, Row, run_all};
use book::crossed::Outcome::{Dark, Lit};
use book::quote::Quote;
use book::ranking::by_size::BySize;
use book::ranking::by_time::ByTime;

// A quote that is younger than the standing orders.
const LATER: Quote = Quote { number: 5, ..PLAIN };

const BY_TIME: [Case; 6] = [
    // The sell at 100,000 ranks ahead of the ask, and the price is the partner's. The other 200 go
    // to the quote.
    Case {
        name: "a better price than the ask",
        frame: ENTER,
        quote: Some(PLAIN),
        orders: &[Row(2, Sell, 100_000, 100), Row(3, Buy, 101_000, 300)],
        slips: &[Trade(100_000, 100, 3, 2), Trade(101_000, 200, 3, 0)],
        outcome: Lit(Quote {
            ask_pieces: 300,
            ..PLAIN
        }),
        left: &[],
    },
    // Sell and ask are both 101,000, and the quote has the lower number 1.
    Case {
        name: "the same price after the quote",
        frame: ENTER,
        quote: Some(PLAIN),
        orders: &[Row(2, Sell, 101_000, 100), Row(3, Buy, 101_000, 100)],
        slips: &[Trade(101_000, 100, 3, 0)],
        outcome: Lit(Quote {
            ask_pieces: 400,
            ..PLAIN
        }),
        left: &[Row(2, Sell, 101_000, 100)],
    },
    // The same with quote number 5: ticket 2 is lower, then the quote serves the rest.
    Case {
        name: "the same price before the quote",
        frame: ENTER,
        quote: Some(LATER),
        orders: &[Row(2, Sell, 101_000, 100), Row(6, Buy, 101_000, 150)],
        slips: &[Trade(101_000, 100, 6, 2), Trade(101_000, 50, 6, 0)],
        outcome: Lit(Quote {
            ask_pieces: 450,
            ..LATER
        }),
        left: &[],
    },
    // The bid itself is within bid to ask, so the sell at 99,000 is a partner, and the best one.
    Case {
        name: "a sell at the bid",
        frame: OFFER,
        quote: Some(PLAIN),
        orders: &[Row(2, Sell, 99_000, 100), Row(3, Buy, 101_000, 100)],
        slips: &[Trade(99_000, 100, 3, 2)],
        outcome: Lit(PLAIN),
        left: &[],
    },
    // No buy reaches, the sell does. The buy at 100,000 ranks ahead of the bid, then the bid
    // serves 30.
    Case {
        name: "a sell takes from a buy",
        frame: ENTER,
        quote: Some(PLAIN),
        orders: &[Row(2, Buy, 100_000, 50), Row(3, Sell, 98_500, 80)],
        slips: &[Trade(100_000, 50, 2, 3), Trade(99_000, 30, 0, 3)],
        outcome: Lit(Quote {
            bid_pieces: 470,
            ..PLAIN
        }),
        left: &[],
    },
    // At one price the lower ticket is first: 250, then 150 of 300.
    Case {
        name: "two of one price",
        frame: ENTER,
        quote: Some(PLAIN),
        orders: &[
            Row(2, Sell, 100_000, 250),
            Row(3, Sell, 100_000, 300),
            Row(4, Buy, 101_000, 400),
        ],
        slips: &[Trade(100_000, 250, 4, 2), Trade(100_000, 150, 4, 3)],
        outcome: Lit(PLAIN),
        left: &[Row(3, Sell, 100_000, 150)],
    },
];

const BY_SIZE: [Case; 5] = [
    // The same board: ticket 3 has more pieces and is first: 300, then 100 of 250.
    Case {
        name: "two of one price by size",
        frame: ENTER,
        quote: Some(PLAIN),
        orders: &[
            Row(2, Sell, 100_000, 250),
            Row(3, Sell, 100_000, 300),
            Row(4, Buy, 101_000, 400),
        ],
        slips: &[Trade(100_000, 300, 4, 3), Trade(100_000, 100, 4, 2)],
        outcome: Lit(PLAIN),
        left: &[Row(2, Sell, 100_000, 150)],
    },
    // At 101,000 the sell has 600 and the quote 500: the sell is the partner, though its number is
    // higher.
    Case {
        name: "more pieces than the quote",
        frame: ENTER,
        quote: Some(PLAIN),
        orders: &[Row(2, Sell, 101_000, 600), Row(3, Buy, 101_000, 100)],
        slips: &[Trade(101_000, 100, 3, 2)],
        outcome: Lit(PLAIN),
        left: &[Row(2, Sell, 101_000, 500)],
    },
    // With 500 each the lower number decides: the quote.
    Case {
        name: "as many pieces as the quote",
        frame: ENTER,
        quote: Some(PLAIN),
        orders: &[Row(2, Sell, 101_000, 500), Row(3, Buy, 101_000, 100)],
        slips: &[Trade(101_000, 100, 3, 0)],
        outcome: Lit(Quote {
            ask_pieces: 400,
            ..PLAIN
        }),
        left: &[Row(2, Sell, 101_000, 500)],
    },
    // Taker 4 has more pieces than 5. Its partner is ticket 2 with 300, of which 150 stay. Now
    // ticket 3 has more, 200, and serves taker 5.
    Case {
        name: "the pieces that are left",
        frame: OFFER,
        quote: Some(PLAIN),
        orders: &[
            Row(2, Sell, 100_000, 300),
            Row(3, Sell, 100_000, 200),
            Row(4, Buy, 101_000, 150),
            Row(5, Buy, 101_000, 100),
        ],
        slips: &[Trade(100_000, 150, 4, 2), Trade(100_000, 100, 5, 3)],
        outcome: Lit(PLAIN),
        left: &[Row(2, Sell, 100_000, 150), Row(3, Sell, 100_000, 100)],
    },
    // Both buys reach at 101,000. The larger takes 450, the other the last 50, and the quote goes.
    Case {
        name: "the larger taker",
        frame: OFFER,
        quote: Some(PLAIN),
        orders: &[Row(2, Buy, 101_000, 100), Row(3, Buy, 101_000, 450)],
        slips: &[Trade(101_000, 450, 3, 0), Trade(101_000, 50, 2, 0)],
        outcome: Dark,
        left: &[Row(2, Buy, 101_000, 50)],
    },
];

#[test]
fn by_time_the_lower_number_is_served_first(rt: HostRuntime) {
    run_all(&rt, &ByTime, &BY_TIME);
}

#[test]
fn by_size_more_pieces_are_served_first(rt: HostRuntime) {
    run_all(&rt, &BySize, &BY_SIZE);
}
