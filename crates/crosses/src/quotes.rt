// Step A: orders that reach the quote, with no other order in the way.
use crate::case::Line::Trade;
use crate::case::Mark::{Buy, Sell};
use crate::case::{Case, ENTER, OFFER, PLAIN, Row, run_all};
use book::crossed::Outcome::{Dark, Lit};
use book::quote::Quote;
use book::ranking::by_time::ByTime;

const CASES: [Case; 6] = [
    // A buy reaches at the ask. Its one partner is the quote, so 300 trade at 101,000, and 200 of
    // the ask stay.
    Case {
        name: "a buy at the ask",
        frame: ENTER,
        quote: Some(PLAIN),
        orders: &[Row(2, Buy, 101_000, 300)],
        slips: &[Trade(101_000, 300, 2, 0)],
        outcome: Lit(Quote {
            ask_pieces: 200,
            ..PLAIN
        }),
        left: &[],
    },
    // A sell below the bid gets the bid. With its 500 pieces the side has none left, and the quote
    // goes with its ask.
    Case {
        name: "a sell uses the bid up",
        frame: ENTER,
        quote: Some(PLAIN),
        orders: &[Row(2, Sell, 98_900, 500)],
        slips: &[Trade(99_000, 500, 0, 2)],
        outcome: Dark,
        left: &[],
    },
    // Of 700 the ask serves 500 and the quote goes. Step B finds no sell, and 200 stay.
    Case {
        name: "more than the quote has",
        frame: ENTER,
        quote: Some(PLAIN),
        orders: &[Row(2, Buy, 102_000, 700)],
        slips: &[Trade(101_000, 500, 2, 0)],
        outcome: Dark,
        left: &[Row(2, Buy, 102_000, 200)],
    },
    // 100,800 is below the ask and 100,900 above the bid: no taker. 100,800 is below 100,900: no
    // pair.
    Case {
        name: "between bid and ask",
        frame: ENTER,
        quote: Some(PLAIN),
        orders: &[Row(2, Buy, 100_800, 10), Row(3, Sell, 100_900, 10)],
        slips: &[],
        outcome: Lit(PLAIN),
        left: &[Row(2, Buy, 100_800, 10), Row(3, Sell, 100_900, 10)],
    },
    // Both buys reach. 102,000 ranks ahead and takes 300, then ticket 2 has the 200 that are left.
    Case {
        name: "the better price takes first",
        frame: OFFER,
        quote: Some(PLAIN),
        orders: &[Row(2, Buy, 101_000, 400), Row(3, Buy, 102_000, 300)],
        slips: &[Trade(101_000, 300, 3, 0), Trade(101_000, 200, 2, 0)],
        outcome: Dark,
        left: &[Row(2, Buy, 101_000, 200)],
    },
    // Both reach, and the buy is first. The sell at 98,000 is below the bid, so it is no partner
    // and the buy pays the ask. Then the sell gets the bid.
    Case {
        name: "a buy takes before a sell",
        frame: OFFER,
        quote: Some(PLAIN),
        orders: &[Row(2, Sell, 98_000, 100), Row(3, Buy, 105_000, 50)],
        slips: &[Trade(101_000, 50, 3, 0), Trade(99_000, 100, 0, 2)],
        outcome: Lit(Quote {
            bid_pieces: 400,
            ask_pieces: 450,
            ..PLAIN
        }),
        left: &[],
    },
];

#[test]
fn the_quote_serves_what_reaches_it(rt: HostRuntime) {
    run_all(&rt, &ByTime, &CASES);
}
