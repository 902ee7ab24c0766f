// Orders that wait for the end of an RFE: they take, and in step A they are no partners.
use crate::case::Line::{Outside, Trade};
use crate::case::Mark::{Buy, Sell};
use crate::case::{Case, ENDED, OFFER, PLAIN, Row, run_all};
use book::crossed::Outcome::{Dark, Lit};
use book::frame::Frame;
use book::quote::Quote;
use book::ranking::by_time::ByTime;

// The end of the RFE that ticket 3 opened.
const ENDED_3: Frame = Frame {
    opener: Some(3),
    ..OFFER
};

const CASES: [Case; 7] = [
    // Ticket 3 waits, so the ask serves the opener. The sell at 100,000 does not reach the bid and
    // stays.
    Case {
        name: "a waiting sell is not served",
        frame: ENDED,
        quote: Some(PLAIN),
        orders: &[Row(2, Buy, 101_000, 100), Row(3, Sell, 100_000, 100)],
        slips: &[Trade(101_000, 100, 2, 0)],
        outcome: Lit(Quote {
            ask_pieces: 400,
            ..PLAIN
        }),
        left: &[Row(3, Sell, 100_000, 100)],
    },
    // The same with no RFE: the sell is settled and better than the ask.
    Case {
        name: "a settled sell is served",
        frame: OFFER,
        quote: Some(PLAIN),
        orders: &[Row(2, Buy, 101_000, 100), Row(3, Sell, 100_000, 100)],
        slips: &[Trade(100_000, 100, 2, 3)],
        outcome: Lit(PLAIN),
        left: &[],
    },
    // The buy pays the ask and the waiting sell gets the bid.
    Case {
        name: "both take from the quote",
        frame: ENDED,
        quote: Some(PLAIN),
        orders: &[Row(2, Buy, 105_000, 100), Row(3, Sell, 95_000, 40)],
        slips: &[Trade(101_000, 100, 2, 0), Trade(99_000, 40, 0, 3)],
        outcome: Lit(Quote {
            bid_pieces: 460,
            ask_pieces: 400,
            ..PLAIN
        }),
        left: &[],
    },
    // Ticket 3 opened, so buy 2 is settled and buy 4 waits. The sell takes 50 of buy 2 at 99,500
    // and 50 of the bid.
    Case {
        name: "a settled buy before the bid",
        frame: ENDED_3,
        quote: Some(PLAIN),
        orders: &[
            Row(2, Buy, 99_500, 50),
            Row(3, Sell, 98_000, 100),
            Row(4, Buy, 100_000, 100),
        ],
        slips: &[Trade(99_500, 50, 2, 3), Trade(99_000, 50, 0, 3)],
        outcome: Lit(Quote {
            bid_pieces: 450,
            ..PLAIN
        }),
        left: &[Row(4, Buy, 100_000, 100)],
    },
    // The opener is a sell at the bid. It is no partner of buy 3, which pays the ask, and then
    // takes from the bid itself.
    Case {
        name: "the opener waits too",
        frame: ENDED,
        quote: Some(PLAIN),
        orders: &[Row(2, Sell, 99_000, 100), Row(3, Buy, 101_000, 60)],
        slips: &[Trade(101_000, 60, 3, 0), Trade(99_000, 100, 0, 2)],
        outcome: Lit(Quote {
            bid_pieces: 400,
            ask_pieces: 440,
            ..PLAIN
        }),
        left: &[],
    },
    // The ask serves 500 and the quote goes. In step B all orders are open: the waiting sell
    // trades at the price of ticket 2, which is the governing ask.
    Case {
        name: "used up, then a pair",
        frame: ENDED,
        quote: Some(PLAIN),
        orders: &[Row(2, Buy, 101_000, 700), Row(3, Sell, 100_500, 150)],
        slips: &[Trade(101_000, 500, 2, 0), Trade(101_000, 150, 2, 3)],
        outcome: Dark,
        left: &[Row(2, Buy, 101_000, 50)],
    },
    // As before, but ticket 2 is at 102,000, above the governing ask: the higher ticket goes out,
    // cause 2.
    Case {
        name: "used up, then outside",
        frame: ENDED,
        quote: Some(PLAIN),
        orders: &[Row(2, Buy, 102_000, 700), Row(3, Sell, 100_500, 200)],
        slips: &[Trade(101_000, 500, 2, 0), Outside(3, 200)],
        outcome: Dark,
        left: &[Row(2, Buy, 102_000, 200)],
    },
];

#[test]
fn waiting_orders_take_and_are_no_partners(rt: HostRuntime) {
    run_all(&rt, &ByTime, &CASES);
}
