// Flagged quotes: when the quote is asked and an RFE opens.
use crate::case::Line::Trade;
use crate::case::Mark::{BriefSell, Buy, Sell};
use crate::case::{Case, ENTER, FLAGGED, OFFER, Row, TIGHT, run_all};
use book::crossed::Outcome::{Asked, Lit};
use book::quote::Quote;
use book::ranking::by_time::ByTime;

const CASES: [Case; 7] = [
    // The partner is the flagged quote and the cross came from enter: nothing trades, an RFE
    // opens.
    Case {
        name: "asked at once",
        frame: ENTER,
        quote: Some(FLAGGED),
        orders: &[Row(2, Buy, 101_000, 100)],
        slips: &[],
        outcome: Asked(FLAGGED, 2),
        left: &[Row(2, Buy, 101_000, 100)],
    },
    // The same order after a new quote: no question, it trades.
    Case {
        name: "not from enter",
        frame: OFFER,
        quote: Some(FLAGGED),
        orders: &[Row(2, Buy, 101_000, 100)],
        slips: &[Trade(101_000, 100, 2, 0)],
        outcome: Lit(Quote {
            ask_pieces: 400,
            ..FLAGGED
        }),
        left: &[],
    },
    // The first partner is the sell at 100,000, which is served without a question. Then the quote
    // is the partner and is asked, with 200 left.
    Case {
        name: "asked after a trade",
        frame: ENTER,
        quote: Some(FLAGGED),
        orders: &[Row(2, Sell, 100_000, 100), Row(3, Buy, 101_000, 300)],
        slips: &[Trade(100_000, 100, 3, 2)],
        outcome: Asked(FLAGGED, 3),
        left: &[Row(3, Buy, 101_000, 200)],
    },
    // While an RFE stands there is no tail: the execute-and-cancel sell stays.
    Case {
        name: "execute-and-cancel stays",
        frame: ENTER,
        quote: Some(FLAGGED),
        orders: &[Row(2, BriefSell, 99_000, 50)],
        slips: &[],
        outcome: Asked(FLAGGED, 2),
        left: &[Row(2, BriefSell, 99_000, 50)],
    },
    // 101,000 would be beyond Limit 2, but the question comes before any price test: no halt.
    Case {
        name: "asked before the limit",
        frame: TIGHT,
        quote: Some(FLAGGED),
        orders: &[Row(2, Buy, 101_000, 100)],
        slips: &[],
        outcome: Asked(FLAGGED, 2),
        left: &[Row(2, Buy, 101_000, 100)],
    },
    // 100,500 does not reach the ask. Step B pairs the two at the price of ticket 2, and the quote
    // is not asked.
    Case {
        name: "no taker",
        frame: ENTER,
        quote: Some(FLAGGED),
        orders: &[Row(2, Sell, 100_000, 100), Row(3, Buy, 100_500, 100)],
        slips: &[Trade(100_000, 100, 3, 2)],
        outcome: Lit(FLAGGED),
        left: &[],
    },
    // The sell at 100,900 ranks ahead of the ask and serves all 300: the quote is not asked.
    Case {
        name: "an order serves it all",
        frame: ENTER,
        quote: Some(FLAGGED),
        orders: &[Row(2, Sell, 100_900, 300), Row(3, Buy, 101_000, 300)],
        slips: &[Trade(100_900, 300, 3, 2)],
        outcome: Lit(FLAGGED),
        left: &[],
    },
];

#[test]
fn a_flagged_quote_is_asked_from_enter_only(rt: HostRuntime) {
    run_all(&rt, &ByTime, &CASES);
}
