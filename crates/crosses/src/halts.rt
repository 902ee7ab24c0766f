// Pairs beyond Limit 2: an order goes out, the quote goes, and only the tail is left.
use crate::case::Line::{Beyond, Expired, Outside, Trade};
use crate::case::Mark::{BriefBuy, BriefSell, Buy, Sell};
use crate::case::{Case, ENDED, ENTER, PLAIN, Row, TIGHT, run_all};
use book::crossed::Outcome::{Dark, Halted, Lit};
use book::frame::Frame;
use book::quote::Quote;
use book::ranking::by_time::ByTime;

// Around 60,000 a limit of 50 percent allows 30,000 to 90,000.
const FAR: Frame = Frame {
    dynamic: 60_000,
    ..ENDED
};

// A limit of 1 percent allows 99,000 to 101,000.
const EDGE: Frame = Frame { limit: 1, ..ENTER };

const CASES: [Case; 8] = [
    // The partner of buy 2 is the ask, which is beyond: the taker goes out, and so does the quote.
    // Step B does not run, though 100,900 is above 100,800. The tail takes both, lower ticket
    // first.
    Case {
        name: "step A, then the tail",
        frame: FAR,
        quote: Some(PLAIN),
        orders: &[
            Row(2, Buy, 101_000, 100),
            Row(3, BriefSell, 100_800, 40),
            Row(4, BriefBuy, 100_900, 30),
        ],
        slips: &[Beyond(2, 100), Expired(3, 40), Expired(4, 30)],
        outcome: Halted,
        left: &[],
    },
    // The same with plain orders: buy 4 and sell 3 would pair, but the steps are over.
    Case {
        name: "step A, others stay",
        frame: FAR,
        quote: Some(PLAIN),
        orders: &[
            Row(2, Buy, 101_000, 100),
            Row(3, Sell, 100_000, 10),
            Row(4, Buy, 100_500, 20),
        ],
        slips: &[Beyond(2, 100)],
        outcome: Halted,
        left: &[Row(3, Sell, 100_000, 10), Row(4, Buy, 100_500, 20)],
    },
    // Sell 3 takes, and its partner is buy 2 at 99,500, which is beyond: the taker goes out and
    // the partner stays.
    Case {
        name: "step A with an order",
        frame: TIGHT,
        quote: Some(PLAIN),
        orders: &[Row(2, Buy, 99_500, 50), Row(3, Sell, 98_000, 20)],
        slips: &[Beyond(3, 20)],
        outcome: Halted,
        left: &[Row(2, Buy, 99_500, 50)],
    },
    // 100,000 is allowed and trades. Then the ask is beyond, and the taker goes out with the 200
    // that are left.
    Case {
        name: "a trade, then a halt",
        frame: TIGHT,
        quote: Some(PLAIN),
        orders: &[Row(2, Sell, 100_000, 100), Row(3, Buy, 101_000, 300)],
        slips: &[Trade(100_000, 100, 3, 2), Beyond(3, 200)],
        outcome: Halted,
        left: &[],
    },
    // The best buy is ticket 2, and 101,000 is within the governing quote but beyond the limit:
    // the higher ticket, 3, goes out. The tail takes 4.
    Case {
        name: "step B, then the tail",
        frame: TIGHT,
        quote: None,
        orders: &[
            Row(2, Buy, 101_000, 100),
            Row(3, Sell, 100_000, 60),
            Row(4, BriefBuy, 100_500, 10),
        ],
        slips: &[Beyond(3, 60), Expired(4, 10)],
        outcome: Halted,
        left: &[Row(2, Buy, 101_000, 100)],
    },
    // Neither order reaches the quote. Their price is 100,500, beyond 90,000: ticket 3 goes out
    // and the quote goes too.
    Case {
        name: "step B with a quote",
        frame: FAR,
        quote: Some(PLAIN),
        orders: &[Row(2, Sell, 100_500, 100), Row(3, Buy, 100_800, 50)],
        slips: &[Beyond(3, 50)],
        outcome: Halted,
        left: &[Row(2, Sell, 100_500, 100)],
    },
    // 105,000 is outside the governing quote and beyond the limit: cause 2, and no halt.
    Case {
        name: "outside comes first",
        frame: TIGHT,
        quote: None,
        orders: &[Row(2, Buy, 105_000, 100), Row(3, Sell, 95_000, 40)],
        slips: &[Outside(3, 40)],
        outcome: Dark,
        left: &[Row(2, Buy, 105_000, 100)],
    },
    // 1,000 is 1 percent of 100,000: 101,000 is still within.
    Case {
        name: "at the edge",
        frame: EDGE,
        quote: Some(PLAIN),
        orders: &[Row(2, Buy, 101_000, 100)],
        slips: &[Trade(101_000, 100, 2, 0)],
        outcome: Lit(Quote {
            ask_pieces: 400,
            ..PLAIN
        }),
        left: &[],
    },
];

#[test]
fn a_pair_beyond_the_limit_halts(rt: HostRuntime) {
    run_all(&rt, &ByTime, &CASES);
}
