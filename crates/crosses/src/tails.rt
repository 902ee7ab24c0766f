// The tail: what is left of execute-and-cancel orders goes out.
use crate::case::Line::{Expired, Trade};
use crate::case::Mark::{BriefBuy, BriefSell, Buy, Sell};
use crate::case::{BLANK, Case, ENTER, OFFER, PLAIN, Row, run_all};
use book::crossed::Outcome::{Dark, Lit};
use book::fault::BookFault;
use book::order::Order;
use book::quote::Quote;
use book::ranking::by_time::ByTime;
use book::slip::Slip;
use book::table::Table;
use std::ops::Range;
use std::test::Fail;

const CASES: [Case; 3] = [
    // The ask serves 500 of 700 and goes. The tail takes the 200 that are left.
    Case {
        name: "a part is left",
        frame: ENTER,
        quote: Some(PLAIN),
        orders: &[Row(2, BriefBuy, 101_000, 700)],
        slips: &[Trade(101_000, 500, 2, 0), Expired(2, 200)],
        outcome: Dark,
        left: &[],
    },
    // The buy does not reach the ask and meets no sell at its price. The sell is no execute-and-
    // cancel order and stays.
    Case {
        name: "nothing traded",
        frame: ENTER,
        quote: Some(PLAIN),
        orders: &[Row(2, Sell, 102_000, 10), Row(3, BriefBuy, 100_000, 10)],
        slips: &[Expired(3, 10)],
        outcome: Lit(PLAIN),
        left: &[Row(2, Sell, 102_000, 10)],
    },
    // No buy is at or above a sell. Neither place nor side nor price counts: 3, 4, 5.
    Case {
        name: "by ticket alone",
        frame: OFFER,
        quote: Some(PLAIN),
        orders: &[
            Row(5, BriefSell, 102_000, 1),
            Row(3, BriefBuy, 100_000, 2),
            Row(4, BriefSell, 103_000, 3),
            Row(2, Buy, 100_000, 4),
        ],
        slips: &[Expired(3, 2), Expired(4, 3), Expired(5, 1)],
        outcome: Lit(PLAIN),
        left: &[Row(2, Buy, 100_000, 4)],
    },
];

#[test]
fn what_is_left_goes_out_lowest_ticket_first(rt: HostRuntime) {
    run_all(&rt, &ByTime, &CASES);
}

// 128 execute-and-cancel buys of two pieces, their tickets 1 to 128 in mixed order.
fn crowd() -> Result<Table, BookFault> {
    let mut table = Table::new();
    // numbers that make tickets, and no places of a list
    for i in 0..128u32 {
        table.place(Order::from(Row(i * 37 % 128 + 1, BriefBuy, 101_000, 2)))?;
    }
    Ok(table)
}

// Whether the slips take these tickets out one after another, with two pieces each.
fn go_out(slips: &[Slip], tickets: Range<u32>) -> bool {
    slips
        .iter()
        .zip(tickets)
        .all(|(slip, ticket)| *slip == Slip::from(Expired(ticket, 2)))
}

// With no quote and no sell nothing trades, and all go out, lowest ticket first.
#[test]
fn a_tail_takes_128_orders_out(rt: HostRuntime) -> Result<(), Fail> {
    let mut table = crowd()?;
    let mut list = [BLANK; 129];
    let crossed = table.cross(&ByTime, OFFER, None, &mut list);
    assert_eq!(rt; crossed.count, 128);
    assert_eq!(rt; table.standing(), 0);
    assert!(rt; go_out(&list, 1..129));
    assert!(rt; list[128] == BLANK);
    Ok(())
}

// One piece of the ask: ticket 1 gets it and the quote goes. Then all 128 go out, ticket 1 with the
// piece that is left.
#[test]
fn a_cross_writes_129_slips(rt: HostRuntime) -> Result<(), Fail> {
    let mut table = crowd()?;
    let quote = Quote {
        number: 129,
        bid_pieces: 1,
        ask_pieces: 1,
        ..PLAIN
    };
    let mut list = [BLANK; 129];
    let crossed = table.cross(&ByTime, OFFER, Some(quote), &mut list);
    assert_eq!(rt; crossed.count, 129);
    assert_eq!(rt; table.standing(), 0);
    assert!(rt; crossed.outcome == Dark);
    assert!(rt; list[0] == Slip::from(Trade(101_000, 1, 1, 0)));
    assert!(rt; list[1] == Slip::from(Expired(1, 1)));
    assert!(rt; go_out(&list[2..], 2..129));
    Ok(())
}
