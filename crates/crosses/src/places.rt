// Places of the table, and numbers.
use crate::case::Mark::{Buy, Sell};
use crate::case::Row;
use book::admit::{admit_order, admit_quote, next_number};
use book::fault::BookFault;
use book::order::Order;
use book::table::Table;
use figures::fault::{Field, FiguresFault};
use figures::instrument::Instrument;
use figures::offer::Offer;
use figures::sheet::product::Product;
use std::process::Abort;
use std::test::Fail;

const INSTRUMENT: Instrument<'static, Product> = Instrument {
    sheet: &Product::Leveraged,
    reference: 100_000,
};

fn full(rt: &impl Abort) -> Result<Table, BookFault> {
    let mut table = Table::new();
    // tickets, and no places of a list
    for ticket in 2..130u32 {
        assert!(rt; !table.is_full());
        table.place(Order::from(Row(ticket, Buy, 100_000, 10)))?;
    }
    Ok(table)
}

// The place that an order is taken out of.
fn freed(table: &mut Table, ticket: u32) -> Result<usize, BookFault> {
    table.cancel(7, ticket).map(|found| found.place)
}

// 128 orders have a place each and the next has none. Ticket 50 stands in place 48: once it is taken
// out, the next order goes there.
#[test]
fn a_freed_place_is_used_again(rt: HostRuntime) -> Result<(), Fail> {
    let mut table = full(&rt)?;
    assert_eq!(rt; table.standing(), 128);
    let next = Order::from(Row(200, Sell, 100_000, 10));
    assert_eq!(rt; table.place(next), Err(BookFault::Full));
    assert_eq!(rt; freed(&mut table, 50), Ok(48));
    assert_eq!(rt; table.standing(), 127);
    table.place(next)?;
    assert_eq!(rt; freed(&mut table, 200), Ok(48));
    Ok(())
}

#[test]
fn only_the_sender_finds_an_order(rt: HostRuntime) -> Result<(), Fail> {
    let mut table = Table::new();
    table.place(Order::from(Row(4, Buy, 100_000, 10)))?;
    assert!(rt; table.find(7, 4).is_some());
    assert!(rt; table.find(8, 4).is_none());
    assert!(rt; table.find(7, 5).is_none());
    assert!(rt; table.cancel(8, 4).is_err());
    assert_eq!(rt; table.standing(), 1);
    assert!(rt; table.cancel(7, 4).is_ok());
    assert!(rt; table.cancel(7, 4).is_err());
    Ok(())
}

#[test]
fn numbers_end_at_a_million(rt: HostRuntime) {
    assert_eq!(rt; next_number(0), Ok(1));
    assert_eq!(rt; next_number(999_999), Ok(1_000_000));
    assert_eq!(rt; next_number(1_000_000), Err(BookFault::NumbersUsed));
}

// Figures come first, then the places, then the numbers.
#[test]
fn the_first_fault_is_given(rt: HostRuntime) -> Result<(), Fail> {
    let table = full(&rt)?;
    let empty = Table::new();
    assert_eq!(rt;
        admit_order(&INSTRUMENT, 100_050, 1, &table, 1_000_000),
        Err(BookFault::Figures(FiguresFault::Price(Field::Price)))
    );
    assert_eq!(rt;
        admit_order(&INSTRUMENT, 100_000, 1, &table, 1_000_000),
        Err(BookFault::Full)
    );
    assert_eq!(rt;
        admit_order(&INSTRUMENT, 100_000, 1, &empty, 1_000_000),
        Err(BookFault::NumbersUsed)
    );
    assert_eq!(rt; admit_order(&INSTRUMENT, 100_000, 1, &empty, 7), Ok(8));
    Ok(())
}

#[test]
fn a_quote_needs_no_place(rt: HostRuntime) {
    let offer = Offer {
        bid: 99_000,
        bid_pieces: 1,
        ask: 101_000,
        ask_pieces: 1,
    };
    let crossed = Offer {
        ask: 99_000,
        ..offer
    };
    assert_eq!(rt; admit_quote(&INSTRUMENT, offer, 7), Ok(8));
    assert_eq!(rt;
        admit_quote(&INSTRUMENT, offer, 1_000_000),
        Err(BookFault::NumbersUsed)
    );
    assert_eq!(rt;
        admit_quote(&INSTRUMENT, crossed, 7),
        Err(BookFault::Figures(FiguresFault::Crossed))
    );
}
