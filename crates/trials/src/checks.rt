// The figures of orders and quotes: each refusal, and which comes first.
use crate::refusals::{self, said};
use figures::instrument::Instrument;
use figures::offer::Offer;
use figures::refusal::{Layer, Refusal};
use figures::sender::check_sender;
use figures::sheet::product::Product;

const INSTRUMENT: Instrument<'static, Product> = Instrument {
    sheet: &Product::Leveraged,
    reference: 100_000,
};

fn sender(number: u32) -> Option<Refusal> {
    said(check_sender(number))
}

fn order(price: u32, pieces: u32) -> Option<Refusal> {
    said(INSTRUMENT.check_order(price, pieces))
}

fn quote(bid: u32, bid_pieces: u32, ask: u32, ask_pieces: u32) -> Option<Refusal> {
    said(INSTRUMENT.check_quote(Offer {
        bid,
        bid_pieces,
        ask,
        ask_pieces,
    }))
}

// Every refusal here is one of the figures.
fn refused(number: u32, field: u32) -> Option<Refusal> {
    refusals::refused(number, Layer::Figures, field)
}

#[test]
fn senders_are_1_to_99999(rt: HostRuntime) {
    assert_eq!(rt; sender(1), None);
    assert_eq!(rt; sender(99_999), None);
    assert_eq!(rt; sender(0), refused(2, 5));
    assert_eq!(rt; sender(100_000), refused(2, 5));
}

#[test]
fn an_order_is_tested_for_price_then_limit_then_pieces(rt: HostRuntime) {
    assert_eq!(rt; order(100_000, 500_000), None);
    assert_eq!(rt; order(100_000, 500_001), refused(7, 2));
    assert_eq!(rt; order(100_000, 0), refused(7, 2));
    assert_eq!(rt; order(200_000, 250_000), None);
    assert_eq!(rt; order(200_000, 250_001), refused(7, 2));
    assert_eq!(rt; order(200_100, 0), refused(6, 1));
    assert_eq!(rt; order(100, 1), None);
    assert_eq!(rt; order(100_050, 0), refused(5, 1));
    assert_eq!(rt; order(300_050, 0), refused(5, 1));
}

#[test]
fn a_quote_is_tested_number_by_number_bid_before_ask(rt: HostRuntime) {
    assert_eq!(rt; quote(99_000, 500, 101_000, 500), None);
    assert_eq!(rt; quote(99_050, 0, 300_050, 0), refused(5, 1));
    assert_eq!(rt; quote(99_000, 0, 300_050, 0), refused(5, 3));
    assert_eq!(rt; quote(300_000, 0, 300_000, 0), refused(11, 3));
    assert_eq!(rt; quote(250_000, 0, 300_000, 0), refused(6, 1));
    assert_eq!(rt; quote(99_000, 0, 300_000, 0), refused(6, 3));
    assert_eq!(rt; quote(99_000, 0, 101_000, 0), refused(7, 2));
    assert_eq!(rt; quote(99_000, 1, 101_000, 0), refused(7, 4));
}

#[test]
fn the_widest_numbers_are_refused_and_nothing_overflows(rt: HostRuntime) {
    let most = u32::MAX;
    assert_eq!(rt; sender(most), refused(2, 5));
    assert_eq!(rt; order(most, most), refused(5, 1));
    assert_eq!(rt; quote(most, most, most, most), refused(5, 1));
}
