// What a caller of the library can bring about and no record can: short lists, a notice, summonses of
// its own. A book cannot be let go open, so each test closes its own.
use crate::refusals::{refused, said};
use book::ranking::by_time::ByTime;
use book::side::Side;
use book::slip::Slip;
use figures::offer::Offer;
use figures::refusal::Layer;
use figures::sheet::notice::Notice;
use figures::sheet::product::Product;
use session::answer::Answer;
use session::entry::Entry;
use session::open_book::Book;
use session::particulars::Particulars;
use session::phase::PhaseKind;
use session::quotation::Quotation;
use session::summons::Summons;
use std::test::Fail;

// Flagged, so that an order that reaches it opens an RFE.
const FLAGGED: Quotation = Quotation {
    offer: Offer {
        bid: 99_000,
        bid_pieces: 500,
        ask: 101_000,
        ask_pieces: 500,
    },
    flagged: true,
};

const NOTHING: Slip = Slip::Trade {
    price: 0,
    pieces: 0,
    buyer: 0,
    seller: 0,
};

fn buy(price: u32, pieces: u32) -> Entry {
    Entry {
        sender: 8,
        side: Side::Buy,
        price,
        pieces,
        brief: false,
    }
}

// Every call that can give slips, with one place too few, in a book that an RFE is open in.
#[test]
fn a_short_list_is_refused_first_of_all(rt: HostRuntime) -> Result<(), Fail> {
    let particulars = Particulars::new(100_000, 10)?;
    let mut book = Book::open(particulars, Product::Leveraged, ByTime);
    let mut out = [NOTHING; 129];
    let _ = book.quote(FLAGGED, &mut out);
    let _ = book.enter(buy(101_000, 100), &mut out);
    let before = book.status();
    let mut blank = Summons::blank();
    let short = &mut out[1..];
    let refusals = [
        said(book.enter(buy(0, 0), short)),
        said(book.cancel(0, 0, short)),
        said(book.quote(FLAGGED, short)),
        said(book.withdraw(short)),
        said(book.validate(&mut blank, FLAGGED, short)),
        said(book.decline(&mut blank, short)),
        said(book.clock(86_401, short)),
    ];
    for refusal in refusals {
        assert_eq!(rt; refusal, refused(1, Layer::Session, 0));
    }
    assert_eq!(rt; book.status(), before);
    let _ = book.close();
    Ok(())
}

// Limit 1 of 10 percent, Limit 2 of 5, a turnover of 1,000: at the reference 100,000 a price may be
// 90,000 to 110,000, and 90 pieces at 110,000 are 9,900,000 of at most 10,000,000 points.
#[test]
fn a_book_goes_by_its_notice(rt: HostRuntime) -> Result<(), Fail> {
    let notice = Notice::new(10, 5, 1_000)?;
    let particulars = Particulars::new(100_000, 10)?;
    let mut book = Book::open(particulars, notice, ByTime);
    let mut out = [NOTHING; 129];
    let few = Quotation {
        offer: Offer {
            bid_pieces: 90,
            ask_pieces: 90,
            ..FLAGGED.offer
        },
        flagged: false,
    };
    assert_eq!(rt; said(book.quote(few, &mut out)), None);
    assert_eq!(rt;
        said(book.enter(buy(110_100, 90), &mut out)),
        refused(6, Layer::Figures, 1)
    );
    assert_eq!(rt;
        said(book.enter(buy(110_000, 91), &mut out)),
        refused(7, Layer::Figures, 2)
    );
    assert_eq!(rt; said(book.enter(buy(110_000, 90), &mut out)), None);
    let _ = book.close();
    Ok(())
}

// What collect hands over; a decline that spends it keeps it from being let go unspent.
fn collected(book: &mut Book<Product, ByTime>, out: &mut [Slip; 129]) -> u32 {
    let mut summons = book.collect();
    let number = summons.number();
    let _ = book.decline(&mut summons, out);
    number
}

// Of three summonses, with no RFE, of the RFE and of the same again, only the second is none. The RFE
// is over by the clock when it is declined.
#[test]
fn a_summons_is_handed_over_once_and_spent_by_a_decline(rt: HostRuntime) -> Result<(), Fail> {
    let particulars = Particulars::new(100_000, 10)?;
    let mut book = Book::open(particulars, Product::Leveraged, ByTime);
    let mut out = [NOTHING; 129];
    assert_eq!(rt; collected(&mut book, &mut out), 0);
    let _ = book.quote(FLAGGED, &mut out);
    let _ = book.enter(buy(101_000, 100), &mut out);
    let mut summons = book.collect();
    assert_eq!(rt; summons.number(), 2);
    assert_eq!(rt; collected(&mut book, &mut out), 0);
    let _ = book.clock(10, &mut out);
    assert_eq!(rt;
        book.decline(&mut summons, &mut out),
        Ok(Answer {
            phase: PhaseKind::Dark,
            slips: 0,
            number: 0,
            dynamic: 100_000,
            opener: 0,
        })
    );
    assert_eq!(rt; summons.number(), 0);
    let _ = book.close();
    Ok(())
}
