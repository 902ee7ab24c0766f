// The day that is open on the desk.
use figures::sheet::product::Product;
use program::paper::blank_paper;
use program::ranking::RankingKind;
use session::open_book::Book;
use session::summons::Summons;

// The summons is that of the open RFE, or a blank. No `impl Model` shows a `Seat`, which holds functions: what
// the sheet and the ranking mean.
pub struct OpenDay {
    book: Book<Product, RankingKind>,
    summons: Summons,
}

// A day that is given up is closed too, and its summons declined: neither could be let go otherwise.
impl Drop for OpenDay {
    fn drop(self) {
        let OpenDay {
            mut book,
            mut summons,
        } = self;
        let mut paper = blank_paper();
        let _ = book.decline(&mut summons, &mut paper);
        let _ = book.close();
    }
}

pub mod work;
