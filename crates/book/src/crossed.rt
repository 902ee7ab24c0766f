// What a cross answers, and how the Specialist's side stands on its way.
ghost use Rattle.std.specs.Prelude.{◌≡◌, false};
ghost use Rattle.book.specs.Makers.{is_halted, quote_of};
ghost use Rattle.book.specs.Turns.{end_with};

use crate::quote::Quote;

// How a cross leaves the Specialist's side.
#[derive(Clone, Copy, PartialEq, Eq)]
pub enum Outcome {
    // no quote stands
    Dark,
    Lit(Quote),
    // the quote is asked about, and the ticket opened the RFE
    Asked(Quote, u32),
    // a trade would have been beyond Limit 2, and no quote stands
    Halted,
}

// How many slips a cross wrote, and what it left of the quote.
#[derive(Clone, Copy, PartialEq, Eq)]
pub struct Crossed {
    pub count: usize,
    pub outcome: Outcome,
}

// The Specialist's side during a cross. Halted says that a trade would have been beyond Limit 2: the
// quote is gone and the steps are over.
#[derive(Clone, Copy)]
pub(crate) enum Maker {
    Gone,
    Stands(Quote),
    Halted,
}

impl From<Option<Quote>> for Maker {
    ghost from_gives = { λ quote maker. (quote_of maker ≡ quote) × (is_halted maker ≡ false) };

    fn from(quote: Option<Quote>) -> Maker {
        quote.map_or(Maker::Gone, Maker::Stands)
    }
}

impl Maker {
    // The quote that stands.
    pub(crate) fn quote(self) -> Option<Quote>
        ensures { result ≡ quote_of self }
    {
        match self {
            Maker::Stands(quote) => Some(quote),
            Maker::Gone | Maker::Halted => None,
        }
    }

    // What a cross answers that ends here. Only a quote that stands is asked about.
    pub(crate) fn end(self, count: usize, asked: Option<u32>) -> Crossed
        ensures { result ≡ end_with count asked self }
    {
        let outcome = match (self, asked) {
            (Maker::Stands(quote), Some(ticket)) => Outcome::Asked(quote, ticket),
            (Maker::Stands(quote), None) => Outcome::Lit(quote),
            (Maker::Gone, _) => Outcome::Dark,
            (Maker::Halted, _) => Outcome::Halted,
        };
        Crossed { count, outcome }
    }
}
