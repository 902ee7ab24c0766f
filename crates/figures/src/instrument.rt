// The instrument of a day, and what the figures of its orders and quotes have to be: the first fault, in
// the order of the tests.
ghost use Rattle.std.specs.Prelude.{◌≡◌};
ghost use Rattle.figures.specs.Checks.{beyond_check, order_check, pieces_check, price_check, quote_check};

use crate::check::check;
use crate::fault::{Field, FiguresFault};
use crate::limit::is_within;
use crate::offer::Offer;
use crate::pieces::are_allowed;
use crate::price::is_price;
use crate::sheet::Sheet;

// A sheet, and the reference price that it is read at. Price and pieces stay apart in every call: no test needs both
// but the last, and a struct would be made for it alone.
#[derive(Drop)]
pub struct Instrument<'a, S: Sheet> {
    pub sheet: &'a S,
    pub reference: u32,
}

fn check_price(price: u32, field: Field) -> Result<(), FiguresFault>
    ensures { result ≡ price_check price field }
{
    check(is_price(price), FiguresFault::Price(field))
}

impl<'a, S: Sheet> Instrument<'a, S> {
    fn check_beyond(&self, price: u32, field: Field) -> Result<(), FiguresFault>
        ensures { result ≡ beyond_check (S.Sheet.means self.now.sheet.now) self.now.reference price field }
    {
        let limit = self.sheet.limit_one(self.reference);
        check(
            is_within(price, self.reference, limit),
            FiguresFault::Beyond(field),
        )
    }

    fn check_pieces(&self, price: u32, pieces: u32, field: Field) -> Result<(), FiguresFault>
        ensures { result ≡ pieces_check (S.Sheet.means self.now.sheet.now) self.now.reference price pieces field }
    {
        let turnover = self.sheet.turnover(self.reference);
        check(
            are_allowed(pieces, price, self.reference, turnover),
            FiguresFault::Pieces(field),
        )
    }

    // Price, Limit 1, pieces.
    pub fn check_order(&self, price: u32, pieces: u32) -> Result<(), FiguresFault>
        ensures { result ≡ order_check (S.Sheet.means self.now.sheet.now) self.now.reference price pieces }
    {
        check_price(price, Field::Price)?;
        self.check_beyond(price, Field::Price)?;
        self.check_pieces(price, pieces, Field::Pieces)
    }

    // Prices, bid below ask, Limit 1, pieces: in each the bid before the ask.
    pub fn check_quote(&self, offer: Offer) -> Result<(), FiguresFault>
        ensures { result ≡ quote_check (S.Sheet.means self.now.sheet.now) self.now.reference offer }
    {
        check_price(offer.bid, Field::Price)?;
        check_price(offer.ask, Field::Ask)?;
        check(offer.bid < offer.ask, FiguresFault::Crossed)?;
        self.check_beyond(offer.bid, Field::Price)?;
        self.check_beyond(offer.ask, Field::Ask)?;
        self.check_pieces(offer.bid, offer.bid_pieces, Field::Pieces)?;
        self.check_pieces(offer.ask, offer.ask_pieces, Field::AskPieces)
    }
}
