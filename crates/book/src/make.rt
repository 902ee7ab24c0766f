// A move is carried out: only the rows that it names are written.
ghost use Rattle.std.specs.Prelude.{◌≡◌};
ghost use Rattle.book.specs.Makers.{board_with};
ghost use Rattle.book.specs.Makes.{after, lower_party};

use crate::crossed::Maker;
use crate::moves::{Move, Party};
use crate::side::Side;
use crate::table::Table;

impl Table {
    // One party of a trade has fewer pieces.
    fn serve(&mut self, side: Side, party: Party, pieces: u32, maker: &mut Maker)
        ensures { board_with self.new.rows maker.new ≡ lower_party side pieces party (board_with self.old.rows maker.old) }
    {
        match party {
            Some(found) => self.lower(found, pieces),
            None => {
                if let Maker::Stands(quote) = *maker {
                    *maker = Maker::from(quote.lower(side, pieces));
                }
            }
        }
    }

    pub(crate) fn make(&mut self, next: Move, maker: &mut Maker)
        ensures { board_with self.new.rows maker.new ≡ after next (board_with self.old.rows maker.old) }
    {
        match next {
            Move::Stop | Move::Ask(_) => {}
            Move::Deal {
                buyer,
                seller,
                price: _,
                pieces,
            } => {
                self.serve(Side::Buy, buyer, pieces, maker);
                self.serve(Side::Sell, seller, pieces, maker);
            }
            Move::Strike { cause: _, found } => self.blank(found.place),
            Move::Halt(found) => {
                self.blank(found.place);
                *maker = Maker::Halted;
            }
        }
    }
}
