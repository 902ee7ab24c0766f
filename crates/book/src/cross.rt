// The cross: one move after another, each with its slip.
ghost use Rattle.std.specs.Prelude.{◌≡◌, false};
ghost use Rattle.std.proofs.lemmas.List.Edits.{sets};
ghost use Rattle.book.specs.Cross.{Did, cross};
ghost use Rattle.book.specs.CrossLaws.{CrossLaws};
ghost use Rattle.book.specs.Sound.{Sound};
ghost use Rattle.book.specs.Makes.{board_of, slip};
ghost use Rattle.book.specs.Turns.{Turned};

use crate::crossed::{Crossed, Maker};
use crate::frame::Frame;
use crate::moves::{Move, traded};
use crate::put::put;
use crate::quote::Quote;
use crate::ranking::Ranking;
use crate::situation::Situation;
use crate::slip::{Cause, Slip};
use crate::table::Table;

// The slip of a move, if it has one. What has no place in the list is not written.
fn write(out: &mut [Slip], place: usize, next: Move)
    ensures { out.new ≡ sets out.old place (slip next) }
{
    match next {
        Move::Stop | Move::Ask(_) => {}
        Move::Deal {
            buyer,
            seller,
            price,
            pieces,
        } => put(out, place, traded(buyer, seller, price, pieces)),
        Move::Strike { cause, found } => put(out, place, found.gone(cause)),
        Move::Halt(found) => put(out, place, found.gone(Cause::BeyondLimit)),
    }
}

impl Table {
    // One move, with its slip at place `n`. The answer is that of the cross where it ends here.
    fn turn<R: Ranking>(
        &mut self,
        ranking: &R,
        frame: Frame,
        maker: &mut Maker,
        out: &mut [Slip],
        n: usize,
    ) -> Option<Crossed>
        ensures { Turned (R.Ranking.ranks ranking.now) frame n self.old.rows self.new.rows maker.old maker.new out.old out.new result }
    {
        let before = *maker;
        let next = Situation {
            table: self,
            ranking,
            frame,
        }
        .next(before);
        write(out, n, next);
        self.make(next, maker);
        next.end(n, before)
    }

    // Works the cross of the orders under the quote that stands, if one does. Every move but the last
    // takes an order or the quote away and writes one slip, so 129 moves are enough and the number of
    // a move is the place of its slip.
    pub fn cross<R: Ranking>(
        &mut self,
        ranking: &R,
        frame: Frame,
        quote: Option<Quote>,
        out: &mut [Slip],
    ) -> Crossed
        ensures is { Did (cross (R.Ranking.ranks ranking.now) frame (board_of self.old.rows quote false)) self.new.rows out.old out.new result }
        ensures lawful { Sound frame (board_of self.old.rows quote false) → CrossLaws (R.Ranking.ranks ranking.now) frame (board_of self.old.rows quote false) (cross (R.Ranking.ranks ranking.now) frame (board_of self.old.rows quote false)) }
    {
        let mut maker = Maker::from(quote);
        for n in 0..129 {
            if let Some(crossed) = self.turn(ranking, frame, &mut maker, out, n) {
                return crossed;
            }
        }
        maker.end(129, None)
    }
}
