// Step B: the first-ranked buy and the first-ranked sell.
ghost use Rattle.std.specs.Prelude.{◌≡◌};
ghost use Rattle.book.specs.Moves.{elder, pairing, step_b, younger};

use crate::found::Found;
use crate::frame::Frame;
use crate::moves::Move;
use crate::ranking::Ranking;
use crate::side::Side;
use crate::situation::Situation;
use crate::slip::Cause;

// Two orders, the one with the lower ticket first.
fn by_ticket(a: Found, b: Found) -> (Found, Found)
    ensures { result ≡ (elder a b, younger a b) }
{
    if a.order.ticket < b.order.ticket {
        (a, b)
    } else {
        (b, a)
    }
}

impl Frame {
    // The price is that of the lower ticket. Outside the governing quote it strikes the higher one, and
    // this is tested before Limit 2.
    fn pair(self, buy: Found, sell: Found) -> Move
        ensures { result ≡ pairing self buy sell }
    {
        let (elder, younger) = by_ticket(buy, sell);
        let price = elder.order.price;
        if self.is_in_quote(price) {
            let trade = Move::Deal {
                buyer: Some(buy),
                seller: Some(sell),
                price,
                pieces: buy.order.pieces.min(sell.order.pieces),
            };
            self.or_halt(price, trade, younger)
        } else {
            Move::Strike {
                cause: Cause::OutsideQuote,
                found: younger,
            }
        }
    }
}

impl<'a, R: Ranking> Situation<'a, R> {
    // Where no pair is left the tail follows.
    pub(crate) fn step_b(&self) -> Move
        ensures { result ≡ step_b (R.Ranking.ranks self.now.ranking.now) self.now.frame self.now.table.now.rows }
    {
        match (self.first(Side::Buy), self.first(Side::Sell)) {
            (Some(b), Some(s)) if s.order.price <= b.order.price => self.frame.pair(b, s),
            _ => self.sweep(),
        }
    }
}
