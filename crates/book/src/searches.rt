// The orders that a move of a cross is about.
ghost use Rattle.std.specs.Prelude.{◌≡◌, Bool};
ghost use Rattle.book.specs.Firsts.{best};
ghost use Rattle.book.specs.Picks.{Any, Brief, Partner, Taking, earlier, picked, ranked};
ghost use Rattle.book.specs.Proposals.{Order};
ghost use Rattle.book.specs.Searches.{Tests};

use crate::first::best;
use crate::found::Found;
use crate::order::Order;
use crate::quote::Quote;
use crate::ranking::Ranking;
use crate::side::Side;
use crate::situation::Situation;

impl<'a, R: Ranking> Situation<'a, R> {
    // Of the orders that pass, the one that ranks ahead of the others on the side.
    fn leader<P: Fn(&Order) -> bool>(&self, side: Side, passes: P) -> Option<Found>
        requires passes { P.IsAlwaysCallable passes }
        ensures { (ok : Order → Bool) → Tests P.Fn passes ok → result ≡ best (ranked (R.Ranking.ranks self.now.ranking.now) side) ok self.now.table.now.rows }
    {
        let ranking = self.ranking;
        best(&self.table.rows, passes, |a, b| {
            ranking.ahead(side, a.proposal(), b.proposal())
        })
    }

    // The first-ranked order of the side.
    pub(crate) fn first(&self, side: Side) -> Option<Found>
        ensures { result ≡ best (ranked (R.Ranking.ranks self.now.ranking.now) side) (picked (Any side)) self.now.table.now.rows }
    {
        self.leader(side, |order| order.side == side)
    }

    // The first-ranked order of the side that reaches the quote.
    pub(crate) fn taker(&self, side: Side, quote: Quote) -> Option<Found>
        ensures { result ≡ best (ranked (R.Ranking.ranks self.now.ranking.now) side) (picked (Taking side quote)) self.now.table.now.rows }
    {
        self.leader(side, |order| {
            order.side == side && quote.is_reached(order, side)
        })
    }

    // The first-ranked order of the side that is priced from bid to ask, and settled.
    pub(crate) fn partner(&self, side: Side, quote: Quote) -> Option<Found>
        ensures { result ≡ best (ranked (R.Ranking.ranks self.now.ranking.now) side) (picked (Partner side quote self.now.frame.opener)) self.now.table.now.rows }
    {
        let opener = self.frame.opener;
        self.leader(side, |order| {
            order.side == side && order.is_settled(opener) && quote.spans(order.price)
        })
    }

    // The execute-and-cancel order with the lowest ticket.
    pub(crate) fn brief(&self) -> Option<Found>
        ensures { result ≡ best earlier (picked Brief) self.now.table.now.rows }
    {
        self.table.earliest(|order| order.brief)
    }
}
