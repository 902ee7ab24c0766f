// Step A: an order that reaches the quote, and its partner.
ghost use Rattle.std.specs.Prelude.{◌≡◌};
ghost use Rattle.book.specs.Moves.{dealt, step_a, trading, with_order, with_quote};

use crate::found::Found;
use crate::frame::Frame;
use crate::moves::{Move, Party};
use crate::proposal::Proposal;
use crate::quote::Quote;
use crate::ranking::Ranking;
use crate::side::Side;
use crate::situation::Situation;

// The taker's side decides who buys.
fn deal(side: Side, taker: Party, partner: Party, price: u32, pieces: u32) -> Move
    ensures { result ≡ dealt side taker partner price pieces }
{
    let (buyer, seller) = match side {
        Side::Buy => (taker, partner),
        Side::Sell => (partner, taker),
    };
    Move::Deal {
        buyer,
        seller,
        price,
        pieces,
    }
}

// The side is told beside its taker: that it is the taker's own is known only where it was searched for.
impl Frame {
    // A trade at the partner's price, of the smaller number of pieces.
    #[tactic(auto, unfolding(crate::specs::Moves::trading))]
    fn trade(self, side: Side, taker: Found, partner: Party, proposal: Proposal) -> Move
        ensures { result ≡ trading self side taker partner proposal }
    {
        let pieces = taker.order.pieces.min(proposal.pieces);
        let trade = deal(side, Some(taker), partner, proposal.price, pieces);
        self.or_halt(proposal.price, trade, taker)
    }

    // A flagged quote is asked before any test of the price.
    fn with_quote(self, quote: Quote, side: Side, taker: Found) -> Move
        ensures { result ≡ with_quote self quote side taker }
    {
        if quote.flagged && self.entered {
            Move::Ask(taker.order.ticket)
        } else {
            self.trade(side, taker, None, quote.side(side.opposite()))
        }
    }

    fn with_order(self, side: Side, taker: Found, partner: Found) -> Move
        ensures { result ≡ with_order self side taker partner }
    {
        self.trade(side, taker, Some(partner), partner.order.proposal())
    }
}

impl<'a, R: Ranking> Situation<'a, R> {
    // The partner is the quote, unless an order ranks ahead of it.
    pub(crate) fn step_a(&self, quote: Quote, side: Side, taker: Found) -> Move
        ensures { result ≡ step_a (R.Ranking.ranks self.now.ranking.now) self.now.frame self.now.table.now.rows quote side taker }
    {
        let other = side.opposite();
        let ahead = self.partner(other, quote).filter(|partner| {
            self.ranking
                .ahead(other, partner.order.proposal(), quote.side(other))
        });
        match ahead {
            Some(partner) => self.frame.with_order(side, taker, partner),
            None => self.frame.with_quote(quote, side, taker),
        }
    }
}
