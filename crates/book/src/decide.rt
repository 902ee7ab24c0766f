// The next move of a cross.
ghost use Rattle.std.specs.Prelude.{◌≡◌};
ghost use Rattle.book.specs.Makers.{board_with};
ghost use Rattle.book.specs.Moves.{next, steps};

use crate::crossed::Maker;
use crate::moves::Move;
use crate::quote::Quote;
use crate::ranking::Ranking;
use crate::side::Side;
use crate::situation::Situation;

impl<'a, R: Ranking> Situation<'a, R> {
    // While a quote stands and is reached it is step A: the taker is a buy, or with none a sell.
    fn steps(&self, quote: Option<Quote>) -> Move
        ensures { result ≡ steps (R.Ranking.ranks self.now.ranking.now) self.now.frame self.now.table.now.rows quote }
    {
        let Some(quote) = quote else {
            return self.step_b();
        };
        if let Some(taker) = self.taker(Side::Buy, quote) {
            self.step_a(quote, Side::Buy, taker)
        } else if let Some(taker) = self.taker(Side::Sell, quote) {
            self.step_a(quote, Side::Sell, taker)
        } else {
            self.step_b()
        }
    }

    // After a halt only the tail is left. No stage is kept: moves only take away, so none of the
    // later stages makes an earlier one possible again.
    #[tactic(auto, unfolding(crate::specs::Moves::next))]
    pub(crate) fn next(&self, maker: Maker) -> Move
        ensures { result ≡ next (R.Ranking.ranks self.now.ranking.now) self.now.frame (board_with self.now.table.now.rows maker) }
    {
        if matches!(maker, Maker::Halted) {
            self.sweep()
        } else {
            self.steps(maker.quote())
        }
    }
}
