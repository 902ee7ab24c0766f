// Price, then lower number.
ghost use Rattle.book.specs.Ranks.{by_time};
ghost use Rattle.std.proofs.Common.{rules};

use crate::proposal::Proposal;
use crate::ranking::{Ranking, is_better};
use crate::side::Side;

#[derive(Clone, Copy)]
pub struct ByTime;

impl Ranking for ByTime {
    ghost ranks = { λ _. by_time };

    ghost lawful = { Prim.search rules };

    fn ahead(&self, side: Side, a: Proposal, b: Proposal) -> bool {
        if a.price == b.price {
            a.number < b.number
        } else {
            is_better(side, a.price, b.price)
        }
    }
}
