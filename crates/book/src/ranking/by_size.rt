// Price, then more pieces left, then lower number.
ghost use Rattle.book.specs.Ranks.{by_size};
ghost use Rattle.std.proofs.Common.{rules};

use crate::proposal::Proposal;
use crate::ranking::Ranking;
use crate::ranking::by_time::ByTime;
use crate::side::Side;

#[derive(Clone, Copy)]
pub struct BySize;

impl Ranking for BySize {
    ghost ranks = { λ _. by_size };

    ghost lawful = { Prim.search rules };

    fn ahead(&self, side: Side, a: Proposal, b: Proposal) -> bool {
        if a.price == b.price && a.pieces != b.pieces {
            b.pieces < a.pieces
        } else {
            ByTime.ahead(side, a, b)
        }
    }
}
