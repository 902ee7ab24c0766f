// Which of two proposals of one side ranks ahead.
ghost use Rattle.std.specs.Prelude.{◌≡◌, Bool};
ghost use Rattle.book.specs.declared.proposal.Proposal.{Proposal};
ghost use Rattle.book.specs.declared.side.Side.{Side};
ghost use Rattle.book.specs.Ranks.{RankLaw, better};

use crate::proposal::Proposal;
use crate::side::Side;

// A ranking answers what it means, and refuses and alters nothing. It may carry data of its own. The side and
// the two proposals are its one question.
pub trait Ranking: Drop {
    ghost ranks: { Self → Side → Proposal → Proposal → Bool };

    fn ahead(&self, side: Side, a: Proposal, b: Proposal) -> bool
        ensures { result ≡ ranks self.now side a b };

    ghost lawful: { (k : Self) → RankLaw (ranks k) };
}

// Whether price `a` is the better one for a proposal of the side.
pub fn is_better(side: Side, a: u32, b: u32) -> bool
    ensures { result ≡ better side a b }
{
    match side {
        Side::Buy => b < a,
        Side::Sell => a < b,
    }
}

pub mod by_size;
pub mod by_time;
