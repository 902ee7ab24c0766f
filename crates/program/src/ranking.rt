// The ranking that an opening chooses: an enum over two types, since a caller who knows the ranking takes its type.
ghost use Rattle.std.specs.Prelude.{◌≡◌};
ghost use Rattle.std.specs.Result.{result_ok};
ghost use Rattle.program.specs.Rankings.{ranking_means};
ghost use Rattle.program.specs.Openings.{ranking_of};
ghost use Rattle.std.proofs.Common.{rules};

use book::proposal::Proposal;
use book::ranking::Ranking;
use book::ranking::by_size::BySize;
use book::ranking::by_time::ByTime;
use book::side::Side;
use records::line::Unreadable;

#[derive(Clone, Copy, PartialEq, Eq, Debug)]
pub enum RankingKind {
    ByTime,
    BySize,
}

impl Ranking for RankingKind {
    ghost ranks = { ranking_means };

    ghost lawful = { Prim.search rules };

    fn ahead(&self, side: Side, a: Proposal, b: Proposal) -> bool {
        match self {
            RankingKind::ByTime => ByTime.ahead(side, a, b),
            RankingKind::BySize => BySize.ahead(side, a, b),
        }
    }
}

impl TryFrom<u32> for RankingKind {
    type Error = Unreadable;

    ghost try_from_gives = { λ number r. result_ok r ≡ ranking_of number };

    fn try_from(number: u32) -> Result<RankingKind, Unreadable> {
        match number {
            1 => Ok(RankingKind::ByTime),
            2 => Ok(RankingKind::BySize),
            _ => Err(Unreadable),
        }
    }
}
