// The tail of a cross.
ghost use Rattle.std.specs.Prelude.{◌≡◌};
ghost use Rattle.book.specs.Moves.{sweep};

use crate::moves::Move;
use crate::ranking::Ranking;
use crate::situation::Situation;
use crate::slip::Cause;

impl<'a, R: Ranking> Situation<'a, R> {
    // Execute-and-cancel orders go out, lowest ticket first.
    pub(crate) fn sweep(&self) -> Move
        ensures { result ≡ sweep (R.Ranking.ranks self.now.ranking.now) self.now.table.now.rows }
    {
        self.brief().map_or(
            Move::Stop,
            |found| Move::Strike {
                cause: Cause::Expired,
                found,
            },
        )
    }
}
