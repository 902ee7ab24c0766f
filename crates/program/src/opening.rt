// What a day is opened with.
ghost use Rattle.std.specs.Prelude.{◌≡◌};
ghost use Rattle.std.specs.Result.{result_ok};
ghost use Rattle.program.specs.Openings.{opening_answer, opening_of, sheet_of};

use crate::ranking::RankingKind;
use crate::unused::empty_from_third;
use figures::check::check;
use figures::sheet::product::Product;
use records::line::{Line, Unreadable};
use session::answer::Answer;
use session::phase::PhaseKind;

#[derive(Clone, Copy, PartialEq, Eq, Debug)]
pub struct Opening {
    pub sheet: Product,
    pub ranking: RankingKind,
    pub reference: u32,
    pub reply: u32,
}

// No `TryFrom<u8>` beside Product, where no record is known and none is unreadable.
fn sheet_of(mark: u8) -> Result<Product, Unreadable>
    ensures { result_ok result ≡ sheet_of mark }
{
    match mark {
        b'L' => Ok(Product::Leveraged),
        b'I' => Ok(Product::Investment),
        _ => Err(Unreadable),
    }
}

// O: the sheet's mark, the reply time, the reference, the ranking.
impl TryFrom<Line> for Opening {
    type Error = Unreadable;

    ghost try_from_gives = { λ line r. result_ok r ≡ opening_of line };

    fn try_from(line: Line) -> Result<Opening, Unreadable> {
        let sheet = sheet_of(line.mark)?;
        let ranking = RankingKind::try_from(line.second)?;
        check(empty_from_third(line), Unreadable)?;
        Ok(Opening {
            sheet,
            ranking,
            reference: line.first,
            reply: line.five,
        })
    }
}

impl Opening {
    // The answer of a fresh book.
    pub fn answer(self) -> Answer
        ensures { result ≡ opening_answer self }
    {
        Answer {
            phase: PhaseKind::Dark,
            slips: 0,
            number: 0,
            dynamic: self.reference,
            opener: 0,
        }
    }
}
