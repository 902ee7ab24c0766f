// A sheet of three fixed numbers for any reference.
ghost use Rattle.std.specs.Prelude.{◌≡◌, ◌≤◌, Some, None, MatchResult};
ghost use Rattle.figures.specs.Notices.{notice_fault};
ghost use Rattle.figures.specs.Sheets.{measures};
ghost use Rattle.std.proofs.Common.{rules};

use crate::check::check;
use crate::fault::{FiguresFault, Term};
use crate::sheet::Sheet;

pub const HIGHEST_LIMIT: u32 = 2_000;

pub const HIGHEST_TURNOVER: u32 = 10_000_000;

#[derive(Drop)]
pub struct Notice {
    one: u32,
    two: u32,
    most: u32,
    ghost low: { one ≤ 2000 },
    ghost lower: { two ≤ 2000 },
    ghost some: { 1 ≤ most },
    ghost few: { most ≤ 10000000 },
}

impl Notice {
    // Checked numbers make a notice; the first that is against the law of a sheet refuses it.
    pub fn new(one: u32, two: u32, most: u32) -> Result<Notice, FiguresFault>
        ensures { MatchResult result (λ n. (notice_fault one two most ≡ None) × (n.one ≡ one) × (n.two ≡ two) × (n.most ≡ most)) (λ e. notice_fault one two most ≡ Some e) }
    {
        check(one <= HIGHEST_LIMIT, FiguresFault::Notice(Term::LimitOne))?;
        check(two <= HIGHEST_LIMIT, FiguresFault::Notice(Term::LimitTwo))?;
        check(
            (1..=HIGHEST_TURNOVER).contains(&most),
            FiguresFault::Notice(Term::Turnover),
        )?;
        Ok(Notice { one, two, most })
    }
}

impl Sheet for Notice {
    ghost means = { λ n _. measures n.one n.two n.most };

    ghost lawful = { Prim.search rules };

    fn limit_one(&self, _reference: u32) -> u32 {
        self.one
    }

    fn limit_two(&self, _reference: u32) -> u32 {
        self.two
    }

    fn turnover(&self, _reference: u32) -> u32 {
        self.most
    }
}
