// Sheets: two limits and a turnover for each reference price.
ghost use Rattle.std.specs.Prelude.{◌≡◌, ℕ};
ghost use Rattle.figures.specs.Sheets.{Lawful, Measures};

// A sheet means three numbers for each reference price, and gives the same three each time.
pub trait Sheet: Drop {
    ghost means: { Self → ℕ → Measures };

    // Limit 1 in percent: how far a price may lie from the reference.
    fn limit_one(&self, reference: u32) -> u32
        ensures { result ≡ (means self.now reference).limit1 };

    // Limit 2 in percent: how far a trade may lie from the dynamic price.
    fn limit_two(&self, reference: u32) -> u32
        ensures { result ≡ (means self.now reference).limit2 };

    // The most that one order may be worth, in whole currency.
    fn turnover(&self, reference: u32) -> u32
        ensures { result ≡ (means self.now reference).turnover };

    ghost lawful: { (sheet : Self) → Lawful (means sheet) };
}

pub mod notice;
pub mod product;
