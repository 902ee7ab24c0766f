// The one lookup in a table of bands.
ghost use Rattle.std.specs.Prelude.{◌≡◌};
ghost use Rattle.figures.specs.Bands.{FirstReach, band_of, reach_of};

// A row of a table: `value` holds for what is at most `up_to` and above the row before.
#[derive(Clone, Copy)]
pub struct Band<T> {
    pub up_to: u32,
    pub value: T,
}

impl<T> Band<T> {
    fn reaches(&self, at: u32) -> bool
        ensures { result ≡ reach_of self.now at }
    {
        at <= self.up_to
    }
}

// The value of the first row that reaches `at`; above them all, `above`. The one search over lent rows of the project.
pub fn find_band<T: Copy>(rows: &[Band<T>], above: T, at: u32) -> T
    ensures is { result ≡ band_of above rows.now at }
    ensures first { FirstReach above rows.now at result }
{
    for row in rows {
        if row.reaches(at) {
            return row.value;
        }
    }
    above
}
