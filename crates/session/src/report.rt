// What a day comes to, once it is closed.
ghost use Rattle.std.specs.Prelude.{◌≡◌};
ghost use Rattle.session.specs.Reports.{empty_day};

// Orders that are left, and pieces summed over tickets: accepted, done in trades, gone out, left.
#[derive(Clone, Copy, PartialEq, Eq, Debug, Default)]
pub struct Report {
    pub orders: u32,
    pub accepted: u64,
    pub done: u64,
    pub out: u64,
    pub left: u64,
}

impl Report {
    // The report of a day in which nothing was accepted.
    pub fn of_empty_day() -> Report
        ensures { result ≡ empty_day }
    {
        Report::default()
    }
}
