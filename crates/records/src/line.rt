// What a record holds, whichever it is.

// Letter and mark are bytes; `five` has 5 digits, the four others 8 each.
#[derive(Clone, Copy, PartialEq, Eq, Debug)]
pub struct Line {
    pub letter: u8,
    pub mark: u8,
    pub five: u32,
    pub first: u32,
    pub second: u32,
    pub third: u32,
    pub fourth: u32,
}

// Forty bytes that are no record, or fewer.
#[derive(Clone, Copy, PartialEq, Eq, Debug)]
pub struct Unreadable;
