// An order or one side of the quote, as a ranking sees it: `number` is the ticket or the quote's number.
#[derive(Clone, Copy)]
pub struct Proposal {
    pub price: u32,
    pub pieces: u32,
    pub number: u32,
}
