// What the Specialist offers.

// The two prices, each with its pieces.
#[derive(Clone, Copy)]
pub struct Offer {
    pub bid: u32,
    pub bid_pieces: u32,
    pub ask: u32,
    pub ask_pieces: u32,
}
