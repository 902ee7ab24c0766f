// What a provider sends.
ghost use Rattle.std.specs.Prelude.{◌≡◌};
ghost use Rattle.session.specs.Calls.{order_of};

use book::order::Order;
use book::side::Side;

// `brief` is execute-and-cancel.
#[derive(Clone, Copy)]
pub struct Entry {
    pub sender: u32,
    pub side: Side,
    pub price: u32,
    pub pieces: u32,
    pub brief: bool,
}

impl Entry {
    pub(crate) fn order(self, ticket: u32) -> Order
        ensures { result ≡ order_of self ticket }
    {
        Order {
            ticket,
            sender: self.sender,
            side: self.side,
            price: self.price,
            pieces: self.pieces,
            brief: self.brief,
        }
    }
}
