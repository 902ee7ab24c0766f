// An order and the place where it stands.
ghost use Rattle.std.specs.Prelude.{◌≡◌};
ghost use Rattle.book.specs.Makes.{gone};

use crate::order::Order;
use crate::slip::{Cause, Slip};

#[derive(Clone, Copy)]
pub struct Found {
    pub place: usize,
    pub order: Order,
}

impl Found {
    // The slip with which the order goes out.
    pub fn gone(self, cause: Cause) -> Slip
        ensures { result ≡ gone cause self }
    {
        Slip::Out {
            cause,
            ticket: self.order.ticket,
            pieces: self.order.pieces,
        }
    }
}
