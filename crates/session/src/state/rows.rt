// Orders come into a book, and go out of it.
ghost use Rattle.std.specs.Prelude.{◌≡◌, ◌≤◌, length};
ghost use Rattle.book.specs.Makes.{gone};
ghost use Rattle.book.specs.declared.slip.Cause.TheVariants.{Cancelled};
ghost use Rattle.session.specs.Acts.{first, freeing, placing, still};
ghost use Rattle.session.specs.Deeds.{Deed};

use crate::state::State;
use book::found::Found;
use book::order::Order;
use book::slip::{Cause, Slip};

impl State {
    // A new order stands.
    pub(crate) fn place(&mut self, order: Order)
        ensures { self.new ≡ placing self.old order }
    {
        // there is room: that was tested before the order got its ticket
        let _ = self.table.place(order);
    }

    // An order goes out, and its slip is the first of the list.
    pub(crate) fn take_out(&mut self, found: Found, out: &mut [Slip]) -> usize
        requires { 1 ≤ length out.old }
        ensures { Deed (first (gone Cancelled found) (still (freeing self.old found))) self.new out.old out.new result }
    {
        self.table.blank(found.place);
        out[0] = found.gone(Cause::Cancelled);
        1
    }
}
