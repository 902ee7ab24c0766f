// What an accepted call does to a book, as data: it is matched together with the phase that it finds.
use book::found::Found;
use book::order::Order;
use book::quote::Quote;

#[derive(Clone, Copy)]
pub enum Act {
    // the order is placed; in a lit book a cross follows
    Enter(Order),
    // the order goes out
    Cancel(Found),
    // a new quote stands; in an RFE it ends it
    Put(Quote),
    // the quote goes
    Withdraw,
    // the seconds are set
    Clock(u32),
}
