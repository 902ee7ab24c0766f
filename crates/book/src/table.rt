// The 128 places for orders.
ghost use Rattle.std.specs.Prelude.{◌≡◌};
ghost use Rattle.book.specs.Cancels.{without};
ghost use Rattle.book.specs.Firsts.{find, is_reached};
ghost use Rattle.book.specs.Owned.{owned_order};
ghost use Rattle.book.specs.Places.{blanked, empty_table, lowered, placed, table_of};
ghost use Rattle.book.specs.Tables.{free, is_full, one, place, standing};

use crate::fault::BookFault;
use crate::found::Found;
use crate::order::Order;
use crate::put::put;
use crate::quote::Quote;

// A fixed table, by the rules of the project.
#[derive(Drop)]
pub struct Table {
    pub rows: [Option<Order>; 128],
}

// 1 where an order stands.
fn one(row: &Option<Order>) -> usize
    ensures { result ≡ one row.now }
{
    usize::from(row.is_some())
}

// How many orders stand in the rows, each counted as 0 or 1: a filter that is counted would branch at every row.
fn count(rows: &[Option<Order>; 128]) -> usize
    ensures { result ≡ standing rows.now }
{
    let mut orders = 0;
    for row in rows {
        orders += one(row);
    }
    orders
}

impl Table {
    // Every place is free.
    pub fn new() -> Table
        ensures { result ≡ empty_table }
    {
        Table { rows: [None; 128] }
    }

    // How many orders stand.
    pub fn standing(&self) -> usize
        ensures { result ≡ standing self.now.rows }
    {
        count(&self.rows)
    }

    // Whether an order stands in every place.
    pub fn is_full(&self) -> bool
        ensures { result ≡ is_full self.now.rows }
    {
        128 <= self.standing()
    }

    // The first place with no order.
    fn free(&self) -> Option<usize>
        ensures { result ≡ free self.now.rows }
    {
        self.rows.iter().position(|row| row.is_none())
    }

    // Puts an order into the first free place. It is refused only with 128 orders standing, and then
    // all stays.
    #[tactic(auto, using(crate::proofs::Placing::some_free, crate::proofs::Placing::none_free))]
    pub fn place(&mut self, order: Order) -> Result<(), BookFault>
        ensures value { result ≡ placed self.old.rows }
        ensures after { self.new ≡ table_of (place order self.old.rows) }
    {
        let place = self.free().ok_or(BookFault::Full)?;
        put(&mut self.rows, place, Some(order));
        Ok(())
    }

    // A trade took `pieces` of the order: what is left of it stays, and with none left the place is
    // free. The order comes with its place, so that the row is not read again.
    pub(crate) fn lower(&mut self, found: Found, pieces: u32)
        ensures { self.new ≡ lowered self.old found pieces }
    {
        put(&mut self.rows, found.place, found.order.lower(pieces));
    }

    // The place is free.
    pub fn blank(&mut self, place: usize)
        ensures { self.new ≡ blanked self.old place }
    {
        put(&mut self.rows, place, None);
    }

    // The standing order of a sender with that ticket. The two numbers stand apart here and in every call: a struct
    // would be made by each caller to be taken apart at once.
    pub fn find(&self, sender: u32, ticket: u32) -> Option<Found>
        ensures { result ≡ find sender ticket self.now.rows }
    {
        self.earliest(|order| order.ticket == ticket && order.sender == sender)
    }

    // The same, or the fault that there is none.
    pub fn owned(&self, sender: u32, ticket: u32) -> Result<Found, BookFault>
        ensures { result ≡ owned_order (find sender ticket self.now.rows) }
    {
        self.find(sender, ticket).ok_or(BookFault::NoTicket)
    }

    // Whether an order of either side reaches the quote, by the one search that all is proved of.
    pub fn is_reached(&self, quote: Quote) -> bool
        ensures { result ≡ is_reached quote self.now.rows }
    {
        self.earliest(|order| quote.is_reached(order, order.side))
            .is_some()
    }

    // Takes a sender's order out and gives it back.
    pub fn cancel(&mut self, sender: u32, ticket: u32) -> Result<Found, BookFault>
        ensures value { result ≡ owned_order (find sender ticket self.old.rows) }
        ensures after { self.new ≡ table_of (without (find sender ticket self.old.rows) self.old.rows) }
    {
        let found = self.owned(sender, ticket)?;
        self.blank(found.place);
        Ok(found)
    }
}
