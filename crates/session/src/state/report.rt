// What a book comes to, by its rows and its totals.
ghost use Rattle.std.specs.Prelude.{◌≡◌, ◌≤◌};
ghost use Rattle.book.specs.Tables.{one, standing};
ghost use Rattle.session.specs.Closing.{held_in, pieces_in, report_of};

use crate::report::Report;
use crate::state::State;
use book::order::Order;

// Orders that stand, and their pieces.
#[derive(Clone, Copy, Default)]
struct Left {
    orders: u32,
    pieces: u64,
}

// What stands in one row.
fn left_in(row: &Option<Order>) -> Left
    ensures orders { result.orders ≡ one row.now }
    ensures pieces { result.pieces ≡ pieces_in row.now }
    ensures single { result.orders ≤ 1 }
    ensures low { result.pieces ≤ 4294967295 }
{
    row.as_ref().map_or(
        Left::default(),
        |order| Left {
            orders: 1,
            pieces: order.pieces as u64,
        },
    )
}

// One `for` over the rows that counts and sums: a rule of the project.
fn sum(rows: &[Option<Order>; 128]) -> Left
    ensures orders { result.orders ≡ standing rows.now }
    ensures pieces { result.pieces ≡ held_in rows.now }
{
    let mut orders = 0;
    let mut pieces = 0;
    for row in rows {
        let left = left_in(row);
        orders += left.orders;
        pieces += left.pieces;
    }
    Left { orders, pieces }
}

impl State {
    pub(crate) fn report(&self) -> Report
        ensures { result ≡ report_of self.now }
    {
        let left = sum(&self.table.rows);
        Report {
            orders: left.orders,
            accepted: self.totals.accepted,
            done: self.totals.done,
            out: self.totals.out,
            left: left.pieces,
        }
    }
}
