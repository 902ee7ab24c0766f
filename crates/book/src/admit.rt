// Whether an order or a quote is taken in, and under which number.
ghost use Rattle.std.specs.Prelude.{◌≡◌};
ghost use Rattle.book.specs.Admits.{numbered, order_admitted, quote_admitted};

use crate::fault::BookFault;
use crate::table::Table;
use figures::check::check;
use figures::instrument::Instrument;
use figures::offer::Offer;
use figures::sheet::Sheet;

// Orders and quotes of a day are numbered from 1 up to this.
pub const LAST_NUMBER: u32 = 1_000_000;

// The number after `count`: orders and quotes share one count.
pub fn next_number(count: u32) -> Result<u32, BookFault>
    ensures { result ≡ numbered count }
{
    check(count < LAST_NUMBER, BookFault::NumbersUsed)?;
    Ok(count + 1)
}

// The ticket of an order, or the first fault: its figures, the places, the numbers.
pub fn admit_order<S: Sheet>(
    instrument: &Instrument<S>,
    price: u32,
    pieces: u32,
    table: &Table,
    count: u32,
) -> Result<u32, BookFault>
    ensures { result ≡ order_admitted (S.Sheet.means instrument.now.sheet.now) instrument.now.reference price pieces table.now.rows count }
{
    instrument.check_order(price, pieces)?;
    check(!table.is_full(), BookFault::Full)?;
    next_number(count)
}

// The number of a quote, or the first fault: its figures, the numbers.
pub fn admit_quote<S: Sheet>(
    instrument: &Instrument<S>,
    offer: Offer,
    count: u32,
) -> Result<u32, BookFault>
    ensures { result ≡ quote_admitted (S.Sheet.means instrument.now.sheet.now) instrument.now.reference offer count }
{
    instrument.check_quote(offer)?;
    next_number(count)
}
