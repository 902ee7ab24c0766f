// What a line asks for.
ghost use Rattle.std.specs.Prelude.{◌≡◌};
ghost use Rattle.std.specs.Result.{result_ok};
ghost use Rattle.whole_key.specs.Requests.{bare_request, cancel_call, clock_call, enter_call, flag_of, offer_of, order_of, quotation_of, request_of};

use book::side::Side;
use figures::check::check;
use figures::offer::Offer;
use program::opening::Opening;
use program::unused::{empty_from_first, empty_from_second, empty_from_third, is_bare, is_plain};
use records::line::{Line, Unreadable};
use session::entry::Entry;
use session::quotation::Quotation;

// A call on the day that is open, as the data that was read.
#[derive(Clone, Copy)]
pub enum Call {
    Enter(Entry),
    Cancel { sender: u32, ticket: u32 },
    Quote(Quotation),
    Validate(Quotation),
    // seconds
    Clock(u32),
    Withdraw,
    Decline,
    Renew,
}

#[derive(Clone, Copy)]
pub enum Request {
    Open(Opening),
    Call(Call),
    Close,
}

// The side, and whether it is execute-and-cancel. A pair, as an entry has the two apart; no `TryFrom<u8>`, here and
// below: neither the trait nor a pair or a bool is of this crate.
fn order_of(mark: u8) -> Result<(Side, bool), Unreadable>
    ensures { result_ok result ≡ order_of mark }
{
    match mark {
        b'B' => Ok((Side::Buy, false)),
        b'S' => Ok((Side::Sell, false)),
        b'b' => Ok((Side::Buy, true)),
        b's' => Ok((Side::Sell, true)),
        _ => Err(Unreadable),
    }
}

fn flag_of(mark: u8) -> Result<bool, Unreadable>
    ensures { result_ok result ≡ flag_of mark }
{
    match mark {
        b'F' => Ok(true),
        b'P' => Ok(false),
        _ => Err(Unreadable),
    }
}

// E: the side's mark, the sender, the price, the pieces.
fn enter_call(line: Line) -> Result<Call, Unreadable>
    ensures { result_ok result ≡ enter_call line }
{
    let (side, brief) = order_of(line.mark)?;
    check(empty_from_third(line), Unreadable)?;
    Ok(Call::Enter(Entry {
        sender: line.five,
        side,
        price: line.first,
        pieces: line.second,
        brief,
    }))
}

// C: the sender, the ticket.
fn cancel_call(line: Line) -> Result<Call, Unreadable>
    ensures { result_ok result ≡ cancel_call line }
{
    check(is_plain(line.mark), Unreadable)?;
    check(empty_from_second(line), Unreadable)?;
    Ok(Call::Cancel {
        sender: line.five,
        ticket: line.first,
    })
}

// Bid and ask, each with its pieces.
fn offer_of(line: Line) -> Offer
    ensures { result ≡ offer_of line }
{
    Offer {
        bid: line.first,
        bid_pieces: line.second,
        ask: line.third,
        ask_pieces: line.fourth,
    }
}

// Q and V: the flag's mark, the offer.
fn quotation_of(line: Line) -> Result<Quotation, Unreadable>
    ensures { result_ok result ≡ quotation_of line }
{
    let flagged = flag_of(line.mark)?;
    check(line.five == 0, Unreadable)?;
    Ok(Quotation {
        offer: offer_of(line),
        flagged,
    })
}

// T: the seconds.
fn clock_call(line: Line) -> Result<Call, Unreadable>
    ensures { result_ok result ≡ clock_call line }
{
    check(is_plain(line.mark), Unreadable)?;
    check(empty_from_first(line), Unreadable)?;
    Ok(Call::Clock(line.five))
}

// W, D, R and X: nothing more.
fn bare_request(request: Request, line: Line) -> Result<Request, Unreadable>
    ensures { result_ok result ≡ bare_request request line }
{
    check(is_bare(line), Unreadable)?;
    Ok(request)
}

impl TryFrom<Line> for Request {
    type Error = Unreadable;

    ghost try_from_gives = { λ line r. result_ok r ≡ request_of line };

    fn try_from(line: Line) -> Result<Request, Unreadable> {
        match line.letter {
            b'O' => Opening::try_from(line).map(Request::Open),
            b'E' => enter_call(line).map(Request::Call),
            b'C' => cancel_call(line).map(Request::Call),
            b'Q' => quotation_of(line).map(Call::Quote).map(Request::Call),
            b'V' => quotation_of(line).map(Call::Validate).map(Request::Call),
            b'T' => clock_call(line).map(Request::Call),
            b'W' => bare_request(Request::Call(Call::Withdraw), line),
            b'D' => bare_request(Request::Call(Call::Decline), line),
            b'R' => bare_request(Request::Call(Call::Renew), line),
            b'X' => bare_request(Request::Close, line),
            _ => Err(Unreadable),
        }
    }
}
