// What a line asks for.
ghost use Rattle.std.specs.Prelude.{◌≡◌};
ghost use Rattle.std.specs.Result.{result_ok};
ghost use Rattle.key.specs.Requests.{close_request, request_of};

use figures::check::check;
use program::opening::Opening;
use program::unused::is_bare;
use records::line::{Line, Unreadable};

// No Option: closing is a request too, and not the lack of one.
#[derive(Clone, Copy, PartialEq, Eq, Debug)]
pub enum Request {
    Open(Opening),
    Close,
}

// X: nothing more. That of the whole key is one call of `is_bare` too: a shared one would be that call again.
fn close_request(line: Line) -> Result<Request, Unreadable>
    ensures { result_ok result ≡ close_request line }
{
    check(is_bare(line), Unreadable)?;
    Ok(Request::Close)
}

impl TryFrom<Line> for Request {
    type Error = Unreadable;

    ghost try_from_gives = { λ line r. result_ok r ≡ request_of line };

    fn try_from(line: Line) -> Result<Request, Unreadable> {
        match line.letter {
            b'O' => Opening::try_from(line).map(Request::Open),
            b'X' => close_request(line),
            _ => Err(Unreadable),
        }
    }
}
