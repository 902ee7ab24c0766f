// The numbers that providers send under.
ghost use Rattle.std.specs.Prelude.{◌≡◌};
ghost use Rattle.figures.specs.Checks.{sender_check};
ghost use Rattle.figures.specs.Senders.{is_sender};

use crate::check::check;
use crate::fault::FiguresFault;

pub const LAST_SENDER: u32 = 99_999;

pub fn is_sender(sender: u32) -> bool
    ensures { result ≡ is_sender sender }
{
    (1..=LAST_SENDER).contains(&sender)
}

pub fn check_sender(sender: u32) -> Result<(), FiguresFault>
    ensures { result ≡ sender_check sender }
{
    check(is_sender(sender), FiguresFault::Sender)
}
