// What every call that can give slips is tested for first.
ghost use Rattle.std.specs.Prelude.{◌≡◌};
ghost use Rattle.session.specs.Checks.{room_check};

use crate::fault::SessionFault;
use figures::check::check;

// A call that can give slips is lent at least as many places.
pub const PLACES: usize = 129;

pub(crate) fn check_room(places: usize) -> Result<(), SessionFault>
    ensures { result ≡ room_check places }
{
    check(PLACES <= places, SessionFault::ShortList)
}
