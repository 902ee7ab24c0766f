// What a day is opened with.
ghost use Rattle.std.specs.Prelude.{◌≡◌, true, Some, None, MatchResult};
ghost use Rattle.figures.specs.Prices.{in_range};
ghost use Rattle.session.specs.Opening.{is_reply_time, particulars_fault};

use crate::fault::SessionFault;
use figures::check::check;
use figures::price::is_in_range;

pub const LONGEST_REPLY: u32 = 60;

// A reference price and a reply time in seconds, both checked.
#[derive(Drop)]
pub struct Particulars {
    reference: u32,
    reply: u32,
    ghost priced: { in_range reference ≡ true },
    ghost timely: { is_reply_time reply ≡ true },
}

fn is_reply_time(seconds: u32) -> bool
    ensures { result ≡ is_reply_time seconds }
{
    (1..=LONGEST_REPLY).contains(&seconds)
}

impl Particulars {
    pub fn new(reference: u32, reply: u32) -> Result<Particulars, SessionFault>
        ensures { MatchResult result (λ p. (particulars_fault reference reply ≡ None) × (p.reference ≡ reference) × (p.reply ≡ reply)) (λ e. particulars_fault reference reply ≡ Some e) }
    {
        check(is_in_range(reference), SessionFault::Reference)?;
        check(is_reply_time(reply), SessionFault::ReplyTime)?;
        Ok(Particulars { reference, reply })
    }

    pub fn reference(&self) -> u32
        ensures { result ≡ self.now.reference }
    {
        self.reference
    }

    pub fn reply(&self) -> u32
        ensures { result ≡ self.now.reply }
    {
        self.reply
    }
}
