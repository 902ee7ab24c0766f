// What a record is answered with, where it is not refused.
use session::answer::Answer;
use session::report::Report;

// The slips of an answer stand in the list that was lent.
#[derive(Clone, Copy, PartialEq, Eq, Debug)]
pub enum Response {
    Told(Answer),
    // the day is closed
    Closed(Report),
    // an RFE was open, so it was declined before the day was closed
    Declined(Answer, Report),
}
