// The lines that are written in answer.
ghost use Rattle.std.specs.Prelude.{◌≡◌};
ghost use Rattle.program.specs.Lines.{answer_line, first_totals, high_half, low_half, refused_line, second_totals, slip_count, slip_line};

use book::slip::Slip;
use figures::refusal::Refusal;
use records::line::Line;
use session::answer::Answer;
use session::report::Report;

// Half of sixteen digits.
const HALF: u64 = 100_000_000;

// A trade, or an order that went out.
pub fn slip_line(slip: Slip) -> Line
    ensures { result ≡ slip_line slip }
{
    match slip {
        Slip::Trade {
            price,
            pieces,
            buyer,
            seller,
        } => Line {
            letter: b'T',
            mark: b'-',
            five: 0,
            first: price,
            second: pieces,
            third: buyer,
            fourth: seller,
        },
        Slip::Out {
            cause,
            ticket,
            pieces,
        } => Line {
            letter: b'G',
            mark: b'-',
            five: cause.into(),
            first: ticket,
            second: pieces,
            third: 0,
            fourth: 0,
        },
    }
}

// The five digits that a count has room for.
fn slip_count(slips: usize) -> u32
    ensures { result ≡ slip_count slips }
{
    (slips % 100_000) as u32
}

pub fn answer_line(answer: Answer) -> Line
    ensures { result ≡ answer_line answer }
{
    Line {
        letter: b'A',
        mark: u8::from(answer.phase),
        five: slip_count(answer.slips),
        first: answer.number,
        second: answer.dynamic,
        third: answer.opener,
        fourth: 0,
    }
}

pub fn refused_line(refusal: Refusal) -> Line
    ensures { result ≡ refused_line refusal }
{
    Line {
        letter: b'N',
        mark: u8::from(refusal.layer),
        five: refusal.number,
        first: refusal.field,
        second: 0,
        third: 0,
        fourth: 0,
    }
}

fn high_half(total: u64) -> u32
    ensures { result ≡ high_half total }
{
    (total / HALF % HALF) as u32
}

fn low_half(total: u64) -> u32
    ensures { result ≡ low_half total }
{
    (total % HALF) as u32
}

// Orders left, accepted, done.
pub fn first_totals(report: Report) -> Line
    ensures { result ≡ first_totals report }
{
    Line {
        letter: b'Z',
        mark: b'1',
        five: report.orders,
        first: high_half(report.accepted),
        second: low_half(report.accepted),
        third: high_half(report.done),
        fourth: low_half(report.done),
    }
}

// Gone out, left: another mark and other totals, so no twin of the first.
pub fn second_totals(report: Report) -> Line
    ensures { result ≡ second_totals report }
{
    Line {
        letter: b'Z',
        mark: b'2',
        five: 0,
        first: high_half(report.out),
        second: low_half(report.out),
        third: high_half(report.left),
        fourth: low_half(report.left),
    }
}
