// The page that a response is written on: it has room for the longest, 129 slips, A, Z1 and Z2.
ghost use Rattle.std.specs.Prelude.{◌≡◌, ◌+◌, ◌*◌, ◌≤◌, [], ◌++◌, map, length, take};
ghost use Rattle.records.specs.Writing.{bytes_of};
ghost use Rattle.program.specs.Lines.{report_lines, slip_line};
ghost use Rattle.program.specs.Tellings.{parting_lines, response_lines, told_lines};
ghost use Rattle.program.specs.Written.{written};

use crate::fault::ProgramFault;
use crate::lines::{answer_line, first_totals, refused_line, second_totals, slip_line};
use crate::response::Response;
use book::slip::Slip;
use records::line::Line;
use session::answer::Answer;
use session::check::PLACES;
use session::report::Report;
use std::marker::Model;

// The bytes of one record, and of the 132 records of a page.
pub const RECORD_SIZE: usize = 40;

pub const PAGE_SIZE: usize = 5280;

// A clause sees the bytes that are written so far. They are no Vec: the static library has no heap; and no
// ArrayVec, each put on which would answer an error that no page has.
#[derive(Drop)]
pub(crate) struct Page {
    bytes: [u8; PAGE_SIZE],
    size: usize,
}

impl Model for Page {
    ghost use Rattle.std.specs.Prelude.{ℕ, List, take, ◌≤◌};

    ghost Value = { List ℕ };

    ghost view = { λ page. take page.size page.bytes };

    ghost invariant = { λ page. page.size ≤ 5280 };
}

// The slips that an answer counts.
fn counted(paper: &[Slip; PLACES], count: usize) -> &[Slip]
    ensures { result.now ≡ take count paper.now }
{
    paper.get(..count).unwrap_or(paper)
}

impl Page {
    pub(crate) fn blank() -> Page
        ensures { result ≡ [] }
    {
        Page {
            bytes: [0; PAGE_SIZE],
            size: 0,
        }
    }

    pub(crate) fn text(&self) -> &[u8]
        ensures { result.now ≡ self.now }
    {
        &self.bytes[..self.size]
    }

    fn wipe(&mut self)
        ensures { self.new ≡ [] }
    {
        self.size = 0;
    }

    fn put(&mut self, line: Line)
        requires { length self.old + 40 ≤ 5280 }
        ensures size { length self.new ≡ length self.old + 40 }
        ensures text { self.new ≡ self.old ++ bytes_of line }
    {
        let end = self.size + RECORD_SIZE;
        self.bytes[self.size..end].copy_from_slice(&<[u8; 40]>::from(line));
        self.size = end;
    }

    fn put_slips(&mut self, slips: &[Slip])
        requires { length self.old + 40 * length slips.now ≤ 5280 }
        ensures size { length self.new ≡ length self.old + 40 * length slips.now }
        ensures text { self.new ≡ self.old ++ written (map slip_line slips.now) }
    {
        for slip in slips {
            self.put(slip_line(*slip));
        }
    }

    // An answer behind its slips.
    #[tactic(auto, using(crate::proofs::Writings::written_push))]
    fn put_told(&mut self, paper: &[Slip; PLACES], answer: Answer)
        requires { self.old ≡ [] }
        ensures size { length self.new ≤ 5200 }
        ensures text { self.new ≡ written (told_lines (take answer.slips paper.now) answer) }
    {
        self.put_slips(counted(paper, answer.slips));
        self.put(answer_line(answer));
    }

    fn put_report(&mut self, report: Report)
        requires { length self.old ≤ 5200 }
        ensures { self.new ≡ self.old ++ written (report_lines report) }
    {
        self.put(first_totals(report));
        self.put(second_totals(report));
    }

    // Writes what was answered, on a page without anything else.
    #[tactic(auto, using(crate::proofs::Writings::written_append))]
    pub(crate) fn write(&mut self, response: Result<Response, ProgramFault>, paper: &[Slip; PLACES])
        ensures { self.new ≡ written (response_lines response paper.now) }
    {
        self.wipe();
        match response {
            Ok(Response::Told(answer)) => self.put_told(paper, answer),
            Ok(Response::Closed(report)) => self.put_report(report),
            Ok(Response::Declined(answer, report)) => {
                self.put_told(paper, answer);
                self.put_report(report);
            }
            Err(fault) => self.put(refused_line(fault.into())),
        }
    }

    pub(crate) fn write_parting(&mut self, response: Option<Response>, paper: &[Slip; PLACES])
        ensures { self.new ≡ written (parting_lines response paper.now) }
    {
        match response {
            Some(response) => self.write(Ok(response), paper),
            None => self.wipe(),
        }
    }
}
