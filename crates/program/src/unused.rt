// What a line does not use: the mark is -, and each number 0. One test for each number of fields that a record
// uses: an array of four numbers would make one of them, and lose their names everywhere else.
ghost use Rattle.std.specs.Prelude.{◌≡◌};
ghost use Rattle.program.specs.Unused.{empty_from_first, empty_from_second, empty_from_third, is_bare, is_plain};

use records::line::Line;

pub fn is_plain(mark: u8) -> bool
    ensures { result ≡ is_plain mark }
{
    mark == b'-'
}

pub fn empty_from_third(line: Line) -> bool
    ensures { result ≡ empty_from_third line }
{
    line.third == 0 && line.fourth == 0
}

pub fn empty_from_second(line: Line) -> bool
    ensures { result ≡ empty_from_second line }
{
    line.second == 0 && empty_from_third(line)
}

pub fn empty_from_first(line: Line) -> bool
    ensures { result ≡ empty_from_first line }
{
    line.first == 0 && empty_from_second(line)
}

// A letter and nothing more.
pub fn is_bare(line: Line) -> bool
    ensures { result ≡ is_bare line }
{
    is_plain(line.mark) && line.five == 0 && empty_from_first(line)
}
