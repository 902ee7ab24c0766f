// Records in, records out.
use key::whole::key_of;
use records::line::{Line, Unreadable};
use std::test::Fail;

const LINE: Line = Line {
    letter: b'Q',
    mark: b'F',
    five: 42,
    first: 99_000,
    second: 7,
    third: 99_999_999,
    fourth: 0,
};

#[test]
fn a_line_has_forty_bytes(rt: HostRuntime) {
    let bytes = <[u8; 40]>::from(LINE);
    assert_eq!(rt; &bytes, b"QF0004200099000000000079999999900000000\n");
    assert_eq!(rt; Line::try_from(bytes.as_slice()), Ok(LINE));
}

const NO_LINES: [&[u8]; 6] = [
    b"",
    b"QF0004200099000000000079999999900000000",
    b"QF0004200099000000000079999999900000000 ",
    b"QF0004200099000000000079999999900000000\n\n",
    b"QF000420009900000000007999999990000000-\n",
    b"QF 004200099000000000079999999900000000\n",
];

#[test]
fn bytes_that_are_no_line_are_unreadable(rt: HostRuntime) {
    for bytes in NO_LINES {
        assert_eq!(rt; Line::try_from(bytes), Err(Unreadable), "{bytes:?}");
    }
}

#[test]
fn an_empty_input_has_an_empty_key(rt: HostRuntime) -> Result<(), Fail> {
    let key = key_of(rt.alloc(), b"")?;
    assert_eq!(rt; key.as_slice(), b"".as_slice());
    Ok(())
}

#[test]
fn a_day_that_is_open_at_the_end_is_closed(rt: HostRuntime) -> Result<(), Fail> {
    let key = key_of(rt.alloc(), b"OI0000100000001000000020000000000000000\n")?;
    assert_eq!(rt;
        key.as_slice(),
        b"AD0000000000000000000010000000000000000\nZ10000000000000000000000000000000000000\nZ20000000000000000000000000000000000000\n".as_slice()
    );
    Ok(())
}

// Input and key of each refusal that the program or the opening of a day gives.
const REFUSALS: [(&[u8], &[u8]); 7] = [
    // X with no day open
    (
        b"X-0000000000000000000000000000000000000\n",
        b"NP0001900000000000000000000000000000000\n",
    ),
    // a small number that X does not use
    (
        b"X-0000100000000000000000000000000000000\n",
        b"NP0001800000000000000000000000000000000\n",
    ),
    // a last piece that is too short
    (b"X-000", b"NP0001800000000000000000000000000000000\n"),
    // reference 0, and a reply time of 61 seconds that is not tested any more
    (
        b"OL0006100000000000000010000000000000000\n",
        b"NS0001500000001000000000000000000000000\n",
    ),
    // reply times of 0 and of 61 seconds
    (
        b"OL0000000100000000000010000000000000000\n",
        b"NS0001500000005000000000000000000000000\n",
    ),
    (
        b"OL0006100100000000000010000000000000000\n",
        b"NS0001500000005000000000000000000000000\n",
    ),
    // a second opening: the day goes on, and the end of input closes it
    (
        b"OL0001000100000000000010000000000000000\nOI0001000200000000000010000000000000000\n",
        b"AD0000000000000001000000000000000000000\nNP0001900000000000000000000000000000000\nZ10000000000000000000000000000000000000\nZ20000000000000000000000000000000000000\n",
    ),
];

#[test]
fn what_cannot_be_done_is_refused(rt: HostRuntime) -> Result<(), Fail> {
    for (input, expected) in REFUSALS {
        let key = key_of(rt.alloc(), input)?;
        assert_eq!(rt; key.as_slice(), expected);
    }
    Ok(())
}
