// Notices at the edges of the law of a sheet.
use figures::fault::{FiguresFault, Term};
use figures::refusal::{Layer, Refusal};
use figures::sheet::Sheet;
use figures::sheet::notice::Notice;
use std::test::Fail;

#[test]
fn a_notice_answers_its_three_numbers(rt: HostRuntime) -> Result<(), Fail> {
    let notice = Notice::new(50, 100, 7)?;
    assert_eq!(rt; notice.limit_one(1), 50);
    assert_eq!(rt; notice.limit_two(99_999_999), 100);
    assert_eq!(rt; notice.turnover(0), 7);
    Ok(())
}

#[test]
fn the_first_number_against_the_law_is_named(rt: HostRuntime) {
    assert_eq!(rt; Notice::new(0, 0, 1).err(), None);
    assert_eq!(rt; Notice::new(2_000, 2_000, 10_000_000).err(), None);
    assert_eq!(rt;
        Notice::new(2_001, 2_001, 0).err(),
        Some(FiguresFault::Notice(Term::LimitOne))
    );
    assert_eq!(rt;
        Notice::new(2_000, 2_001, 0).err(),
        Some(FiguresFault::Notice(Term::LimitTwo))
    );
    assert_eq!(rt;
        Notice::new(2_000, 2_000, 0).err(),
        Some(FiguresFault::Notice(Term::Turnover))
    );
    assert_eq!(rt;
        Notice::new(0, 0, 10_000_001).err(),
        Some(FiguresFault::Notice(Term::Turnover))
    );
}

#[test]
fn a_notice_is_refused_with_number_17(rt: HostRuntime) {
    let places = [
        (Term::LimitOne, 1),
        (Term::LimitTwo, 2),
        (Term::Turnover, 3),
    ];
    for (term, field) in places {
        assert_eq!(rt;
            Refusal::from(FiguresFault::Notice(term)),
            Refusal {
                number: 17,
                layer: Layer::Figures,
                field,
            }
        );
    }
}
