use crate::report::{Names, NoMoreReports, push_report};
use crate::run::Run;
use crate::scan::next_judged;
use layout::event_tag::{ADD_COMBINED_TOKEN, ADD_TOKEN, FINISH_NODE, START_NODE};
use layout::message::NOT_A_LABEL;
use layout::node_kind::{DT_LABEL, DT_PHANDLE};
use layout::refusal::{NO_REPORT_ROOM, TOO_DEEP};
use layout::token_kind::{COLON, IDENT};
use token_rows::token::Seat;

// `1a:`: a name that breaks the rule, and a Colon.
const BYTES: &[u8] = b"1a:";

const TOKENS: [u32; 4] = [IDENT as u32, 2, COLON as u32, 1];

// A DtLabel of both.
const EVENTS: [u32; 12] = [
    START_NODE,
    DT_LABEL,
    0,
    ADD_COMBINED_TOKEN,
    1,
    0,
    ADD_TOKEN,
    0,
    0,
    FINISH_NODE,
    0,
    0,
];

const FIRST: Seat = Seat { at: 0, byte: 0 };

const ROW: [u32; 9] = [NOT_A_LABEL, 0, 2, 0, 5, 0, 0, 0, 0];

fn refused(number: u32, place: usize) -> Names {
    Err(NoMoreReports {
        written: 0,
        number,
        place,
    })
}

fn run<'a>() -> Run<'a> {
    Run {
        bytes: BYTES,
        tokens: &TOKENS,
        events: &EVENTS,
        first: 5,
    }
}

#[test]
fn a_report_fits_or_is_refused_as_7(rt: HostRuntime) {
    let mut reports = [1; 9];
    assert!(rt; push_report(Ok(0), &mut reports, FIRST, 2, 5) == Ok(9));
    assert_eq!(rt; reports, ROW);
    let from = Seat { at: 3, byte: 4 };
    assert!(rt; push_report(Ok(0), &mut [1; 8], from, 6, 5) == refused(NO_REPORT_ROOM, 3));
    assert!(rt; push_report(Ok(9), &mut reports, from, 6, 5).is_err());
    assert_eq!(rt; reports, ROW);
}

#[test]
fn the_names_of_a_node_are_reported_or_refused_as_7(rt: HostRuntime) {
    let mut reports = [1; 9];
    assert!(rt; run().judge_node(DT_LABEL, 1, FIRST, &mut reports, Ok(0)) == Ok(9));
    assert_eq!(rt; reports, ROW);
    let mut short = [1; 8];
    let names = run().judge_node(DT_PHANDLE, 1, FIRST, &mut short, Ok(0));
    assert!(rt; names == refused(NO_REPORT_ROOM, 0));
    assert_eq!(rt; short, [1; 8]);
}

#[test]
fn what_was_refused_before_stays(rt: HostRuntime) {
    let mut reports = [1; 9];
    for number in [TOO_DEEP, NO_REPORT_ROOM, u32::MAX] {
        let before = refused(number, 12);
        assert!(rt; push_report(before, &mut reports, FIRST, 2, 5) == before);
        assert!(rt; run().judge_node(DT_LABEL, 1, FIRST, &mut reports, before) == before);
    }
    assert_eq!(rt; reports, [1; 9]);
}

#[test]
fn a_judged_node_is_found_or_none_is_left(rt: HostRuntime) {
    let found = next_judged(&EVENTS, 0).ok();
    assert!(rt; found.is_some_and(|f| f.event == 0 && f.kind == DT_LABEL && f.behind == 0));
    assert!(rt; next_judged(&EVENTS, 1).ok().is_none());
    let none = next_judged(&EVENTS, 1).err();
    assert!(rt; none.is_some_and(|n| n.events == 4 && n.behind == 2));
}
