use crate::entry::{Entrypoint, Run, run_entry};
use layout::refusal::{NO_EVENT_ROOM, NO_REPORT_ROOM, TOO_DEEP};
use layout::token_kind::{IDENT, LPAREN};

// An Ident of one byte, which is no whole item: an error is reported.
const IDENT_ALONE: [u32; 2] = [IDENT as u32, 1];

fn sourcefile(events: &mut [u32], reports: &mut [u32]) -> Run {
    run_entry(
        &IDENT_ALONE,
        events,
        reports,
        &mut [0; 60],
        Entrypoint::SourceFile,
    )
}

#[test]
fn nothing_is_refused_where_all_fits(rt: HostRuntime) {
    let refused = sourcefile(&mut [0; 60], &mut [0; 60]).refused;
    assert_eq!(rt; refused.number, 0);
    assert_eq!(rt; refused.place.0, 0);
}

#[test]
fn short_buffers_are_refused_as_6_and_7(rt: HostRuntime) {
    assert_eq!(rt;
        sourcefile(&mut [0; 2], &mut [0; 60]).refused.number,
        NO_EVENT_ROOM
    );
    assert_eq!(rt;
        sourcefile(&mut [0; 60], &mut [0; 8]).refused.number,
        NO_REPORT_ROOM
    );
}

#[test]
fn too_many_open_brackets_are_refused_as_5(rt: HostRuntime) {
    let mut tokens = [1; 200];
    for kind in tokens.iter_mut().step_by(2) {
        *kind = LPAREN as u32;
    }
    let run = run_entry(
        &tokens,
        &mut [0; 6000],
        &mut [0; 6000],
        &mut [0; 6000],
        Entrypoint::Cells,
    );
    assert_eq!(rt; run.refused.number, TOO_DEEP);
}
