// A Name's report: message 8, over the Name, with its first token as the mark. Hint, label and expectations are none.
ghost use Rattle.std.specs.Prelude.{◌≡◌, IfErr};
ghost use Rattle.definitions.specs.Layout.{NO_REPORT_ROOM};
ghost use Rattle.labels.specs.Model.{out, reported};

use layout::hint::NO_HINT;
use layout::message::NOT_A_LABEL;
use layout::refusal::NO_REPORT_ROOM;
use layout::row::REPORT_ROW;
use layout::rows::put_row;
use layout::word::low32;
use token_rows::fit::fits;
use token_rows::token::Seat;

// Why no more reports are written, after so many numbers: a refusal's number, and its place.
#[derive(Clone, Copy, PartialEq, Eq, Debug)]
pub struct NoMoreReports {
    pub written: usize,
    pub number: u32,
    pub place: usize,
}

// What has become of the reports so far: how many numbers are written.
pub type Names = Result<usize, NoMoreReports>;

// The report of the Name from a place to a byte. The first that does not fit is refusal 7, at its mark. A refusal that is
// there already, whatever its number, stays as it is, and nothing is written after it; where none is, or 7, none but 7
// comes of it.
pub fn push_report(names: Names, reports: &mut [u32], from: Seat, end: u32, first: u32) -> Names
    ensures pushed { out result reports.new ≡ reported from.byte end from.at first (out names reports.old) }
    ensures room_alone { IfErr names (λ before. before.number ≡ NO_REPORT_ROOM)
        → IfErr result (λ stopped. stopped.number ≡ NO_REPORT_ROOM) }
{
    let written = names?;
    if !fits(reports.len(), written, REPORT_ROW) {
        return Err(NoMoreReports {
            written,
            number: NO_REPORT_ROOM,
            place: from.at,
        });
    }
    // Message, range, mark, expectations, hint, range of the label.
    let row = [
        NOT_A_LABEL,
        from.byte,
        end,
        low32(from.at),
        first,
        0,
        NO_HINT,
        0,
        0,
    ];
    put_row(reports, written, row);
    Ok(written + REPORT_ROW)
}
