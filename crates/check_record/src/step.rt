// One record's check.
ghost use Rattle.std.specs.Prelude.{◌+◌, ◌<◌, ◌≡◌, IfOk, length};
ghost use Rattle.layout.specs.Fields.{rows_of, first_field};
ghost use Rattle.layout.specs.Ways.{record_bytes};
ghost use Rattle.check_across.specs.WorkSmall.{Small};
ghost use Rattle.check_sums.specs.WorkFair.{Fair};
ghost use Rattle.check_record.specs.Verdict.{stepped_as};
ghost use Rattle.check_record.specs.Record.{fields_from, bare, piece_of, record_of};

use crate::{Verdict, Wrong, quick};
use check_across::Sums;
use check_alone::Mark;
use check_digit::GroupSums;
use check_field::field;
use check_sums::State;
use layout::{Line, Way};

// The first field that is wrong, if any, of a record that is taken for this line.
pub fn fields(
    groups: &GroupSums,
    line: Line,
    sums: Sums,
    header: &[u8; 94],
    rec: &[u8; 94],
) -> Verdict
    requires { Small sums }
    ensures { result ≡ fields_from (first_field line) (rows_of line) sums header.now rec.now }
{
    let from = quick::walk_from(groups, line, sums, header, check_across::said(rec), rec);
    for k in from..layout::rows_in(line) {
        let number = layout::first_field(line) + k as u64;
        field::field(groups, line, k, sums, header, rec).map_err(|fault| Wrong {
            fault,
            field: number,
        })?;
    }
    Ok(())
}

// One record in the state that the records before it left: its 94 columns, with no line end behind them. A record that failed leaves no
// new state.
pub fn check(groups: &GroupSums, st: State, rec: &[u8; 94]) -> Result<State, Wrong>
    requires { Fair st × (st.sums.records < 1000000) }
    ensures step { stepped_as st result ≡ record_of st (bare rec.now) }
    ensures fair { IfOk result Fair }
{
    let line = check_order::line_at(st.place, st.sums.records, rec[0]);
    fields(groups, line, st.sums, &st.header, rec)?;
    Ok(check_sums::tally(st, line, rec))
}

// Whether the line end of the way follows a record's columns.
pub fn closed(way: Way, rec: &[u8]) -> bool
    requires { length rec.now ≡ record_bytes way }
    ensures { result ≡ (piece_of way rec.now).closed }
{
    match way {
        Way::Plain => true,
        Way::Lined => rec.ends_with(b"\r\n"),
    }
}
