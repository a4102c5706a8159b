// Mending judged before a byte is put: the check of the mended file, and the records behind the 9.
ghost use Rattle.std.specs.Prelude.{◌+◌, ◌*◌, ◌≤◌, ◌<◌, ◌≡◌, true, ◌&&◌, eqb, length, IfOk};
ghost use Rattle.layout.specs.Answers.{answer_of};
ghost use Rattle.check_record.specs.Verdict.{stepped_as};
ghost use Rattle.layout.specs.Ways.{record_bytes};
ghost use Rattle.check_sums.specs.WorkFair.{Fair};
ghost use Rattle.table_form.specs.Forms.{file_control_from};
ghost use Rattle.check_record.specs.Record.{length_fits, raw_records, piece_of, record_of, checked_of};
ghost use Rattle.mend.specs.Mend.{refilled, mended_record, mended_file, behind_nine};
ghost use Rattle.mend_file.specs.WorkJudging.{NineAt};

use crate::refilling;
use check_digit::GroupSums;
use check_record::{Wrong, step};
use check_sums::State;
use layout::{Answer, Fault, Refusal, Way};
use table_form::forms;

// The first record behind the 9 that is not 94 nines.
pub fn behind(way: Way, file: &[u8], before: usize) -> Answer<()>
    requires { (length_fits way (length file.now) ≡ true) × NineAt way file.now before }
    ensures { result ≡ behind_nine (raw_records way file.now) }
{
    let nines = forms::filler();
    let raws = file.chunks_exact(layout::record_bytes(way));
    for (i, raw) in raws.enumerate().skip(before + 1) {
        if !raw.starts_with(&nines) {
            return Err(Refusal::at(Fault::Past, i as u64 + 1, 0));
        }
    }
    Ok(())
}

// One record's check with these columns in place of its own; its line end is as it stands.
fn stepped(
    way: Way,
    groups: &GroupSums,
    st: State,
    columns: &[u8; 94],
    raw: &[u8],
) -> Result<State, Wrong>
    requires { Fair st × (st.sums.records < 1000000) × (length raw.now ≡ record_bytes way) }
    ensures step { stepped_as st result ≡ record_of st (piece_of way (refilled columns.now raw.now)) }
    ensures fair { IfOk result Fair }
{
    let tried = step::check(groups, st, columns);
    if tried.is_ok() && !step::closed(way, raw) {
        return Err(Wrong {
            fault: Fault::LineEnd,
            field: 0,
        });
    }
    tried
}

// The mended record's check.
fn mended_step(way: Way, groups: &GroupSums, st: State, raw: &[u8]) -> Result<State, Wrong>
    requires { Fair st × (st.sums.records < 1000000) × (length raw.now ≡ record_bytes way) }
    ensures step { stepped_as st result ≡ record_of st (piece_of way (mended_record st.sums st.header raw.now)) }
    ensures fair { IfOk result Fair }
{
    let header = st.header;
    let columns = refilling::mended(st.sums, &header, text::chunk(raw, 0));
    stepped(way, groups, st, &columns, raw)
}

// The mended 9's check.
fn control_step(way: Way, groups: &GroupSums, st: State, raw: &[u8]) -> Result<State, Wrong>
    requires { Fair st × (st.sums.records < 1000000) × (length raw.now ≡ record_bytes way) }
    ensures step { stepped_as st result ≡ record_of st (piece_of way (refilled (file_control_from st.sums) raw.now)) }
    ensures fair { IfOk result Fair }
{
    stepped(way, groups, st, &forms::file_control(st.sums), raw)
}

// Whether a record that begins with b ends the file, behind one that begins with last.
fn ends_file(last: u8, b: u8) -> bool
    ensures { result ≡ (eqb b 57 && eqb last 56) }
{
    (b == b'9') & (last == b'8')
}

// What the check of the mended file answers. Nothing is put: its records are formed one at a time up to the 9, and the fillers
// behind it are right.
pub fn judged(way: Way, file: &[u8]) -> Answer<usize>
    requires { length_fits way (length file.now) ≡ true }
    ensures answer { answer_of result ≡ (checked_of way (mended_file way file.now)).answer }
    ensures before { IfOk result (NineAt way file.now) }
{
    let groups = GroupSums::new();
    let mut st = check_sums::start();
    let mut last = 0;
    for (i, raw) in file.chunks_exact(layout::record_bytes(way)).enumerate() {
        let refused = |wrong: Wrong| Refusal::at(wrong.fault, i as u64 + 1, wrong.field);
        if ends_file(last, raw[0]) {
            control_step(way, &groups, st, raw).map_err(refused)?;
            return Ok(i);
        }
        match mended_step(way, &groups, st, raw) {
            Ok(next) => st = next,
            Err(wrong) => return Err(refused(wrong)),
        }
        last = raw[0];
    }
    Err(Refusal::at(Fault::Ended, st.sums.records + 1, 0))
}
