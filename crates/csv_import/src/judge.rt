// The check of the file that the table will form: its records one by one, from the rows and the lines.
ghost use Rattle.std.specs.Prelude.{◌≤◌, ◌<◌, ◌≡◌, ◌∷◌, List, Ok, Err, IfOk, IfErr};
ghost use Rattle.layout.specs.declared.Way.{Way};
ghost use Rattle.check_sums.specs.WorkFair.{Fair};
ghost use Rattle.check_record.specs.Record.{Piece, bare, record_of, run_from, checked_of};
ghost use Rattle.check_record.specs.Verdict.{stepped_as};
ghost use Rattle.view.specs.Table.{formed};
ghost use Rattle.csv_entry.specs.Import.{import_table};

use crate::listing::Lines;
use check_digit::GroupSums;
use check_record::step;
use check_sums::State;
use layout::{Answer, Refusal};
use table_form::forms;

// The state behind one record more, or its refusal.
fn behind(groups: &GroupSums, st: State, rec: &[u8; 94]) -> Answer<State>
    requires { Fair st × (st.sums.records < 1000000) }
    ensures passed { IfOk result (λ next. Fair next × (stepped_as st (Ok next) ≡ record_of st (bare rec.now))) }
    ensures refused { IfErr result (λ refusal. (rest : List Piece) → (run_from st (bare rec.now ∷ rest)).answer ≡ Err refusal) }
{
    let number = st.sums.records + 1;
    step::check(groups, st, rec).map_err(|wrong| Refusal::at(wrong.fault, number, wrong.field))
}

// What the check of the formed file answers, in either way. Nothing is written.
pub(crate) fn judged(filerow: &[u8; 85], batchrow: &[u8; 95], list: Lines) -> Answer<()>
    requires { list.count ≤ 999996 }
    ensures { result ≡ (checked_of Way.Plain (formed Way.Plain (import_table filerow.now batchrow.now list.entry.bytes.now))).answer }
{
    let groups = GroupSums::new();
    let opened = behind(&groups, check_sums::start(), &forms::file_header(filerow))?;
    let mut st = behind(&groups, opened, &forms::batch_header(batchrow))?;
    for row in list.rows(text::chunk(batchrow, 74)) {
        st = behind(&groups, st, &forms::entry(&row))?;
    }
    st = behind(&groups, st, &forms::batch_control(st.sums, &st.header))?;
    st = behind(&groups, st, &forms::file_control(st.sums))?;
    while !check_order::complete(st.place, st.sums.records) {
        st = behind(&groups, st, &forms::filler())?;
    }
    Ok(())
}
