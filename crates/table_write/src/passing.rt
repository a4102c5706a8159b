// The two passes over the records of the formed file: the first only checks them, the second writes them.
ghost use Rattle.std.specs.Prelude.{◌+◌, ◌≤◌, ◌≡◌, true, ◌++◌, length, drop};
ghost use Rattle.std.proofs.lemmas.List.Edits.{sets};
ghost use Rattle.layout.specs.declared.Way.{Way};
ghost use Rattle.layout.specs.Ways.{end_of};
ghost use Rattle.check_record.specs.Record.{checked_of};
ghost use Rattle.view.specs.View.{records_of};
ghost use Rattle.view.specs.Table.{shaped, view_of_table, formed};
ghost use Rattle.layout.specs.Paper.{refusal};
ghost use Rattle.table_form.specs.WorkSections.{size_by};
ghost use Rattle.table_form.specs.WorkWalking.{first_of};

use check_digit::GroupSums;
use check_record::step;
use layout::{Answer, Fault, Refusal, Way};
use table_form::walking::Cursor;
use table_form::{shape, walking};

// The cursor before the first record.
fn opened(table: &[u8]) -> Cursor
    requires { length table.now ≡ size_by table.now }
    ensures { result ≡ first_of table.now }
{
    let s = shape::sections(table);
    Cursor {
        batches: s.batches,
        batch: 97,
        left: 0,
        entry: s.entryrows,
        last: 0,
        text: s.textrows,
    }
}

// What the check of the formed file answers, in either way: the line ends of a formed file are right. Nothing is written.
pub fn judged(table: &[u8]) -> Answer<()>
    requires { (shaped table.now ≡ true) × (length (records_of (view_of_table table.now)) ≤ 1000000) }
    ensures { result ≡ (checked_of Way.Plain (formed Way.Plain table.now)).answer }
{
    let groups = GroupSums::new();
    let mut c = opened(table);
    let mut st = check_sums::start();
    while !check_order::complete(st.place, st.sums.records) {
        let rec = walking::form(table, c, &st);
        let number = st.sums.records + 1;
        let tried = step::check(&groups, st, &rec);
        let next = tried.map_err(|wrong| Refusal::at(wrong.fault, number, wrong.field))?;
        c = walking::advance(table, c, st.place);
        st = next;
    }
    Ok(())
}

// Puts the line end of the way behind a record.
pub fn end_line(way: Way, file: &mut [u8], at: usize)
    requires { at + length (end_of way) ≤ length file.old }
    ensures { file.new ≡ sets file.old at (end_of way) }
{
    match way {
        Way::Plain => {}
        Way::Lined => text::copy_into(file, at, b"\r\n"),
    }
}

// Writes the formed file, which is granted, to the front of a file with room for it.
pub fn put_formed(way: Way, table: &[u8], file: &mut [u8])
    requires { (shaped table.now ≡ true) × (length (records_of (view_of_table table.now)) ≤ 1000000) × ((checked_of Way.Plain (formed Way.Plain table.now)).answer ≡ Ok tt) × (length (formed way table.now) ≤ length file.old) }
    ensures { file.new ≡ formed way table.now ++ drop (length (formed way table.now)) file.old }
{
    let mut c = opened(table);
    let mut st = check_sums::start();
    let mut at = 0;
    while !check_order::complete(st.place, st.sums.records) {
        let rec = walking::form(table, c, &st);
        text::copy_into(file, at, &rec);
        end_line(way, file, at + 94);
        at += layout::record_bytes(way);
        let line = check_order::line_at(st.place, st.sums.records, rec[0]);
        c = walking::advance(table, c, st.place);
        st = check_sums::tally(st, line, &rec);
    }
}
