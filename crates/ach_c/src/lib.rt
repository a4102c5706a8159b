// The boundary: thin, total functions on slices and numbers for callers in C, Rust and other languages (include/ach.h).
#![tactic(auto)]

ghost use Rattle.funds.specs.Funds.{runs_out};
ghost use Rattle.funds.specs.Outcome.{check_of};
ghost use Rattle.alter.specs.Alter.{alter_listed_of};
ghost use Rattle.ach.specs.Told.{way_of};
ghost use Rattle.ach_c.specs.Tells.{TellsChecked, TellsMade, TellsTakenOut, TellsMended, TellsAltered, TellsAsked, TellsFound};
ghost use Rattle.mend.specs.Mend.{mend_of};
ghost use Rattle.csv_entry.specs.Import.{import_of};
ghost use Rattle.csv_export.specs.Export.{export_of};
ghost use Rattle.recall_view.specs.RecallView.{take_out_of};
ghost use Rattle.view.specs.Outcome.{read_of, write_of, addendum_answer, addendum_of};

use ach::told;
use layout::EntryNo;

#[unsafe(no_mangle)]
pub extern "C" fn ach_check(
    way: u64,
    file: &[u8],
    acceptance: &mut [u64; 29],
    rows: &mut [u64],
) -> u64
    ensures { TellsChecked (check_of (way_of way) file.now rows.old) acceptance.old result acceptance.new rows.new }
{
    let checked = ach::check(told::way_of(way), file, rows);
    told::tell_checked(checked, acceptance)
}

#[unsafe(no_mangle)]
pub extern "C" fn ach_read(way: u64, file: &[u8], table: &mut [u8], length: &mut u64) -> u64
    ensures { TellsMade (read_of (way_of way) file.now table.old) length.old result table.new length.new }
{
    let made = ach::read(told::way_of(way), file, table);
    told::tell(made, length)
}

#[unsafe(no_mangle)]
pub extern "C" fn ach_write(way: u64, table: &[u8], file: &mut [u8], length: &mut u64) -> u64
    ensures { TellsMade (write_of (way_of way) table.now file.old) length.old result file.new length.new }
{
    let made = ach::write(told::way_of(way), table, file);
    told::tell(made, length)
}

#[unsafe(no_mangle)]
pub extern "C" fn ach_import(
    filerow: &[u8],
    batchrow: &[u8],
    lines: &[u8],
    table: &mut [u8],
    length: &mut u64,
) -> u64
    ensures { TellsMade (import_of filerow.now batchrow.now lines.now table.old) length.old result table.new length.new }
{
    let made = ach::import(filerow, batchrow, lines, table);
    told::tell(made, length)
}

#[unsafe(no_mangle)]
pub extern "C" fn ach_export(table: &[u8], lines: &mut [u8], length: &mut u64) -> u64
    ensures { TellsMade (export_of table.now lines.old) length.old result lines.new length.new }
{
    let made = ach::export(table, lines);
    told::tell(made, length)
}

#[unsafe(no_mangle)]
pub extern "C" fn ach_take_out(
    way: u64,
    file: &mut [u8],
    entries: &[u64],
    rows: &mut [u64],
    length: &mut u64,
) -> u64
    ensures { TellsTakenOut (take_out_of (way_of way) file.old entries.now rows.old) length.old result file.new rows.new length.new }
{
    let made = ach::take_out(told::way_of(way), file, entries, rows);
    told::tell(made, length)
}

#[unsafe(no_mangle)]
pub extern "C" fn ach_mend(
    way: u64,
    file: &[u8],
    mended: &mut [u8],
    length: &mut u64,
    changes: &mut [u8],
    listed: &mut u64,
) -> u64
    ensures { TellsMended (mend_of (way_of way) file.now mended.old changes.old) length.old listed.old result mended.new length.new changes.new listed.new }
{
    match ach::mend(told::way_of(way), file, mended, changes) {
        Ok(put) => {
            *length = put.length;
            *listed = put.listed;
            0
        }
        Err(refusal) => told::code_of(Err(refusal)),
    }
}

#[unsafe(no_mangle)]
pub extern "C" fn ach_alter(
    way: u64,
    file: &mut [u8],
    rows: &mut [u64],
    entry: u64,
    amount: u64,
    difference: &mut i64,
) -> u64
    ensures { TellsAltered (alter_listed_of (way_of way) file.old rows.old entry amount) difference.old result file.new rows.new difference.new }
{
    let altered = ach::alter(told::way_of(way), file, rows, EntryNo(entry), amount);
    told::tell(altered, difference)
}

#[unsafe(no_mangle)]
pub extern "C" fn ach_addendum(
    way: u64,
    file: &[u8],
    entry: u64,
    start: &mut u64,
    length: &mut u64,
) -> u64
    ensures { TellsAsked (addendum_answer (way_of way) file.now entry) (addendum_of (way_of way) file.now entry) start.old length.old result start.new length.new }
{
    match ach::asked_span(told::way_of(way), file, EntryNo(entry)) {
        Ok(span) => {
            *start = span.from as u64;
            *length = span.size as u64;
            0
        }
        Err(refusal) => told::code_of(Err(refusal)),
    }
}

// 1 where a row is over the limit, and 0 where none is.
#[unsafe(no_mangle)]
pub extern "C" fn ach_runs_out(rows: &[u64], limit: u64, answer: &mut [u64; 3]) -> u64
    ensures { TellsFound (runs_out limit rows.now) answer.old result answer.new }
{
    let funds = ach::runs_out(rows, limit);
    answer[0] = funds.rows;
    match funds.over {
        Some(over) => {
            answer[1] = over.record;
            answer[2] = over.credits;
            1
        }
        None => {
            answer[1] = 0;
            answer[2] = 0;
            0
        }
    }
}
