// The public functions: every one takes any bytes, does its own checking, and grants or names the first refusal.
#![tactic(auto)]

ghost use Rattle.layout.specs.Answers.{checked_as, made_as, altered_as};
ghost use Rattle.find_entry.specs.AskedSpan.{asked_as};
ghost use Rattle.funds.specs.RunsOut.{runs_out_as};
ghost use Rattle.mend.specs.Mended.{mended_as};
ghost use Rattle.ach.specs.Permits.{Checks, Finds, Reads, Writes, Alters, TakesOut, Mends, Imports, Exports, HandsOut, Explains, Spans};

use find_entry::Span;
use funds::{Funds, filling};
use layout::{Acceptance, Answer, EntryNo, Way};
use mend::Lengths;

pub mod told;

// A file is accepted exactly if it keeps the rules; else the first refusal is named. Its list, one row a batch, goes to the front of the lent
// rows, and too few of them are refused last.
pub fn check(way: Way, file: &[u8], rows: &mut [u64]) -> Answer<Acceptance>
    ensures { Checks way file.now rows.old (checked_as result) rows.new }
{
    filling::check(way, file, rows)
}

// Where the money runs out: of any list the first row over the limit.
pub fn runs_out(rows: &[u64], limit: u64) -> Funds
    ensures { Finds rows.now limit (runs_out_as result) }
{
    funds::runs_out(rows, limit)
}

// The pay table of an accepted file, written to the front of the lent table.
pub fn read(way: Way, file: &[u8], table: &mut [u8]) -> Answer<u64>
    ensures { Reads way file.now table.old (made_as result) table.new }
{
    table_read::read(way, file, table)
}

// The file of a pay table, written to the front of the lent file.
pub fn write(way: Way, table: &[u8], file: &mut [u8]) -> Answer<u64>
    ensures { Writes way table.now file.old (made_as result) file.new }
{
    table_write::write(way, table, file)
}

// One entry's amount altered in place, with the totals of its side; the lent rows begin with the file's list, and then with the altered file's.
pub fn alter(
    way: Way,
    file: &mut [u8],
    rows: &mut [u64],
    entry: EntryNo,
    amount: u64,
) -> Answer<i64>
    ensures { Alters way file.old rows.old entry.0 amount (altered_as result) file.new rows.new }
{
    alter::alter(way, file, rows, entry, amount)
}

// The entries of a list taken out in place, with their addenda; the freed bytes become blanks, and the list of what is left goes to the front
// of the lent rows.
pub fn take_out(way: Way, file: &mut [u8], entries: &[u64], rows: &mut [u64]) -> Answer<u64>
    ensures { TakesOut way file.old entries.now rows.old (made_as result) file.new rows.new }
{
    recall::take_out(way, file, entries, rows)
}

// A file whose batch controls, file control and filler are replaced by what its other records call for, written to the front of one lent
// buffer, and the list of what was changed, written to the front of another.
pub fn mend(way: Way, file: &[u8], mended: &mut [u8], changes: &mut [u8]) -> Answer<Lengths>
    ensures { Mends way file.now mended.old changes.old (mended_as result) mended.new changes.new }
{
    mend_file::mend(way, file, mended, changes)
}

// The pay table of a client's comma lines, with the given rows for file and batch, written to the front of the lent table.
pub fn import(filerow: &[u8], batchrow: &[u8], lines: &[u8], table: &mut [u8]) -> Answer<u64>
    ensures { Imports filerow.now batchrow.now lines.now table.old (made_as result) table.new }
{
    csv_import::import(filerow, batchrow, lines, table)
}

// The comma lines of a pay table, written to the front of the lent lines.
pub fn export(table: &[u8], lines: &mut [u8]) -> Answer<u64>
    ensures { Exports table.now lines.old (made_as result) lines.new }
{
    csv_export::export(table, lines)
}

// An entry's addendum, handed back as the part of the lent file that holds it, or its empty part.
pub fn addendum(way: Way, file: &[u8], entry: EntryNo) -> &[u8]
    ensures { HandsOut way file.now entry.0 result.now }
{
    find_entry::addendum(way, file, entry)
}

// The second question, of the same file and number: why there is no addendum.
pub fn addendum_answer(way: Way, file: &[u8], entry: EntryNo) -> Answer<()>
    ensures { Explains way file.now entry.0 result }
{
    find_entry::addendum_answer(way, file, entry)
}

// The answer and where the addendum stands in the file, for callers that cannot be handed a part of it.
pub fn asked_span(way: Way, file: &[u8], entry: EntryNo) -> Answer<Span>
    ensures { Spans way file.now entry.0 (asked_as result) }
{
    find_entry::asked_span(way, file, entry)
}
