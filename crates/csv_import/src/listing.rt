// The lines of a client's list, one after the other: the first fault among them, and the table that they become.
ghost use Rattle.std.specs.Prelude.{◌+◌, ◌^◌, ◌≤◌, ◌<◌, ◌≡◌, ◌++◌, Ok, length, drop, IfOk};
ghost use Rattle.std.specs.Iterator.{YieldsFirst, item_count};
ghost use Rattle.layout.specs.Answers.{answer_of};
ghost use Rattle.csv_cells.specs.Cells.{lines_in};
ghost use Rattle.csv_entry.specs.Import.{lines_answer, import_table};
ghost use Rattle.table_read.specs.WorkPuts.{Puts, Room};
ghost use Rattle.csv_import.specs.WorkListing.{head_bytes, rows_of, rows_bytes};

use csv_entry::entries;
use layout::{Answer, Refusal};
use table_read::putting;

// Lines of which none has a fault, and how many they are.
#[derive(Clone, Copy)]
pub struct Lines<'a> {
    pub bytes: &'a [u8],
    pub count: u64,
    pub ghost right: { lines_answer 1 (lines_in bytes.now) ≡ Ok tt },
    pub ghost counted: { count ≡ length (lines_in bytes.now) },
}

// The lines of a list, counted. The first faulty one is refused under its number, counted from 1.
pub fn listed(lines: &[u8]) -> Answer<Lines<'_>>
    ensures answer { answer_of result ≡ lines_answer 1 (lines_in lines.now) }
    ensures same { IfOk result (λ list. list.bytes.now ≡ lines.now) }
{
    let mut rest = lines;
    let mut count = 0;
    while !rest.is_empty() {
        count += 1;
        let tried = entries::tried(rest);
        let size = tried.map_err(|wrong| Refusal::at(wrong.fault, count, wrong.field))?;
        rest = &rest[size..];
    }
    Ok(Lines {
        bytes: lines,
        count,
    })
}

// The rows of the entries that lines without a fault become: the lines to come, the bank of the traces, and the number of the next line.
#[derive(Drop)]
pub struct Rows<'a> {
    pub rest: &'a [u8],
    pub bank: &'a [u8; 8],
    pub number: u64,
    pub ghost right: { lines_answer number (lines_in rest.now) ≡ Ok tt },
    pub ghost few: { number + length rest.now < 2 ^ 64 },
}

impl<'a> Lines<'a> {
    // Their rows, numbered from 1.
    pub fn rows(self, bank: &'a [u8; 8]) -> Rows<'a>
        ensures rest { result.rest.now ≡ self.entry.bytes.now }
        ensures bank { result.bank.now ≡ bank.now }
        ensures first { result.number ≡ 1 }
    {
        Rows {
            rest: self.bytes,
            bank,
            number: 1,
        }
    }
}

impl<'a> Iterator for Rows<'a> {
    type Item = [u8; 93];

    ghost next_gives = { YieldsFirst (λ s. rows_of s.bank.now s.number (lines_in s.rest.now)) };

    ghost remaining = { item_count (λ s. rows_of s.bank.now s.number (lines_in s.rest.now)) };

    fn next(&mut self) -> Option<[u8; 93]> {
        if self.rest.is_empty() {
            return None;
        }
        let line = entries::placed(self.rest, self.bank, self.number);
        self.rest = &self.rest[line.size..];
        self.number += 1;
        Some(line.row)
    }
}

// Puts all that stands before the entries' rows: the file row and the batch row, each behind its count, and the entries' count.
fn put_head(filerow: &[u8; 85], batchrow: &[u8; 95], count: u64, table: &mut [u8]) -> usize
    requires { Room (head_bytes filerow.now batchrow.now count) table.old 0 }
    ensures { Puts (head_bytes filerow.now batchrow.now count) table.old table.new 0 result }
{
    let file = putting::put_count(1, table, 0);
    let batches = putting::put_part(filerow, 0, 85, table, file);
    let batch = putting::put_count(1, table, batches);
    let own = putting::put_part(batchrow, 0, 89, table, batch);
    let entries = putting::put_count(count, table, own);
    putting::put_count(count, table, entries)
}

// Puts the row of each line.
fn put_rows(bank: &[u8; 8], list: Lines, table: &mut [u8], start: usize) -> usize
    requires { Room (rows_bytes bank.now 1 (lines_in list.bytes.now)) table.old start }
    ensures { Puts (rows_bytes bank.now 1 (lines_in list.entry.bytes.now)) table.old table.new start result }
{
    let mut to = start;
    for row in list.rows(bank) {
        to = putting::put_part(&row, 0, 93, table, to);
    }
    to
}

// The table of lines without a fault, to the front of memory that has room for it; the bytes past it stay.
pub fn put_table(filerow: &[u8; 85], batchrow: &[u8; 95], list: Lines, table: &mut [u8])
    requires { (list.count ≤ 999999) × (length (import_table filerow.now batchrow.now list.bytes.now) ≤ length table.old) }
    ensures { table.new ≡ import_table filerow.now batchrow.now list.entry.bytes.now ++ drop (length (import_table filerow.now batchrow.now list.entry.bytes.now)) table.old }
{
    let rows = put_head(filerow, batchrow, list.count, table);
    let end = put_rows(text::chunk(batchrow, 74), list, table, rows);
    putting::put_count(0, table, end);
}
