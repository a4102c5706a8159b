// The pay table of a file's records, pass by pass, put into lent memory.
ghost use Rattle.std.specs.Prelude.{◌<◌, ◌≤◌, ◌≡◌, length};
ghost use Rattle.text.specs.Decimal.{render};
ghost use Rattle.layout.specs.Ways.{record_bytes};
ghost use Rattle.check_record.specs.Record.{columns_in};
ghost use Rattle.table_read.specs.WorkPasses.{between, row_of, row_bytes, count_after, batch_piece, batch_bytes, head_bytes, tail_bytes, whole_bytes};
ghost use Rattle.table_read.specs.WorkPuts.{Puts, Room};

use layout::{Acceptance, Way};

// Writes bytes `from` to `end` of a record at `to`, and gives the place behind them.
pub fn put_part(rec: &[u8], from: usize, end: usize, table: &mut [u8], to: usize) -> usize
    requires { (from ≤ end) × (end ≤ length rec.now) × Room (between from end rec.now) table.old to }
    ensures { Puts (between from end rec.now) table.old table.new to result }
{
    text::copy_into(table, to, &rec[from..end]);
    to + (end - from)
}

// Writes a count in six digits.
pub fn put_count(count: u64, table: &mut [u8], to: usize) -> usize
    requires { Room (render 6 count) table.old to }
    ensures { Puts (render 6 count) table.old table.new to result }
{
    let mut digits = [b'0'; 6];
    text::put_number(&mut digits, count);
    text::copy_into(table, to, &digits);
    to + 6
}

// Writes the part of a record that is of the kind asked for.
fn put_row(rec: &[u8; 94], kind: u8, from: usize, end: usize, table: &mut [u8], to: usize) -> usize
    requires { (from ≤ end) × (end ≤ 94) × Room (row_of kind from end rec.now) table.old to }
    ensures { Puts (row_of kind from end rec.now) table.old table.new to result }
{
    if rec[0] == kind {
        put_part(rec, from, end, table, to)
    } else {
        to
    }
}

// The pass for the entries or the addenda: one part of each record of their kind.
fn put_rows(
    way: Way,
    file: &[u8],
    kind: u8,
    from: usize,
    end: usize,
    table: &mut [u8],
    start: usize,
) -> usize
    requires { (from ≤ end) × (end ≤ 94) × Room (row_bytes kind from end (columns_in way file.now)) table.old start }
    ensures { Puts (row_bytes kind from end (columns_in way file.now)) table.old table.new start result }
{
    let mut to = start;
    for raw in file.chunks_exact(layout::record_bytes(way)) {
        to = put_row(text::chunk(raw, 0), kind, from, end, table, to);
    }
    to
}

// The entries since the last record 5, behind this record.
fn count_after(rec: &[u8; 94], count: u64) -> u64
    requires { count < 96000000 }
    ensures { result ≡ count_after rec.now count }
{
    match rec[0] {
        b'5' => 0,
        b'6' => count + 1,
        _ => count,
    }
}

// A batch's row stands where its record 5 is; its number of entries is known at its record 8.
fn put_batch_piece(rec: &[u8; 94], count: u64, table: &mut [u8], to: usize) -> usize
    requires { Room (batch_piece rec.now count) table.old to }
    ensures { Puts (batch_piece rec.now count) table.old table.new to result }
{
    match rec[0] {
        b'5' => {
            let behind = put_part(rec, 1, 75, table, to);
            put_part(rec, 79, 94, table, behind)
        }
        b'8' => put_count(count, table, to),
        _ => to,
    }
}

// The pass for the batches.
fn put_batches(way: Way, file: &[u8], table: &mut [u8], start: usize) -> usize
    requires { (length file.now ≤ 96000000) × Room (batch_bytes 0 (columns_in way file.now)) table.old start }
    ensures { Puts (batch_bytes 0 (columns_in way file.now)) table.old table.new start result }
{
    let mut to = start;
    let mut count = 0;
    for raw in file.chunks_exact(layout::record_bytes(way)) {
        let rec = text::chunk(raw, 0);
        to = put_batch_piece(rec, count, table, to);
        count = count_after(rec, count);
    }
    to
}

// The file's row behind its count, and the number of batches.
fn put_head(rec: &[u8; 94], batches: u64, table: &mut [u8]) -> usize
    requires { Room (head_bytes rec.now batches) table.old 0 }
    ensures { Puts (head_bytes rec.now batches) table.old table.new 0 result }
{
    let front = put_count(1, table, 0);
    let back = put_part(rec, 3, 34, table, front);
    let count = put_part(rec, 40, 94, table, back);
    put_count(batches, table, count)
}

// The entries and the addenda, each behind their count.
fn put_tail(way: Way, file: &[u8], entries: u64, addenda: u64, table: &mut [u8], to: usize) -> usize
    requires { Room (tail_bytes entries addenda (columns_in way file.now)) table.old to }
    ensures { Puts (tail_bytes entries addenda (columns_in way file.now)) table.old table.new to result }
{
    let rows = put_count(entries, table, to);
    let count = put_rows(way, file, b'6', 1, 94, table, rows);
    let texts = put_count(addenda, table, count);
    put_rows(way, file, b'7', 3, 83, table, texts)
}

// The whole table, front to back.
pub fn put_table(way: Way, file: &[u8], counts: &Acceptance, table: &mut [u8]) -> usize
    requires { (record_bytes way ≤ length file.now) × (length file.now ≤ 96000000) × Room (whole_bytes way file.now counts.now.batches counts.now.entries counts.now.addenda) table.old 0 }
    ensures { Puts (whole_bytes way file.now counts.now.batches counts.now.entries counts.now.addenda) table.old table.new 0 result }
{
    let rows = put_head(text::chunk(file, 0), counts.batches, table);
    let tail = put_batches(way, file, table, rows);
    put_tail(way, file, counts.entries, counts.addenda, table, tail)
}
