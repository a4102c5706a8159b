// The comma lines of a table's entries: how long they are, and each put behind the one before.
ghost use Rattle.std.specs.Prelude.{◌+◌, ◌*◌, ◌≤◌, ◌<◌, ◌≡◌, length};
ghost use Rattle.table_read.specs.WorkPuts.{Puts, Room};
ghost use Rattle.csv_export.specs.Lining.{line_of_row, lines_at};

use crate::quoting;
use crate::quoting::Out;
use table_form::shape;

// How many bytes the line of an entry row takes.
pub fn line_size(row: &[u8; 93]) -> usize
    ensures { (result ≡ length (line_of_row row.now)) × (result ≤ 200) }
{
    let front = quoting::text_size(&row[..2])
        + quoting::text_size(&row[2..11])
        + quoting::text_size(&row[11..28]);
    let back = quoting::amount_size(text::chunk(row, 28))
        + quoting::text_size(&row[38..53])
        + quoting::text_size(&row[53..75]);
    front + back + 7
}

// Puts the line of an entry row.
pub fn put_line(row: &[u8; 93], out: &mut Out)
    requires { Room (line_of_row row.now) out.old.bytes.now out.old.to }
    ensures puts { Puts (line_of_row row.now) out.old.bytes.now out.new.bytes.now out.old.to out.new.to }
    ensures lent { out.new.bytes.ghost_name ≡ out.old.bytes.ghost_name }
{
    out.put_text(&row[..2], b',');
    out.put_text(&row[2..11], b',');
    out.put_text(&row[11..28], b',');
    out.put_amount(text::chunk(row, 28), b',');
    out.put_text(&row[38..53], b',');
    out.put_text(&row[53..75], b'\r');
    out.put(b'\n');
}

// How many bytes the lines of the entry rows take.
pub fn lines_size(table: &[u8], from: usize, entries: usize) -> usize
    requires { (from + 93 * entries ≤ length table.now) × (entries < 1000000) }
    ensures { (result ≡ length (lines_at table.now from entries)) × (result ≤ 200000000) }
{
    shape::rows(table, from, entries)
        .iter()
        .map(line_size)
        .sum()
}

// Puts the lines of the entry rows to the front of memory that has room for them.
pub fn put_lines(table: &[u8], from: usize, entries: usize, lines: &mut [u8]) -> usize
    requires { (from + 93 * entries ≤ length table.now) × Room (lines_at table.now from entries) lines.old 0 }
    ensures { Puts (lines_at table.now from entries) lines.old lines.new 0 result }
{
    let mut out = Out {
        bytes: lines,
        to: 0,
    };
    for row in shape::rows(table, from, entries) {
        put_line(row, &mut out);
    }
    out.to
}
