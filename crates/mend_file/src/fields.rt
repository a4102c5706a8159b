// The fields of two records compared: a row for each that differs, measured first and then put.
ghost use Rattle.std.specs.Prelude.{◌≤◌, ◌+◌, ◌≡◌, true, length};
ghost use Rattle.text.specs.Decimal.{render};
ghost use Rattle.text.specs.Rows.{columns, joined};
ghost use Rattle.layout.specs.Fields.{rows_of};
ghost use Rattle.layout.specs.WorkFits.{row_fits};
ghost use Rattle.table_read.specs.WorkPuts.{Puts, Room};
ghost use Rattle.mend.specs.Mend.{field_changes};
ghost use Rattle.mend_file.specs.WorkChanging.{listed_of, field_rows};

use crate::Listed;
use layout::{Line, Row};

// What a record says in this field.
fn field_text(row: Row, rec: &[u8]) -> &[u8]
    requires { (row_fits row ≡ true) × (94 ≤ length rec.now) }
    ensures { (result.now ≡ columns row.first row.last rec.now) × (length result.now ≤ 94) }
{
    &rec[usize::from(row.first) - 1..usize::from(row.last)]
}

// How much the row of one field takes: nothing where the field is the same.
fn field_listed(row: Row, old: &[u8], new: &[u8]) -> Listed
    requires { (row_fits row ≡ true) × (94 ≤ length old.now) × (94 ≤ length new.now) }
    ensures { (result ≡ listed_of (field_rows 0 1 row old.now new.now)) × (result.rows ≤ 1) × (result.bytes ≤ 197) }
{
    let was = field_text(row, old);
    let is = field_text(row, new);
    if was == is {
        return Listed { rows: 0, bytes: 0 };
    }
    Listed {
        rows: 1,
        bytes: 9 + was.len() + is.len(),
    }
}

// How much the rows of two records of this type take, whatever number they have.
pub fn listed(line: Line, old: &[u8], new: &[u8]) -> Listed
    requires { (94 ≤ length old.now) × (94 ≤ length new.now) }
    ensures { (result ≡ listed_of (field_changes 0 1 (rows_of line) old.now new.now)) × (result.rows ≤ 13) × (result.bytes ≤ 2561) }
{
    let mut all = Listed { rows: 0, bytes: 0 };
    for row in layout::rows(line) {
        let one = field_listed(*row, old, new);
        all.rows += one.rows;
        all.bytes += one.bytes;
    }
    all
}

// Puts a number in so many digits.
pub fn put_digits(wide: usize, n: u64, list: &mut [u8], to: usize) -> usize
    requires { Room (render wide n) list.old to }
    ensures { Puts (render wide n) list.old list.new to result }
{
    let end = to + wide;
    text::put_number(&mut list[to..end], n);
    end
}

// Puts a field's text.
fn put_text(bytes: &[u8], list: &mut [u8], to: usize) -> usize
    requires { Room bytes.now list.old to }
    ensures { Puts bytes.now list.old list.new to result }
{
    text::copy_into(list, to, bytes);
    to + bytes.len()
}

// Puts the row of one field, or nothing where the field is the same.
fn put_field(
    row: Row,
    number: u64,
    k: u64,
    old: &[u8],
    new: &[u8],
    list: &mut [u8],
    to: usize,
) -> usize
    requires { (row_fits row ≡ true) × (94 ≤ length old.now) × (94 ≤ length new.now) × Room (joined (field_rows number k row old.now new.now)) list.old to }
    ensures { Puts (joined (field_rows number k row old.now new.now)) list.old list.new to result }
{
    let was = field_text(row, old);
    let is = field_text(row, new);
    if was == is {
        return to;
    }
    let field = put_digits(7, number, list, to);
    let texts = put_digits(2, k, list, field);
    let second = put_text(was, list, texts);
    put_text(is, list, second)
}

// Puts the rows of two records of this type, which have this number.
pub fn put(line: Line, number: u64, old: &[u8], new: &[u8], list: &mut [u8], start: usize) -> usize
    requires { (94 ≤ length old.now) × (94 ≤ length new.now) × Room (joined (field_changes number 1 (rows_of line) old.now new.now)) list.old start }
    ensures { Puts (joined (field_changes number 1 (rows_of line) old.now new.now)) list.old list.new start result }
{
    let mut to = start;
    for (k, row) in layout::rows(line).iter().enumerate() {
        to = put_field(*row, number, k as u64 + 1, old, new, list, to);
    }
    to
}
