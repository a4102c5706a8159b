// What a line becomes: its faults, and the row of its entry.
ghost use Rattle.std.specs.Prelude.{◌+◌, ◌*◌, ◌≤◌, ◌≡◌, true, false, length, map, min, is_some, IfSome, IfOk, Ok};
ghost use Rattle.text.specs.Decimal.{value};
ghost use Rattle.check_record.specs.Verdict.{verdict_of};
ghost use Rattle.csv_cells.specs.Cells.{undoubled, line_size};
ghost use Rattle.csv_entry.specs.Entries.{amount_right, cents_in, field_wide, field_right, field_fault, try, texts_verdict, line_verdict, columns_of, column_at, empty_row, row_of_line};

use crate::Placed;
use check_record::{Verdict, Wrong};
use layout::Fault;

// The field of a line that is the amount, of those counted from 1. The others are texts.
const AMOUNT: usize = 4;

// Where each field begins in the entry's row, and behind the last where it ends.
static COLUMNS: [usize; 7] = [0, 2, 11, 28, 38, 53, 75];

// The number that digits write, or the largest one where it does not fit.
#[tactic(auto, using(text::proofs::DecimalLaws::value_more))]
fn capped(digits: &[u8]) -> u64
    ensures { result ≡ min (value digits.now) u64.MAX }
{
    let mut n = 0u64;
    for b in digits {
        n = n.saturating_mul(10).saturating_add(text::digit(*b));
    }
    n
}

// The cents of the amount that a text without quotes writes, where it has the form and the columns for it.
fn amount(p: &[u8]) -> Option<u64>
    ensures right { is_some result ≡ amount_right p.now }
    ensures cents { IfSome result (λ cents. (cents ≡ cents_in p.now) × (cents ≤ 9999999999)) }
{
    let (front, cents) = p.split_last_chunk::<2>()?;
    let (point, dollars) = front.split_last()?;
    if *point != b'.' || dollars.is_empty() || !text::digits(dollars) || !text::digits(cents) {
        return None;
    }
    let dollars = capped(dollars);
    if 99_999_999 < dollars {
        return None;
    }
    Some(dollars * 100 + text::number(cents))
}

// The columns that field k of a line has in the entry's row.
fn width(k: usize) -> usize
    requires { (1 ≤ k) × (k ≤ 6) }
    ensures { result ≡ field_wide k }
{
    COLUMNS[k] - COLUMNS[k - 1]
}

// Whether field k, by what stands between its quotes, has its form or room in its columns.
#[tactic(auto, using(std::proofs::lemmas::Bool::Decides::nat_tests, crate::proofs::AmountLaws::amount_same))]
fn field_verdict(k: usize, inner: &[u8]) -> Verdict
    requires { (1 ≤ k) × (k ≤ 6) }
    ensures { result ≡ try (field_right k (undoubled false inner.now)) (field_fault k) k (Ok tt) }
{
    let (right, fault) = if k == AMOUNT {
        (amount(inner).is_some(), Fault::Cents)
    } else {
        (csv_cells::text_size(inner) <= width(k), Fault::Long)
    };
    if right {
        Ok(())
    } else {
        Err(Wrong {
            fault,
            field: k as u64,
        })
    }
}

// The first fault of the six fields.
fn fields_verdict(fields: &[&[u8]; 6]) -> Verdict
    ensures { result ≡ texts_verdict 1 (map (λ field. undoubled false field.now) fields.now) }
{
    for (i, inner) in fields.iter().enumerate() {
        field_verdict(i + 1, inner)?;
    }
    Ok(())
}

// The first fault of the line at the front of these bytes, and where there is none the bytes that it has.
pub fn tried(s: &[u8]) -> Result<usize, Wrong>
    ensures verdict { verdict_of result ≡ line_verdict s.now }
    ensures size { IfOk result (λ n. n ≡ line_size s.now) }
{
    let Some(line) = csv_cells::six_fields(s) else {
        return Err(Wrong {
            fault: Fault::Comma,
            field: 0,
        });
    };
    fields_verdict(&line.fields)?;
    Ok(line.size)
}

// Writes field k over its columns.
#[tactic(auto, using(std::proofs::lemmas::Bool::Decides::nat_tests, crate::proofs::AmountLaws::amount_same, crate::proofs::AmountLaws::amount_plain))]
fn put_field(columns: &mut [u8], k: usize, inner: &[u8])
    requires right { field_right k (undoubled false inner.now) ≡ true }
    requires wide { length columns.old ≡ field_wide k }
    ensures { columns.new ≡ columns_of k (undoubled false inner.now) }
{
    if k == AMOUNT {
        text::put_number(columns, amount(inner).unwrap());
    } else {
        csv_cells::put_text(columns, inner);
    }
}

// A row with its six fields blank.
fn empty_row(bank: &[u8; 8], number: u64) -> [u8; 93]
    ensures { result ≡ empty_row bank.now number }
{
    let mut row = [b' '; 93];
    row[77] = b'0';
    text::copy_into(&mut row, 78, bank);
    text::put_number(&mut row[86..], number);
    row
}

// The row of a line that has no fault, and the bytes of the line.
pub fn placed(s: &[u8], bank: &[u8; 8], number: u64) -> Placed
    requires { line_verdict s.now ≡ Ok tt }
    ensures { (result.row ≡ row_of_line bank.now number s.now) × (result.size ≡ line_size s.now) }
{
    let line = csv_cells::six_fields(s).unwrap();
    let mut row = empty_row(bank, number);
    for (i, inner) in line.fields.iter().enumerate() {
        put_field(&mut row[COLUMNS[i]..COLUMNS[i + 1]], i + 1, inner);
    }
    Placed {
        row,
        size: line.size,
    }
}
