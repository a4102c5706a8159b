// The single-field check: a row of the record type's table against the record.
ghost use Rattle.std.specs.Prelude.{◌+◌, ◌≤◌, ◌-◌, ◌≡◌, true, length, get_or};
ghost use Rattle.layout.specs.Fields.{rows_of, no_row};
ghost use Rattle.layout.specs.WorkFits.{kind_fits};
ghost use Rattle.check_field.specs.Field.{sum_of, hash_rule, total_rule, as_batch_rule, kind_rule, field_of};
ghost use Rattle.check_across.specs.WorkSmall.{Small};

use check_across::Sums;
use check_alone::{Mark, need, own, texts};
use check_digit::GroupSums;
use layout::{Fault, Kind, Line, Sum};

// The sum that a control field repeats.
pub fn sum_of(sums: Sums, which: Sum) -> u64
    requires { Small sums }
    ensures { result ≡ sum_of sums which }
{
    match which {
        Sum::BatchRecords => sums.batchrecords,
        Sum::BatchHash => sums.batchhash,
        Sum::BatchDebit => sums.batchdebit,
        Sum::BatchCredit => sums.batchcredit,
        Sum::Batches => sums.batches,
        Sum::Blocks => (sums.records + 1).div_ceil(10),
        Sum::FileRecords => sums.entries + sums.addenda,
        Sum::FileHash => sums.hash,
        Sum::FileDebit => sums.debit,
        Sum::FileCredit => sums.credit,
    }
}

fn hash_rule(n: u64, p: &[u8]) -> Mark
    requires { length p.now ≤ 18 }
    ensures { result ≡ hash_rule n p.now }
{
    texts::number_is(n % 10_000_000_000, Fault::Hash, p)
}

fn total_rule(n: u64, p: &[u8]) -> Mark
    requires { length p.now ≤ 18 }
    ensures { result ≡ total_rule n p.now }
{
    texts::all_digits(p)?;
    need(n <= 999_999_999_999, Fault::Limit)?;
    need(text::number(p) == n, Fault::Total)
}

// The same bytes as record 5 has from this column on.
fn as_batch(header: &[u8; 94], column: usize, p: &[u8]) -> Mark
    requires from { 1 ≤ column }
    requires to { column - 1 + length p.now ≤ 94 }
    ensures { result ≡ as_batch_rule header.now column p.now }
{
    need(header[column - 1..].starts_with(p), Fault::Batch)
}

fn kind_check(
    groups: &GroupSums,
    sums: Sums,
    header: &[u8; 94],
    rec: &[u8; 94],
    kind: Kind,
    p: &[u8],
) -> Mark
    requires fits { kind_fits kind (length p.now) ≡ true }
    requires small { Small sums }
    ensures { result ≡ kind_rule sums header.now rec.now kind p.now }
{
    match kind {
        Kind::Type => Ok(()),
        Kind::Misplaced => Err(Fault::Misplaced),
        Kind::Past => Err(Fault::Past),
        Kind::Nines => texts::filled(b'9', p),
        Kind::Fixed(n) => texts::fixed(u64::from(n), p),
        Kind::Blanks => texts::filled(b' ', p),
        Kind::Digits => texts::all_digits(p),
        Kind::Optional => texts::optional_text(p),
        Kind::Mandatory => texts::mandatory_text(p),
        Kind::Date => texts::date(p),
        Kind::Own(rule) => own::own(groups, rule, p),
        Kind::Near(rule) => check_across::near(groups, sums, header, rec, rule, p),
        Kind::AsBatch(column) => as_batch(header, usize::from(column), p),
        Kind::Count(which) => texts::number_is(sum_of(sums, which), Fault::Count, p),
        Kind::Hash(which) => hash_rule(sum_of(sums, which), p),
        Kind::Total(which) => total_rule(sum_of(sums, which), p),
    }
}

// Field k, from 0, of a record that is taken for this line.
pub fn field(
    groups: &GroupSums,
    line: Line,
    k: usize,
    sums: Sums,
    header: &[u8; 94],
    rec: &[u8; 94],
) -> Mark
    requires { Small sums }
    ensures { result ≡ field_of sums header.now rec.now (get_or (rows_of line) k no_row) }
{
    let row = layout::row_of(line, k);
    let from = usize::from(row.first) - 1;
    let to = usize::from(row.last);
    kind_check(groups, sums, header, rec, row.kind, &rec[from..to])
}
