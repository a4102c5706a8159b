// What each record adds to the counts, the hash, the totals and the rows by code.
#![tactic(auto)]

ghost use Rattle.std.specs.Prelude.{ℕ, ◌+◌, ◌*◌, ◌≤◌, ◌<◌, ◌≡◌, List, length, get_or};
ghost use Rattle.check_codes.specs.Codes.{code_of, debit_part, credit_part};
ghost use Rattle.check_across.specs.Across.{said_of};
ghost use Rattle.check_across.specs.WorkSmall.{Small};
ghost use Rattle.check_sums.specs.WorkFair.{SmallRows, Fair};
ghost use Rattle.check_sums.specs.Sums.{add_record, add_batch, entered, add_addendum, next_sums, next_header, add_to_row, next_by_code, start, tally};

use check_across::{Numbers, Sums};
use check_order::Place;
use layout::Line;

// What is known of the records so far; header is the record 5 of the batch.
#[derive(Clone, Copy)]
pub struct State {
    pub place: Place,
    pub sums: Sums,
    pub header: [u8; 94],
    pub bycode: [u64; 24],
}

fn add_record(sums: Sums) -> Sums
    requires { Small sums × (sums.records < 1000000) }
    ensures { (result ≡ add_record sums) × Small result }
{
    Sums {
        records: sums.records + 1,
        ..sums
    }
}

fn add_batch(sums: Sums, rec: &[u8; 94]) -> Sums
    requires { Small sums × (sums.records < 1000000) }
    ensures { (result ≡ add_batch sums rec.now) × Small result }
{
    Sums {
        records: sums.records + 1,
        batches: sums.batches + 1,
        batchrecords: 0,
        batchhash: 0,
        batchdebit: 0,
        batchcredit: 0,
        number: check_across::batch_number(rec),
        trace: 0,
        ..sums
    }
}

fn entered(sums: Sums, bank: u64, debit: u64, credit: u64, trace: u64) -> Sums
    requires { Small sums × (sums.records < 1000000) × (bank < 10000000000) × (debit < 10000000000) × (credit < 10000000000) }
    ensures { (result ≡ entered sums bank debit credit trace) × Small result }
{
    Sums {
        records: sums.records + 1,
        entries: sums.entries + 1,
        hash: sums.hash + bank,
        debit: sums.debit + debit,
        credit: sums.credit + credit,
        batchrecords: sums.batchrecords + 1,
        batchhash: sums.batchhash + bank,
        batchdebit: sums.batchdebit + debit,
        batchcredit: sums.batchcredit + credit,
        trace,
        ..sums
    }
}

fn add_entry(sums: Sums, said: Numbers) -> Sums
    requires { Small sums × (sums.records < 1000000) × (said.bank < 10000000000) × (said.amount < 10000000000) }
    ensures { (result ≡ entered sums said.bank (debit_part (code_of said.code) said.amount) (credit_part (code_of said.code) said.amount) said.trace) × Small result }
{
    let code = check_codes::code_of(said.code);
    let debit = check_codes::debit_part(code, said.amount);
    let credit = check_codes::credit_part(code, said.amount);
    entered(sums, said.bank, debit, credit, said.trace)
}

fn add_addendum(sums: Sums) -> Sums
    requires { Small sums × (sums.records < 1000000) }
    ensures { (result ≡ add_addendum sums) × Small result }
{
    Sums {
        records: sums.records + 1,
        addenda: sums.addenda + 1,
        batchrecords: sums.batchrecords + 1,
        ..sums
    }
}

pub fn next_sums(sums: Sums, line: Line, said: Numbers, rec: &[u8; 94]) -> Sums
    requires { Small sums × (sums.records < 1000000) × (said ≡ said_of rec.now) }
    ensures { (result ≡ next_sums sums line rec.now) × Small result }
{
    match line {
        Line::BatchHeader => add_batch(sums, rec),
        Line::Entry => add_entry(sums, said),
        Line::Addendum => add_addendum(sums),
        _ => add_record(sums),
    }
}

pub fn next_header(header: [u8; 94], line: Line, rec: &[u8; 94]) -> [u8; 94]
    ensures { result ≡ next_header header line rec.now }
{
    match line {
        Line::BatchHeader => *rec,
        _ => header,
    }
}

// One entry more in row k, and its cents.
fn add_to_row(rows: &mut [u64; 24], k: usize, cents: u64)
    requires { (k < 12) × (get_or rows.old (2 * k) 0 ≤ 10000000000000000) × (get_or rows.old (2 * k + 1) 0 ≤ 10000000000000000) × (cents < 10000000000) }
    ensures { rows.new ≡ add_to_row rows.old k cents }
{
    rows[2 * k] += 1;
    rows[2 * k + 1] += cents;
}

pub fn count_in_row(rows: &mut [u64; 24], line: Line, said: Numbers)
    requires { SmallRows 1000000 rows.old × (said.amount < 10000000000) }
    ensures { ((n : ℕ) → SmallRows n rows.old → SmallRows (n + 1) rows.new) × ((r : List ℕ) → said ≡ said_of r → rows.new ≡ next_by_code rows.old line r) }
{
    if let Line::Entry = line {
        add_to_row(rows, check_codes::code_row(said.code), said.amount);
    }
}

// After a record that passed.
pub fn tally(st: State, line: Line, rec: &[u8; 94]) -> State
    requires { Fair st × (st.sums.records < 1000000) }
    ensures { (result ≡ tally st line rec.now) × Fair result × (result.sums.records ≡ st.sums.records + 1) }
{
    let said = check_across::said(rec);
    let mut bycode = st.bycode;
    count_in_row(&mut bycode, line, said);
    let header = next_header(st.header, line, rec);
    State {
        place: check_order::next_place(st.place, line, rec),
        sums: next_sums(st.sums, line, said, rec),
        header,
        bycode,
    }
}

// Before the first record.
pub fn start() -> State
    ensures { (result ≡ start) × Fair result }
{
    State {
        place: Place::Start,
        sums: Sums {
            records: 0,
            batches: 0,
            entries: 0,
            addenda: 0,
            hash: 0,
            debit: 0,
            credit: 0,
            batchrecords: 0,
            batchhash: 0,
            batchdebit: 0,
            batchcredit: 0,
            number: 0,
            trace: 0,
        },
        header: [0; 94],
        bycode: [0; 24],
    }
}
