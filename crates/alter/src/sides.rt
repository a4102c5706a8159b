// The amount of an entry, and the totals of the side that it is on: read, tried against the limit, and written.
ghost use Rattle.std.specs.Prelude.{◌+◌, ◌*◌, ◌≤◌, ◌<◌, ◌≡◌, [], pos, ◌-ℤ◌, length, get_or};
ghost use Rattle.std.proofs.lemmas.List.Edits.{sets};
ghost use Rattle.text.specs.Decimal.{render};
ghost use Rattle.layout.specs.Answers.{altered_as};
ghost use Rattle.layout.specs.Ways.{record_bytes};
ghost use Rattle.check_codes.specs.Codes.{code_of};
ghost use Rattle.check_record.specs.Record.{columns_in};
ghost use Rattle.check_across.specs.Across.{entry_code, entry_amount};
ghost use Rattle.alter.specs.WorkSides.{batch_total, side_answer, side_put, side_outcome, Ordered, Ready};

use check_codes::Code;
use find_entry::find::Places;
use layout::{Answer, Fault, Refusal, Way};

const LIMIT: u64 = 999_999_999_999;

// A side's totals in a record 8 and in a record 9: the field's number, and its first byte from 0.
#[derive(Clone, Copy)]
pub struct Side {
    pub batchfield: u64,
    pub batchat: usize,
    pub filefield: u64,
    pub fileat: usize,
}

// What an entry's record says of its amount.
#[derive(Clone, Copy)]
pub struct Said {
    pub code: Code,
    pub amount: u64,
}

impl Side {
    pub const DEBITS: Side = Side {
        batchfield: 5,
        batchat: 20,
        filefield: 6,
        fileat: 31,
    };

    pub const CREDITS: Side = Side {
        batchfield: 6,
        batchat: 32,
        filefield: 7,
        fileat: 43,
    };
}

// The code and the amount of the record 6 at this index.
pub fn entry_said(way: Way, file: &[u8], i: usize) -> Said
    requires { record_bytes way * (i + 1) ≤ length file.now }
    ensures { (result.code ≡ code_of (entry_code (get_or (columns_in way file.now) i []))) × (result.amount ≡ entry_amount (get_or (columns_in way file.now) i [])) }
{
    let at = layout::record_bytes(way) * i;
    let rec = text::chunk(file, at);
    Said {
        code: check_codes::code_of(check_across::entry_code(rec)),
        amount: check_across::entry_amount(rec),
    }
}

// The total that the batch's control has for this side.
fn batch_total(way: Way, file: &[u8], places: Places, side: Side) -> u64
    requires { Ordered way (length file.now) places side }
    ensures { result ≡ batch_total way file.now places side }
{
    let at = layout::record_bytes(way) * places.control + side.batchat;
    text::number(&file[at..at + 12])
}

// Whether the new totals keep the limit, the batch's before the file's.
fn limits(places: Places, side: Side, batch: u64, whole: u64) -> Answer<()>
    requires { (places.control < 1000000) × (places.last < 1000000) }
    ensures { result ≡ side_answer places side batch whole }
{
    if LIMIT < batch {
        return Err(Refusal::at(Fault::Limit, places.control as u64 + 1, side.batchfield));
    }
    if LIMIT < whole {
        return Err(Refusal::at(Fault::Limit, places.last as u64 + 1, side.filefield));
    }
    Ok(())
}

// A number in `width` bytes of the file.
fn put_at(file: &mut [u8], at: usize, width: usize, n: u64)
    requires { at + width ≤ length file.old }
    ensures { file.new ≡ sets file.old at (render width n) }
{
    text::put_number(&mut file[at..at + width], n);
}

// The amount and the two totals of its side: no other byte is written.
fn put(way: Way, file: &mut [u8], places: Places, side: Side, amount: u64, batch: u64, whole: u64)
    requires { Ordered way (length file.old) places side }
    ensures { file.new ≡ side_put way file.old places side amount batch whole }
{
    let wide = layout::record_bytes(way);
    put_at(file, wide * places.entry + 29, 10, amount);
    put_at(file, wide * places.control + side.batchat, 12, batch);
    put_at(file, wide * places.last + side.fileat, 12, whole);
}

// The new amount less the old.
fn difference(new: u64, old: u64) -> i64
    requires { (new < 1000000000000) × (old < 1000000000000) }
    ensures { result ≡ pos new -ℤ pos old }
{
    new as i64 - old as i64
}

// An amount that the entry may carry, put in if the totals stay within the limit: the old amount goes first.
pub fn exchange(
    way: Way,
    file: &mut [u8],
    places: Places,
    side: Side,
    total: u64,
    old: u64,
    amount: u64,
) -> Answer<i64>
    requires { Ready way file.old places side total old amount }
    ensures { (altered_as result ≡ (side_outcome way file.old places side total old amount).gives) × (file.new ≡ (side_outcome way file.old places side total old amount).leaves) }
{
    let batch = batch_total(way, file, places, side) - old + amount;
    let whole = total - old + amount;
    limits(places, side, batch, whole)?;
    put(way, file, places, side, amount, batch, whole);
    Ok(difference(amount, old))
}
