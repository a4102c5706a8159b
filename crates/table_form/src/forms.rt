// Forming records: each of the 94 bytes comes from a row of the table, from the sums, or is the same in every file.
ghost use Rattle.std.specs.Prelude.{◌+◌, ◌-◌, ◌≤◌, ◌≡◌, length};
ghost use Rattle.std.proofs.lemmas.List.Edits.{sets};
ghost use Rattle.text.specs.Decimal.{render};
ghost use Rattle.check_across.specs.WorkSmall.{Small};
ghost use Rattle.view.specs.View.{filler_record};
ghost use Rattle.table_form.specs.Forms.{file_from, batch_from, entry_from, addendum_from, batch_control_from, file_control_from};

use check_across::Sums;

// Puts a number into a record from one byte to another, cut at the left.
fn put_number(rec: &mut [u8; 94], from: usize, to: usize, n: u64)
    requires { (from ≤ to) × (to ≤ 94) }
    ensures { rec.new ≡ sets rec.old from (render (to - from) n) }
{
    text::put_number(&mut rec[from..to], n);
}

// Record 1 of the file's row.
pub fn file_header(row: &[u8; 85]) -> [u8; 94]
    ensures { result ≡ file_from row.now }
{
    let mut rec = [b' '; 94];
    text::copy_into(&mut rec, 0, b"101");
    text::copy_into(&mut rec, 3, &row[..31]);
    text::copy_into(&mut rec, 34, b"094101");
    text::copy_into(&mut rec, 40, &row[31..]);
    rec
}

// Record 5 of a batch's row.
pub fn batch_header(row: &[u8; 95]) -> [u8; 94]
    ensures { result ≡ batch_from row.now }
{
    let mut rec = [b' '; 94];
    rec[0] = b'5';
    text::copy_into(&mut rec, 1, &row[..74]);
    rec[78] = b'1';
    text::copy_into(&mut rec, 79, &row[74..89]);
    rec
}

// Record 6 of an entry's row.
pub fn entry(row: &[u8; 93]) -> [u8; 94]
    ensures { result ≡ entry_from row.now }
{
    let mut rec = [b'6'; 94];
    text::copy_into(&mut rec, 1, row);
    rec
}

// Record 7 of a text, with the trace of its entry's row.
pub fn addendum(row: &[u8; 93], words: &[u8; 80]) -> [u8; 94]
    ensures { result ≡ addendum_from row.now words.now }
{
    let mut rec = [b' '; 94];
    text::copy_into(&mut rec, 0, b"705");
    text::copy_into(&mut rec, 3, words);
    text::copy_into(&mut rec, 83, b"0001");
    text::copy_into(&mut rec, 87, &row[86..]);
    rec
}

// Record 8 of the sums of its batch, and its record 5.
pub fn batch_control(sums: Sums, header: &[u8; 94]) -> [u8; 94]
    ensures { result ≡ batch_control_from sums header.now }
{
    let mut rec = [b' '; 94];
    rec[0] = b'8';
    text::copy_into(&mut rec, 1, &header[1..4]);
    put_number(&mut rec, 4, 10, sums.batchrecords);
    put_number(&mut rec, 10, 20, sums.batchhash % 10_000_000_000);
    put_number(&mut rec, 20, 32, sums.batchdebit);
    put_number(&mut rec, 32, 44, sums.batchcredit);
    text::copy_into(&mut rec, 44, &header[40..50]);
    text::copy_into(&mut rec, 79, &header[79..]);
    rec
}

// Record 9 of the sums of the file.
pub fn file_control(sums: Sums) -> [u8; 94]
    requires { Small sums }
    ensures { result ≡ file_control_from sums }
{
    let mut rec = [b' '; 94];
    rec[0] = b'9';
    put_number(&mut rec, 1, 7, sums.batches);
    put_number(&mut rec, 7, 13, (sums.records + 1 + 9) / 10);
    put_number(&mut rec, 13, 21, sums.entries + sums.addenda);
    put_number(&mut rec, 21, 31, sums.hash % 10_000_000_000);
    put_number(&mut rec, 31, 43, sums.debit);
    put_number(&mut rec, 43, 55, sums.credit);
    rec
}

// A record of 94 nines.
pub fn filler() -> [u8; 94]
    ensures { result ≡ filler_record }
{
    [b'9'; 94]
}
