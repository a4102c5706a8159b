// Importing: the lines of a client's list become a pay table. The records of the file that the table forms are checked before the first
// byte is written, so that a refusal leaves the lent table as it is.
#![tactic(auto)]

ghost use Rattle.std.specs.Prelude.{◌≤◌, ◌≡◌, ◌&&◌, eqb, leb, length, is_some, IfSome, IfOk};
ghost use Rattle.layout.specs.Answers.{answer_of, made_as};
ghost use Rattle.csv_entry.specs.Import.{import_answer, import_of};

use crate::listing::Lines;
use layout::{Answer, Fault, Refusal};

mod judge;
pub mod listing;

// The rows where they have their lengths, and the lines are few enough to be counted in six digits.
fn rows_fit<'a>(
    filerow: &'a [u8],
    batchrow: &'a [u8],
    count: u64,
) -> Option<(&'a [u8; 85], &'a [u8; 95])>
    ensures fit { is_some result ≡ (eqb (length filerow.now) 85 && eqb (length batchrow.now) 95 && leb count 999999) }
    ensures rows { IfSome result (λ rows. (rows.0.now ≡ filerow.now) × (rows.1.now ≡ batchrow.now)) }
{
    let filerow = filerow.try_into().ok()?;
    let batchrow = batchrow.try_into().ok()?;
    (count <= 999_999).then_some((filerow, batchrow))
}

// What importing says before it asks for room; granted, the rows and the lines.
#[tactic(auto, using(crate::proofs::Judging::many_lines, crate::proofs::Judging::file_judged))]
fn judge_list<'a>(
    filerow: &'a [u8],
    batchrow: &'a [u8],
    lines: &'a [u8],
) -> Answer<(&'a [u8; 85], &'a [u8; 95], Lines<'a>)>
    ensures answer { answer_of result ≡ import_answer filerow.now batchrow.now lines.now }
    ensures granted { IfOk result (λ granted. (granted.0.now ≡ filerow.now) × (granted.1.now ≡ batchrow.now) × (granted.2.bytes.now ≡ lines.now) × (granted.2.count ≤ 999996)) }
{
    let list = listing::listed(lines)?;
    let Some((filerow, batchrow)) = rows_fit(filerow, batchrow, list.count) else {
        return Err(Refusal::whole(Fault::Shape));
    };
    // The file would have more than a million records.
    if 999_996 < list.count {
        return Err(Refusal::whole(Fault::Length));
    }
    judge::judged(filerow, batchrow, list)?;
    Ok((filerow, batchrow, list))
}

// Puts the lines' pay table in front of the lent bytes. A refusal leaves them as they are: the first faulty line's comes first, then that of
// the rows, then those of the formed file, then that of the room.
pub fn import(filerow: &[u8], batchrow: &[u8], lines: &[u8], table: &mut [u8]) -> Answer<u64>
    ensures { (made_as result ≡ (import_of filerow.now batchrow.now lines.now table.old).gives) × (table.new ≡ (import_of filerow.now batchrow.now lines.now table.old).leaves) }
{
    let (filerow, batchrow, list) = judge_list(filerow, batchrow, lines)?;
    let size = 204 + 93 * list.count;
    if (table.len() as u64) < size {
        return Err(Refusal::whole(Fault::Room));
    }
    listing::put_table(filerow, batchrow, list, table);
    Ok(size)
}
