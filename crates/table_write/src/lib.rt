// Writing: a pay table is formed into a file. The formed file's records are walked twice, first to check them and then to write
// them, so that a refusal is known before the first byte is written.
#![tactic(auto)]

ghost use Rattle.std.specs.Prelude.{◌≤◌, ◌≡◌, true, length};
ghost use Rattle.layout.specs.Answers.{made_as};
ghost use Rattle.view.specs.View.{records_of};
ghost use Rattle.view.specs.Table.{shaped, view_of_table};
ghost use Rattle.view.specs.Outcome.{write_of};
ghost use Rattle.table_write.specs.Judge.{writable};

use layout::{Answer, Fault, Refusal, Way};
use table_form::shape;

pub mod passing;

// How many records the formed file has, filler included.
fn records_in(table: &[u8]) -> usize
    requires { shaped table.now ≡ true }
    ensures { (result ≡ length (records_of (view_of_table table.now))) × (result ≤ 5000000) }
{
    let s = shape::sections(table);
    (2 + 2 * s.batches + s.entries + s.addenda).next_multiple_of(10)
}

// What writing says to a table before it asks for room: the shape's refusal, then those of the formed file.
pub fn judge(table: &[u8]) -> Answer<()>
    ensures { result ≡ writable table.now }
{
    if !shape::shaped(table) {
        return Err(Refusal::whole(Fault::Shape));
    }
    if 1_000_000 < records_in(table) {
        return Err(Refusal::whole(Fault::Length));
    }
    passing::judged(table)
}

// Forms the table's file in front of the lent bytes. A refusal leaves them as they are: the shape's comes first, then those of the
// formed file, then that of the room.
pub fn write(way: Way, table: &[u8], file: &mut [u8]) -> Answer<u64>
    ensures { (made_as result ≡ (write_of way table.now file.old).gives) × (file.new ≡ (write_of way table.now file.old).leaves) }
{
    judge(table)?;
    let size = layout::record_bytes(way) * records_in(table);
    if file.len() < size {
        return Err(Refusal::whole(Fault::Room));
    }
    passing::put_formed(way, table, file);
    Ok(size as u64)
}
