// Reading: a file's pay table, written into lent memory. The file is checked first, and nothing is written on a refusal.
#![tactic(auto)]

ghost use Rattle.std.specs.Prelude.{◌≡◌};
ghost use Rattle.layout.specs.Answers.{made_as};
ghost use Rattle.view.specs.Outcome.{read_of};

use layout::{Answer, Fault, Refusal, Way};

pub mod putting;

// The pay table of a file that keeps the rules; the bytes past it stay.
pub fn read(way: Way, file: &[u8], table: &mut [u8]) -> Answer<u64>
    ensures { (made_as result ≡ (read_of way file.now table.old).gives) × (table.new ≡ (read_of way file.now table.old).leaves) }
{
    let accepted = check_file::check(way, file)?;
    let size = 109 + 95 * accepted.batches + 93 * accepted.entries + 80 * accepted.addenda;
    if (table.len() as u64) < size {
        return Err(Refusal::whole(Fault::Room));
    }
    putting::put_table(way, file, &accepted, table);
    Ok(size)
}
