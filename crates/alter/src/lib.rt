// One amount altered in place, and the file's list with it.
#![tactic(auto)]

ghost use Rattle.std.specs.Prelude.{◌≡◌};
ghost use Rattle.layout.specs.Answers.{altered_as};
ghost use Rattle.alter.specs.Alter.{alter_listed_of};

use funds::filling;
use layout::{Answer, EntryNo, Fault, Refusal, Way};

pub mod altering;
pub mod sides;

// One entry's amount altered, with the totals of its side and the file's list; a refusal leaves every byte and every number as it was.
pub fn alter(
    way: Way,
    file: &mut [u8],
    rows: &mut [u64],
    entry: EntryNo,
    amount: u64,
) -> Answer<i64>
    ensures { (altered_as result ≡ (alter_listed_of way file.old rows.old entry.0 amount).gives) × (file.new ≡ (alter_listed_of way file.old rows.old entry.0 amount).leaves) × (rows.new ≡ (alter_listed_of way file.old rows.old entry.0 amount).rows) }
{
    let accepted = check_file::check(way, file)?;
    if !filling::is_true_list(way, file, rows) {
        return Err(Refusal::whole(Fault::Rows));
    }
    let difference = altering::alter_accepted(way, file, entry.0, amount, Ok(accepted))?;
    filling::fill(way, file, rows);
    Ok(difference)
}
