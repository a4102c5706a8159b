// One amount altered in place.
ghost use Rattle.std.specs.Prelude.{◌≡◌};
ghost use Rattle.layout.specs.Answers.{checked_as, altered_as};
ghost use Rattle.view.specs.Outcome.{alter_of};
ghost use Rattle.check_record.specs.Record.{checked_of};
ghost use Rattle.find_entry.specs.WorkThere.{There};

use crate::sides;
use crate::sides::Side;
use check_codes::Code;
use find_entry::find;
use layout::{Acceptance, Answer, Fault, Refusal, Way};

// The amount of an entry that there is, in a file that was accepted.
fn alter_there(way: Way, file: &mut [u8], k: u64, amount: u64, accepted: Acceptance) -> Answer<i64>
    requires { There way file.old k × (checked_as (Ok accepted) ≡ checked_of way file.old) }
    ensures { (altered_as result ≡ (alter_of way file.old k amount).gives) × (file.new ≡ (alter_of way file.old k amount).leaves) }
{
    let places = find::locate(way, file, k);
    let said = sides::entry_said(way, file, places.entry);
    let unfit = Refusal::at(Fault::Amount, places.entry as u64 + 1, 6);
    if !check_codes::carries(said.code, amount) {
        return Err(unfit);
    }
    let (side, total) = match said.code {
        Code::Debit(_) => (Side::DEBITS, accepted.debit),
        Code::Credit(_) => (Side::CREDITS, accepted.credit),
        // carries no amount, so it does not come here
        Code::Unknown => return Err(unfit),
    };
    sides::exchange(way, file, places, side, total, said.amount, amount)
}

// One entry's amount in an accepted file, of which the check is given.
pub fn alter_accepted(
    way: Way,
    file: &mut [u8],
    k: u64,
    amount: u64,
    checked: Answer<Acceptance>,
) -> Answer<i64>
    requires { checked_as checked ≡ checked_of way file.old }
    ensures { (altered_as result ≡ (alter_of way file.old k amount).gives) × (file.new ≡ (alter_of way file.old k amount).leaves) }
{
    find_entry::asked(checked, k)?;
    alter_there(way, file, k, amount, checked?)
}
