// Recalled payments taken out of a file in place: the entries to go are flagged, the records that stay close up from the front, and the
// control records and the filler are formed anew from what stays; then the list of the new file is put.
#![tactic(auto)]

ghost use Rattle.std.specs.Prelude.{ℕ, ◌+◌, ◌*◌, ◌<◌, ◌≡◌, false};
ghost use Rattle.layout.specs.Answers.{checked_as, made_as};
ghost use Rattle.recall_view.specs.RecallView.{named, take_out_answer, take_out_of};
ghost use Rattle.recall_close.specs.WorkMoving.{gone};
ghost use Rattle.recall.specs.WorkReady.{AcceptedAs};

use funds::filling;
use layout::{Acceptance, Answer, Fault, Refusal, Way};
use recall_close::bits::Flags;
use recall_close::marking;

mod batches;

// How many records an accepted file has before its file control.
fn records_before(accepted: Acceptance) -> usize
    requires { 1 + 2 * accepted.batches + accepted.entries + accepted.addenda < 1000000 }
    ensures { result ≡ 1 + 2 * accepted.batches + accepted.entries + accepted.addenda }
{
    (1 + 2 * accepted.batches + accepted.entries + accepted.addenda) as usize
}

// What is answered to the list for an accepted file, with what its check gave and so many numbers lent for the rows. No flag is set yet; on
// a grant they are those of the list's numbers.
fn judge(
    way: Way,
    file: &[u8],
    entries: &[u64],
    room: usize,
    flags: &mut Flags,
    accepted: Acceptance,
) -> Answer<()>
    requires { AcceptedAs way file.now (checked_as (Ok accepted)) × ((k : ℕ) → gone flags.old k ≡ false) }
    ensures { (result ≡ take_out_answer way file.now entries.now room) × (result ≡ Ok tt → (k : ℕ) → gone flags.new k ≡ named k entries.now) }
{
    if !marking::mark(flags, entries, accepted.entries) {
        return Err(Refusal::whole(Fault::NoEntry));
    }
    if !marking::any_left(flags, accepted.entries as usize) {
        return Err(Refusal::whole(Fault::NoneLeft));
    }
    let left = batches::batches_left(way, file, flags, records_before(accepted));
    if room < 2 * left {
        return Err(Refusal::whole(Fault::Room));
    }
    Ok(())
}

// Takes the entries of the list out of the file, which then ends earlier; blanks follow up to the end of the lent bytes, and the list of the
// new file goes to the front of the lent numbers. A refusal leaves both as they are: the file's own comes first, then 25 for a number that is
// no entry's, 27 where no entry would be left, and 23 where the batches left have no room. A flag for each entry number that a file can have
// stands on the stack, eight to a byte.
pub fn take_out(way: Way, file: &mut [u8], entries: &[u64], rows: &mut [u64]) -> Answer<u64>
    ensures { (made_as result ≡ (take_out_of way file.old entries.now rows.old).gives) × (file.new ≡ (take_out_of way file.old entries.now rows.old).leaves) × (rows.new ≡ (take_out_of way file.old entries.now rows.old).rows) }
{
    let accepted = check_file::check(way, file)?;
    let mut flags = Flags::new();
    judge(way, file, entries, rows.len(), &mut flags, accepted)?;
    let size = recall_close::shorten(way, file, &flags, records_before(accepted));
    filling::fill(way, &file[..size], rows);
    Ok(size as u64)
}
