// The list of a file, put into lent numbers or compared with them, and the check that gives it along.
ghost use Rattle.std.specs.Prelude.{◌+◌, ◌*◌, ◌≤◌, ◌≡◌, [], length, get_or};
ghost use Rattle.std.specs.Iterator.{at_most};
ghost use Rattle.layout.specs.Answers.{checked_as};
ghost use Rattle.layout.specs.Ways.{record_bytes};
ghost use Rattle.check_record.specs.Record.{columns_in, checked_of};
ghost use Rattle.view.specs.View.{view_of};
ghost use Rattle.funds.specs.Funds.{rows_of, control_credit, in_front, true_list};
ghost use Rattle.funds.specs.WorkRows.{left_of, Walked, RowTaken};
ghost use Rattle.funds.specs.Outcome.{check_of};

use find_entry::find;
use layout::{Acceptance, Answer, Fault, Refusal, Way};

// The total of credits in the record 8 at this index.
fn control_credit(way: Way, file: &[u8], i: usize) -> u64
    requires { record_bytes way * (i + 1) ≤ length file.now }
    ensures { result ≡ control_credit (get_or (columns_in way file.now) i []) }
{
    let at = layout::record_bytes(way) * i + 32;
    text::number(&file[at..at + 12])
}

// The rows of an accepted file's list, from the first on: of each batch the number of its control, and the credits so far.
#[derive(Drop)]
struct Rows<'a> {
    way: Way,
    file: &'a [u8],
    // how many records were looked at, and the credits of those
    seen: usize,
    credits: u64,
    ghost walked: { Walked way file.now seen credits },
}

impl<'a> Rows<'a> {
    fn of(way: Way, file: &'a [u8]) -> Rows<'a>
        requires { (checked_of way file.now).answer ≡ Ok tt }
        ensures { left_of result.way result.file.now result.seen result.credits ≡ rows_of (view_of way file.now) }
    {
        Rows {
            way,
            file,
            seen: 0,
            credits: 0,
        }
    }
}

impl<'a> Iterator for Rows<'a> {
    type Item = [u64; 2];

    ghost next_gives = { λ s r t. RowTaken (left_of s.way s.file.now s.seen s.credits) r (left_of t.way t.file.now t.seen t.credits) };

    ghost remaining = { λ s. at_most (length (left_of s.way s.file.now s.seen s.credits)) };

    fn next(&mut self) -> Option<[u64; 2]> {
        let i = find::nth(self.way, self.file, self.seen, b'8', 0);
        if i == self.file.len() / layout::record_bytes(self.way) {
            return None;
        }
        self.credits += control_credit(self.way, self.file, i);
        self.seen = i + 1;
        Some([self.seen as u64, self.credits])
    }
}

// Puts the list of an accepted file to the front of the lent numbers, which have room for it.
pub fn fill(way: Way, file: &[u8], rows: &mut [u64])
    requires { ((checked_of way file.now).answer ≡ Ok tt) × (length (rows_of (view_of way file.now)) ≤ length rows.old) }
    ensures { rows.new ≡ in_front (rows_of (view_of way file.now)) rows.old }
{
    let mut put = 0;
    for row in Rows::of(way, file) {
        text::copy_into(rows, put, &row);
        put += 2;
    }
}

// Whether the lent numbers begin with the list of an accepted file.
pub fn is_true_list(way: Way, file: &[u8], rows: &[u64]) -> bool
    requires { (checked_of way file.now).answer ≡ Ok tt }
    ensures { result ≡ true_list way file.now rows.now }
{
    let mut held = rows;
    for row in Rows::of(way, file) {
        let Some(rest) = held.strip_prefix(&row) else {
            return false;
        };
        held = rest;
    }
    true
}

// A file is accepted exactly if it keeps the rules; its list goes to the front of the lent numbers, and too few of them are refused last.
pub fn check(way: Way, file: &[u8], rows: &mut [u64]) -> Answer<Acceptance>
    ensures { (checked_as result ≡ (check_of way file.now rows.old).gives) × (rows.new ≡ (check_of way file.now rows.old).leaves) }
{
    let accepted = check_file::check(way, file)?;
    if ((rows.len() / 2) as u64) < accepted.batches {
        return Err(Refusal::whole(Fault::Room));
    }
    fill(way, file, rows);
    Ok(accepted)
}
