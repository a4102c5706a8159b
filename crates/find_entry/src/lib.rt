// An entry's addendum, as a part of the file itself.
#![tactic(auto)]

ghost use Rattle.std.specs.Prelude.{◌≡◌, take, drop};
ghost use Rattle.layout.specs.Answers.{checked_as};
ghost use Rattle.view.specs.Outcome.{addendum_answer, addendum_of};
ghost use Rattle.find_entry.specs.WorkAsked.{asked_of};
ghost use Rattle.find_entry.specs.AskedSpan.{asked_as};

use layout::{Acceptance, Answer, EntryNo, Fault, Refusal, Way};

pub mod find;

// The part of a file that holds an addendum: where it starts, and how long it is.
#[derive(Clone, Copy)]
pub struct Span {
    pub from: usize,
    pub size: usize,
}

// The file's refusals come first, then an entry number that it has not.
pub fn asked(checked: Answer<Acceptance>, k: u64) -> Answer<()>
    ensures { result ≡ asked_of (checked_as checked) k }
{
    let accepted = checked?;
    if !(1..=accepted.entries).contains(&k) {
        return Err(Refusal::whole(Fault::NoEntry));
    }
    Ok(())
}

// Why there is no addendum to hand back, if the question itself is refused.
pub fn addendum_answer(way: Way, file: &[u8], entry: EntryNo) -> Answer<()>
    ensures { result ≡ addendum_answer way file.now entry.0 }
{
    asked(check_file::check(way, file), entry.0)
}

// Answer and place in one, for callers that cannot take a part of a slice: the file is checked once.
pub fn asked_span(way: Way, file: &[u8], entry: EntryNo) -> Answer<Span>
    ensures answer { (asked_as result).answer ≡ addendum_answer way file.now entry.0 }
    ensures from { (asked_as result).from ≡ (addendum_of way file.now entry.0).from }
    ensures size { (asked_as result).size ≡ (addendum_of way file.now entry.0).size }
{
    addendum_answer(way, file, entry)?;
    let wide = layout::record_bytes(way);
    let at = wide * find::entry_at(way, file, entry.0);
    // column 79 says whether a record 7 follows
    if file[at + 78] != b'1' {
        return Ok(Span { from: 0, size: 0 });
    }
    Ok(Span {
        from: at + wide + 3,
        size: 80,
    })
}

// An entry's addendum, columns 4-83 of the lent file itself; the empty part at its start where there is none.
#[tactic(auto, using(crate::proofs::Addenda::part_inside))]
pub fn addendum(way: Way, file: &[u8], entry: EntryNo) -> &[u8]
    ensures { result.now ≡ take (addendum_of way file.now entry.0).size (drop (addendum_of way file.now entry.0).from file.now) }
{
    match asked_span(way, file, entry) {
        Ok(span) => &file[span.from..span.from + span.size],
        Err(_) => &file[..0],
    }
}
