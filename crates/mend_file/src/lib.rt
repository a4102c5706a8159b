// The changes of a mended file: measured before a byte is put, and put behind the mended file.
#![tactic(auto)]

mod fields;
pub mod judging;
pub mod refilling;
pub mod renewing;

ghost use Rattle.std.specs.Prelude.{◌+◌, ◌*◌, ◌≤◌, ◌<◌, ◌≡◌, true, [], ◌∷◌, leb, length, get_or, take, drop, IfOk};
ghost use Rattle.text.specs.Decimal.{pick, render};
ghost use Rattle.text.specs.Rows.{joined, section};
ghost use Rattle.layout.specs.Fields.{batch_control};
ghost use Rattle.layout.specs.Ways.{record_bytes};
ghost use Rattle.check_record.specs.Record.{length_fits, raw_records};
ghost use Rattle.table_read.specs.WorkPuts.{Puts, Room};
ghost use Rattle.layout.specs.Answers.{answer_of};
ghost use Rattle.mend.specs.Mended.{mended_as};
ghost use Rattle.mend.specs.Mend.{mended_record, mended_file, changes_from, filler_changes, changes_of, mend_answer, mend_of};
ghost use Rattle.mend_file.specs.WorkJudging.{NineAt};
ghost use Rattle.mend_file.specs.WorkChanging.{listed_of, control_rows, Summed, Counted, Ready};

use crate::refilling::Passed;
use check_across::Sums;
use check_record::outcome;
use layout::{Answer, Fault, Line, Refusal, Way};
use mend::Lengths;
use table_form::forms;

// Rows one behind the other: how many, and how many bytes they take.
#[derive(Clone, Copy)]
pub struct Listed {
    pub rows: usize,
    pub bytes: usize,
}

// The rows of the records 8 before the 9, and what the records before it sum to.
#[derive(Clone, Copy)]
struct Walk {
    listed: Listed,
    sums: Sums,
}

// What the changes come to: the rows of the records 8, those of the 9, and the bytes of the whole.
#[derive(Clone, Copy)]
pub struct Changes {
    pub batch: usize,
    pub file: usize,
    pub bytes: usize,
}

// What is known before a byte is put: how many records stand before the 9, how long the mended file is, and what the changes come to.
#[derive(Clone, Copy)]
struct Plan {
    before: usize,
    size: usize,
    counts: Changes,
}

// The record of a file that so many stand before.
fn record(way: Way, file: &[u8], before: usize) -> &[u8]
    requires { record_bytes way * (before + 1) ≤ length file.now }
    ensures { (result.now ≡ get_or (raw_records way file.now) before []) × (length result.now ≡ record_bytes way) }
{
    let wide = layout::record_bytes(way);
    let at = wide * before;
    &file[at..at + wide]
}

// How many records a file has behind the 9.
fn fillers_in(way: Way, file: &[u8], before: usize) -> usize
    requires { NineAt way file.now before }
    ensures { result ≡ length (drop (before + 1) (raw_records way file.now)) }
{
    file.len() / layout::record_bytes(way) - before - 1
}

// How much the rows of a record 8 take, with what is told before it; any other record has none.
#[tactic(auto, using(crate::proofs::ListLaws::control_none, crate::proofs::FieldLaws::none_listed))]
fn control_listed(passed: &Passed, raw: &[u8]) -> Listed
    requires { 94 ≤ length raw.now }
    ensures { (result ≡ listed_of (control_rows 0 raw.now (mended_record passed.now.sums passed.now.header raw.now))) × (result.rows ≤ 13) × (result.bytes ≤ 2561) }
{
    if raw[0] != b'8' {
        return Listed { rows: 0, bytes: 0 };
    }
    let columns = refilling::mended(passed.sums, &passed.header, text::chunk(raw, 0));
    fields::listed(Line::BatchControl, raw, &columns)
}

// The records before the 9: how much the rows of the 8s take, and what all of them sum to.
fn walked(way: Way, file: &[u8], before: usize) -> Walk
    requires { (length_fits way (length file.now) ≡ true) × NineAt way file.now before }
    ensures { Summed way file.now result }
{
    let mut passed = Passed::start();
    let mut listed = Listed { rows: 0, bytes: 0 };
    for raw in file.chunks_exact(layout::record_bytes(way)).take(before) {
        let one = control_listed(&passed, raw);
        listed.rows += one.rows;
        listed.bytes += one.bytes;
        passed.pass(text::chunk(raw, 0));
    }
    Walk {
        listed,
        sums: passed.sums,
    }
}

// How many bytes the row of the fillers takes.
fn fillers_listed(old: usize, new: usize) -> usize
    ensures { (result ≡ length (joined (filler_changes old new))) × (result ≤ 2) }
{
    if old == new { 0 } else { 2 }
}

// What the changes of a lent file come to.
pub fn measured(way: Way, file: &[u8], before: usize) -> Changes
    requires { (length_fits way (length file.now) ≡ true) × NineAt way file.now before }
    ensures { Counted way file.now result }
{
    let Walk { listed, sums } = walked(way, file, before);
    let control = forms::file_control(sums);
    let last = fields::listed(Line::FileControl, record(way, file, before), &control);
    let fillers = fillers_listed(fillers_in(way, file, before), renewing::fillers(before + 1));
    Changes {
        batch: listed.rows,
        file: last.rows,
        bytes: 7 + listed.bytes + (7 + last.bytes + (7 + fillers)),
    }
}

// Puts the rows of a record 8 that has this number; any other record has none.
fn put_control(number: u64, old: &[u8], new: &[u8], list: &mut [u8], to: usize) -> usize
    requires { (94 ≤ length old.now) × (94 ≤ length new.now) × Room (joined (control_rows number old.now new.now)) list.old to }
    ensures { Puts (joined (control_rows number old.now new.now)) list.old list.new to result }
{
    if old[0] != b'8' {
        return to;
    }
    fields::put(Line::BatchControl, number, old, new, list, to)
}

// Puts the rows of the 8s among the first records of two files.
fn put_controls(
    way: Way,
    file: &[u8],
    before: usize,
    mended: &[u8],
    list: &mut [u8],
    start: usize,
) -> usize
    requires { (before ≤ length (raw_records way file.now)) × (before ≤ length (raw_records way mended.now)) × Room (joined (changes_from 56 batch_control 1 (take before (raw_records way file.now)) (raw_records way mended.now))) list.old start }
    ensures { Puts (joined (changes_from 56 batch_control 1 (take before (raw_records way file.now)) (raw_records way mended.now))) list.old list.new start result }
{
    let wide = layout::record_bytes(way);
    let olds = file.chunks_exact(wide).take(before);
    let mut to = start;
    for (i, (old, new)) in olds.zip(mended.chunks_exact(wide)).enumerate() {
        to = put_control(i as u64 + 1, old, new, list, to);
    }
    to
}

// Puts the old number of fillers: a digit, or '+'.
fn put_old_fillers(old: usize, list: &mut [u8], to: usize) -> usize
    requires { Room (pick (leb old 9) (render 1 old) (43 ∷ [])) list.old to }
    ensures { Puts (pick (leb old 9) (render 1 old) (43 ∷ [])) list.old list.new to result }
{
    if old <= 9 {
        return fields::put_digits(1, old as u64, list, to);
    }
    list[to] = b'+';
    to + 1
}

// Puts the section of the fillers.
fn put_fillers(old: usize, new: usize, list: &mut [u8], to: usize) -> usize
    requires { Room (section 7 (filler_changes old new)) list.old to }
    ensures { Puts (section 7 (filler_changes old new)) list.old list.new to result }
{
    if old == new {
        return fields::put_digits(7, 0, list, to);
    }
    let row = fields::put_digits(7, 1, list, to);
    let digit = put_old_fillers(old, list, row);
    fields::put_digits(1, new as u64, list, digit)
}

// Puts the changes of a lent file, of which the mended file is at hand.
pub fn put(
    way: Way,
    file: &[u8],
    before: usize,
    mended: &[u8],
    counts: Changes,
    list: &mut [u8],
) -> usize
    requires { (length_fits way (length file.now) ≡ true) × NineAt way file.now before × (mended.now ≡ mended_file way file.now) × Counted way file.now counts × Room (changes_of way file.now) list.old 0 }
    ensures { Puts (changes_of way file.now) list.old list.new 0 result }
{
    let rows = fields::put_digits(7, counts.batch as u64, list, 0);
    let count = put_controls(way, file, before, mended, list, rows);
    let control = fields::put_digits(7, counts.file as u64, list, count);
    let fillers = fields::put(
        Line::FileControl,
        before as u64 + 1,
        record(way, file, before),
        record(way, mended, before),
        list,
        control,
    );
    put_fillers(
        fillers_in(way, file, before),
        renewing::fillers(before + 1),
        list,
        fillers,
    )
}

// The answer of mending into so much room, and what a grant puts.
fn planned(way: Way, file: &[u8], room: usize, list: usize) -> Answer<Plan>
    ensures answer { answer_of result ≡ mend_answer way file.now room list }
    ensures ready { IfOk result (Ready way file.now) }
{
    if !outcome::whole_records(way, file.len()) {
        return Err(Refusal::whole(Fault::Length));
    }
    let before = judging::judged(way, file)?;
    judging::behind(way, file, before)?;
    let size = renewing::size(way, before);
    let counts = measured(way, file, before);
    if room < size || list < counts.bytes {
        return Err(Refusal::whole(Fault::Room));
    }
    Ok(Plan {
        before,
        size,
        counts,
    })
}

// Mends a lent file, which is only read: the mended file goes into one buffer, the changes into another. A refusal touches neither.
pub fn mend(way: Way, file: &[u8], mended: &mut [u8], changes: &mut [u8]) -> Answer<Lengths>
    ensures { (mended_as result ≡ (mend_of way file.now mended.old changes.old).gives) × (mended.new ≡ (mend_of way file.now mended.old changes.old).leaves) × (changes.new ≡ (mend_of way file.now mended.old changes.old).changes) }
{
    let Plan {
        before,
        size,
        counts,
    } = planned(way, file, mended.len(), changes.len())?;
    renewing::put_mended(way, file, before, mended);
    put(way, file, before, &mended[..size], counts, changes);
    Ok(Lengths {
        length: size as u64,
        listed: counts.bytes as u64,
    })
}
