// The walk along a table: the records of the formed file one by one, each by the table, a cursor into it, and the state that the
// records before it left.
ghost use Rattle.std.specs.Prelude.{◌+◌, ◌*◌, ◌≤◌, ◌<◌, ◌≡◌, length};
ghost use Rattle.check_across.specs.WorkSmall.{Small};
ghost use Rattle.check_sums.specs.WorkFair.{Fair};
ghost use Rattle.table_form.specs.Forms.{addendum_from};
ghost use Rattle.table_form.specs.WorkWalking.{Inside, batch_next, entry_next, last_at, text_at, form_of, past_batch, past_entry, past_text, past_of};

use crate::{forms, shape};
use check_across::Sums;
use check_order::Place;
use check_sums::State;

// Where the walk along a table has got to: the batches to come and the next one's row, the entries left in this batch, the next
// entry's row, the row of the entry before it, and the next addendum.
#[derive(Clone, Copy)]
pub struct Cursor {
    pub batches: usize,
    pub batch: usize,
    pub left: usize,
    pub entry: usize,
    pub last: usize,
    pub text: usize,
}

// Record 5 of the next batch, or behind the last one the record 9.
fn next_batch(table: &[u8], c: Cursor, sums: Sums) -> [u8; 94]
    requires { (c.batch + 95 * c.batches ≤ length table.now) × Small sums }
    ensures { result ≡ batch_next table.now c sums }
{
    if 0 < c.batches {
        forms::batch_header(text::chunk(table, c.batch))
    } else {
        forms::file_control(sums)
    }
}

// Record 6 of the next entry, or behind the batch's last one the record 8.
fn next_entry(table: &[u8], c: Cursor, sums: Sums, header: &[u8; 94]) -> [u8; 94]
    requires { c.entry + 93 * c.left ≤ length table.now }
    ensures { result ≡ entry_next table.now c sums header.now }
{
    if 0 < c.left {
        forms::entry(text::chunk(table, c.entry))
    } else {
        forms::batch_control(sums, header)
    }
}

// Record 7 of the next addendum, which belongs to the last entry.
fn next_addendum(table: &[u8], c: Cursor) -> [u8; 94]
    requires { (c.last + 93 ≤ length table.now) × (c.text + 80 ≤ length table.now) }
    ensures { result ≡ addendum_from (last_at table.now c) (text_at table.now c) }
{
    forms::addendum(text::chunk(table, c.last), text::chunk(table, c.text))
}

// The next record.
pub fn form(table: &[u8], c: Cursor, st: &State) -> [u8; 94]
    requires { Inside table.now st.now.place c × Fair st.now }
    ensures { result ≡ form_of table.now c st.now }
{
    match st.place {
        Place::Start => forms::file_header(text::chunk(table, 6)),
        Place::FileOpen | Place::BatchDone => next_batch(table, c, st.sums),
        Place::BatchOpen | Place::EntryDone => next_entry(table, c, st.sums, &st.header),
        Place::AddendumDue => next_addendum(table, c),
        Place::FileDone => forms::filler(),
    }
}

// Behind a record 5: its batch's entries are to come.
fn past_batch(table: &[u8], c: Cursor) -> Cursor
    requires { c.batch + 95 * c.batches ≤ length table.now }
    ensures { result ≡ past_batch table.now c }
{
    if c.batches == 0 {
        return c;
    }
    Cursor {
        batches: c.batches - 1,
        batch: c.batch + 95,
        left: shape::count(table, c.batch + 89),
        ..c
    }
}

// Behind a record 6: one entry less is left in its batch.
fn past_entry(table: &[u8], c: Cursor) -> Cursor
    requires { c.entry + 93 * c.left ≤ length table.now }
    ensures { result ≡ past_entry c }
{
    if c.left == 0 {
        return c;
    }
    Cursor {
        left: c.left - 1,
        entry: c.entry + 93,
        last: c.entry,
        ..c
    }
}

// Behind a record 7.
fn past_text(table: &[u8], c: Cursor) -> Cursor
    requires { c.text + 80 ≤ length table.now }
    ensures { result ≡ past_text c }
{
    Cursor {
        text: c.text + 80,
        ..c
    }
}

// The cursor behind the record that was formed at this place.
pub fn advance(table: &[u8], c: Cursor, place: Place) -> Cursor
    requires { Inside table.now place c }
    ensures { result ≡ past_of table.now c place }
{
    match place {
        Place::FileOpen | Place::BatchDone => past_batch(table, c),
        Place::BatchOpen | Place::EntryDone => past_entry(table, c),
        Place::AddendumDue => past_text(table, c),
        Place::Start | Place::FileDone => c,
    }
}
