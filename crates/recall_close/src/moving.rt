// One record of the old file: what it gives to the new one is put behind the records that stand there already.
ghost use Rattle.std.specs.Prelude.{◌+◌, ◌*◌, ◌<◌, ◌≡◌, true, false, [], ◌∷◌, ◌++◌, length};
ghost use Rattle.check_across.specs.WorkSmall.{Small};
ghost use Rattle.check_sums.specs.Sums.{next_sums};
ghost use Rattle.recall_close.specs.WorkMoving.{sort_of, first_walk, opening, begun, entry_gives, entry_kept, entry_next, addendum_gives, addendum_next, control_gives, control_next, gives_of, next_of};
ghost use Rattle.recall_close.specs.WorkReady.{waiting, Room, Passed, put_at};

use crate::bits::Flags;
use check_across::Sums;
use layout::{Line, Way};
use table_form::forms;
use table_write::passing;

// What a record before the file control is.
#[derive(Clone, Copy)]
pub enum Sort {
    File,
    Batch,
    Entry,
    Addendum,
    Control,
}

// What is known of the records so far: the sums of the new file, the record 5 of the batch, how many entries of the old file came,
// whether that record 5 still waits for an entry that stays, and whether the last entry stays.
#[derive(Clone, Copy)]
pub struct Walk {
    pub sums: Sums,
    pub header: [u8; 94],
    pub entries: usize,
    pub held: bool,
    pub stays: bool,
}

fn sort_of(b: u8) -> Sort
    ensures { result ≡ sort_of b }
{
    match b {
        b'5' => Sort::Batch,
        b'6' => Sort::Entry,
        b'7' => Sort::Addendum,
        b'8' => Sort::Control,
        _ => Sort::File,
    }
}

// Puts a record behind those that the sums count, its line end too, and counts it.
pub fn put(way: Way, file: &mut [u8], sums: Sums, line: Line, rec: &[u8; 94]) -> Sums
    requires { Room way file.old sums 0 }
    ensures { (result ≡ next_sums sums line rec.now) × Small result × (file.new ≡ put_at way sums.records (rec.now ∷ []) file.old) }
{
    let at = layout::record_bytes(way) * sums.records as usize;
    text::copy_into(file, at, rec);
    passing::end_line(way, file, at + 94);
    check_sums::next_sums(sums, line, check_across::said(rec), rec)
}

impl Walk {
    // Before the first record.
    pub fn first() -> Walk
        ensures { (result ≡ first_walk) × Small result.sums }
    {
        Walk {
            sums: check_sums::start().sums,
            header: [0; 94],
            entries: 0,
            held: false,
            stays: false,
        }
    }

    // Puts the record 5 that waits, if one does.
    fn begin_batch(&mut self, way: Way, file: &mut [u8])
        requires { Room way file.old self.old.sums (waiting self.old) }
        ensures { (self.new ≡ begun self.old) × (file.new ≡ put_at way self.old.sums.records (opening self.old) file.old) × Room way file.new self.new.sums 0 }
    {
        if self.held {
            self.sums = put(way, file, self.sums, Line::BatchHeader, &self.header);
            self.held = false;
        }
    }

    // An entry that stays, behind the record 5 if that still waits.
    fn keep_entry(&mut self, way: Way, file: &mut [u8], rec: &[u8; 94])
        requires { Room way file.old self.old.sums (waiting self.old) × (self.old.entries < 1000000) }
        ensures { Passed way file.old self.old (opening self.old ++ (rec.now ∷ [])) (entry_kept self.old rec.now) self.new file.new }
    {
        self.begin_batch(way, file);
        self.sums = put(way, file, self.sums, Line::Entry, rec);
        self.entries += 1;
        self.stays = true;
    }

    // An entry stays where its flag is not set.
    fn pass_entry(&mut self, way: Way, file: &mut [u8], flags: &Flags, rec: &[u8; 94])
        requires { Room way file.old self.old.sums (waiting self.old) × (self.old.entries + 1 < 1000000) }
        ensures { Passed way file.old self.old (entry_gives flags.now self.old rec.now) (entry_next flags.now self.old rec.now) self.new file.new }
    {
        if flags.is_set(self.entries + 1) {
            self.entries += 1;
            self.stays = false;
        } else {
            self.keep_entry(way, file, rec);
        }
    }

    // An addendum stays as its entry does.
    fn pass_addendum(&mut self, way: Way, file: &mut [u8], rec: &[u8; 94])
        requires { Room way file.old self.old.sums (waiting self.old) }
        ensures { Passed way file.old self.old (addendum_gives self.old rec.now) (addendum_next self.old) self.new file.new }
    {
        if self.stays {
            self.sums = put(way, file, self.sums, Line::Addendum, rec);
        }
    }

    // A batch control is formed anew from what stays of its batch; there is none where its record 5 still waits.
    fn pass_control(&mut self, way: Way, file: &mut [u8])
        requires { Room way file.old self.old.sums (waiting self.old) }
        ensures { Passed way file.old self.old (control_gives self.old) (control_next self.old) self.new file.new }
    {
        if !self.held {
            let control = forms::batch_control(self.sums, &self.header);
            self.sums = put(way, file, self.sums, Line::BatchControl, &control);
        }
        self.held = false;
        self.stays = false;
    }

    // One record of the old file. A record 5 waits for the first entry of its batch that stays.
    pub fn pass_record(&mut self, way: Way, file: &mut [u8], flags: &Flags, rec: &[u8; 94])
        requires { Room way file.old self.old.sums (waiting self.old) × (self.old.entries + 1 < 1000000) }
        ensures { Passed way file.old self.old (gives_of flags.now self.old rec.now) (next_of flags.now self.old rec.now) self.new file.new }
    {
        match sort_of(rec[0]) {
            Sort::File => {
                self.sums = put(way, file, self.sums, Line::FileHeader, rec);
            }
            Sort::Batch => {
                self.header = *rec;
                self.held = true;
                self.stays = false;
            }
            Sort::Entry => self.pass_entry(way, file, flags, rec),
            Sort::Addendum => self.pass_addendum(way, file, rec),
            Sort::Control => self.pass_control(way, file),
        }
    }
}
