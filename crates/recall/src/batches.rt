// How many batches are left, from one look at the first byte of each record: nothing is changed yet.
ghost use Rattle.std.specs.Prelude.{◌+◌, ◌<◌, ◌≡◌, false, length};
ghost use Rattle.view.specs.View.{body_of, view_of};
ghost use Rattle.recall_close.specs.WorkReady.{Walkable};
ghost use Rattle.recall.specs.WorkCounting.{kept_so, entry_counted, record_counted, counted_from};

use layout::Way;
use recall_close::bits::Flags;

// What is known of the records so far: how many entries came, whether none of the last batch's stays, and how many batches stay.
#[derive(Clone, Copy)]
pub struct Kept {
    pub entries: usize,
    pub empty: bool,
    pub batches: usize,
}

impl Kept {
    // A batch stays with its first entry that does.
    fn count_entry(&mut self, flags: &Flags)
        requires { (self.old.entries + 1 < 1000000) × (self.old.batches < 1000000) }
        ensures { self.new ≡ entry_counted flags.now self.old }
    {
        self.entries += 1;
        if self.empty && !flags.is_set(self.entries) {
            self.empty = false;
            self.batches += 1;
        }
    }

    // A record 5 begins a batch of which no entry stays so far.
    fn count_record(&mut self, flags: &Flags, first: u8)
        requires { (self.old.entries + 1 < 1000000) × (self.old.batches < 1000000) }
        ensures { self.new ≡ record_counted flags.now self.old first }
    {
        match first {
            b'5' => self.empty = true,
            b'6' => self.count_entry(flags),
            _ => {}
        }
    }
}

// Of an accepted file with so many records before its file control.
pub(crate) fn batches_left(way: Way, file: &[u8], flags: &Flags, count: usize) -> usize
    requires { Walkable way file.now count }
    ensures { (result ≡ counted_from flags.now (kept_so 0 false 0) (body_of (view_of way file.now))) × (result < 1000000) }
{
    let mut kept = Kept {
        entries: 0,
        empty: false,
        batches: 0,
    };
    for rec in file.chunks_exact(layout::record_bytes(way)).take(count) {
        kept.count_record(flags, rec[0]);
    }
    kept.batches
}
