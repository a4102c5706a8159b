// Mended records one at a time: what a record adds to the sums by its first byte, and a record 8 filled in from them.
ghost use Rattle.std.specs.Prelude.{◌<◌, ◌≡◌, length};
ghost use Rattle.check_across.specs.WorkSmall.{Small};
ghost use Rattle.check_sums.specs.Sums.{start};
ghost use Rattle.mend.specs.Mend.{line_by, sums_past, header_past, mended_record};

use check_across::Sums;
use check_sums::State;
use layout::Line;
use table_form::forms;

// What the records passed so far sum to, and the record 5 that the next record 8 is filled from.
#[derive(Clone, Copy)]
pub struct Passed {
    pub sums: Sums,
    pub header: [u8; 94],
    ghost small: { Small sums },
}

// What a record that begins with this byte is summed as, wherever it stands.
pub fn line_by(b: u8) -> Line
    ensures { result ≡ line_by b }
{
    match b {
        b'5' => Line::BatchHeader,
        b'6' => Line::Entry,
        b'7' => Line::Addendum,
        _ => Line::Other,
    }
}

impl Passed {
    // Before the first record.
    pub fn start() -> Passed
        ensures { (result.sums ≡ start.sums) × (result.header ≡ start.header) }
    {
        let State { sums, header, .. } = check_sums::start();
        Passed { sums, header }
    }

    // Goes past a record, of which these are the 94 columns.
    pub fn pass(&mut self, rec: &[u8; 94])
        requires { self.old.sums.records < 1000000 }
        ensures { (self.new.sums ≡ sums_past self.old.sums rec.now) × (self.new.header ≡ header_past self.old.header rec.now) }
    {
        let line = line_by(rec[0]);
        let said = check_across::said(rec);
        self.sums = check_sums::next_sums(self.sums, line, said, rec);
        self.header = check_sums::next_header(self.header, line, rec);
    }
}

// The columns of the mended record: a record 8 behind a record 5 is filled in, and any other stays.
#[tactic(auto, using(crate::proofs::RefillLaws::no_batch))]
pub fn mended(sums: Sums, header: &[u8; 94], rec: &[u8; 94]) -> [u8; 94]
    ensures { result ≡ mended_record sums header.now rec.now }
{
    if rec[0] != b'8' || sums.batches == 0 {
        return *rec;
    }
    forms::batch_control(sums, header)
}
