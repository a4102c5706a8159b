// The mended file put in front of memory that has room for it: the records before the 9, the 9, and fillers afresh.
ghost use Rattle.std.specs.Prelude.{◌+◌, ◌*◌, ◌≤◌, ◌<◌, ◌≡◌, true, ◌++◌, length, drop, replicate};
ghost use Rattle.std.proofs.lemmas.List.Edits.{sets};
ghost use Rattle.text.specs.Rows.{joined};
ghost use Rattle.layout.specs.Ways.{record_bytes};
ghost use Rattle.check_record.specs.Record.{length_fits};
ghost use Rattle.view.specs.View.{closed_by, fillers_after, filler_record};
ghost use Rattle.mend.specs.Mend.{refilled, mended_record, mended_file};
ghost use Rattle.mend_file.specs.WorkJudging.{NineAt};
ghost use Rattle.mend_file.specs.WorkRenewing.{Bodied};

use crate::refilling::Passed;
use crate::{record, refilling};
use check_across::Sums;
use layout::Way;
use table_form::forms;
use table_write::passing;

// How many fillers fill the block behind so many records.
pub fn fillers(n: usize) -> usize
    ensures { (result ≡ fillers_after n) × (result < 10) }
{
    (10 - n % 10) % 10
}

// How many bytes the mended file has, with so many records before its 9.
pub fn size(way: Way, before: usize) -> usize
    requires { before < 1000000 }
    ensures { result ≡ record_bytes way * (before + 1 + fillers_after (before + 1)) }
{
    layout::record_bytes(way) * (before + 1 + fillers(before + 1))
}

// Puts a record with these columns in place of its own; what stands behind them stays.
fn put_refilled(columns: &[u8; 94], raw: &[u8], mended: &mut [u8], at: usize)
    requires { (94 ≤ length raw.now) × (at + length raw.now ≤ length mended.old) }
    ensures { mended.new ≡ sets mended.old at (refilled columns.now raw.now) }
{
    text::copy_into(mended, at, columns);
    text::copy_into(mended, at + 94, &raw[94..]);
}

// Puts a mended record.
fn put_record(passed: &Passed, raw: &[u8], mended: &mut [u8], at: usize)
    requires { (94 ≤ length raw.now) × (at + length raw.now ≤ length mended.old) }
    ensures { mended.new ≡ sets mended.old at (mended_record passed.now.sums passed.now.header raw.now) }
{
    let columns = refilling::mended(passed.sums, &passed.header, text::chunk(raw, 0));
    put_refilled(&columns, raw, mended, at);
}

// Puts so many fillers, each with the way's line end.
fn put_fillers(way: Way, mended: &mut [u8], from: usize, count: usize)
    requires { from + record_bytes way * count ≤ length mended.old }
    ensures { mended.new ≡ sets mended.old from (joined (replicate count (closed_by way filler_record))) }
{
    let filler = forms::filler();
    let mut to = from;
    for _ in 0..count {
        text::copy_into(mended, to, &filler);
        passing::end_line(way, mended, to + 94);
        to += layout::record_bytes(way);
    }
}

// Puts the records before the 9, mended; what they sum to.
fn put_body(way: Way, file: &[u8], before: usize, mended: &mut [u8]) -> Sums
    requires { (length_fits way (length file.now) ≡ true) × NineAt way file.now before × (length (mended_file way file.now) ≤ length mended.old) }
    ensures { Bodied way file.now mended.old result mended.new }
{
    let wide = layout::record_bytes(way);
    let mut passed = Passed::start();
    for (i, raw) in file.chunks_exact(wide).take(before).enumerate() {
        put_record(&passed, raw, mended, wide * i);
        passed.pass(text::chunk(raw, 0));
    }
    passed.sums
}

// Puts the mended file of a lent file in which so many records stand before the 9.
pub fn put_mended(way: Way, file: &[u8], before: usize, mended: &mut [u8])
    requires { (length_fits way (length file.now) ≡ true) × NineAt way file.now before × (length (mended_file way file.now) ≤ length mended.old) }
    ensures { mended.new ≡ mended_file way file.now ++ drop (length (mended_file way file.now)) mended.old }
{
    let sums = put_body(way, file, before, mended);
    let wide = layout::record_bytes(way);
    let at = wide * before;
    let control = forms::file_control(sums);
    put_refilled(&control, record(way, file, before), mended, at);
    put_fillers(way, mended, at + wide, fillers(before + 1));
}
