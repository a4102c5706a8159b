// The file closed up: the records that stay from the front on, the file control, the filler, and blanks.
#![tactic(auto)]

ghost use Rattle.std.specs.Prelude.{◌+◌, ◌-◌, ◌*◌, ◌≤◌, ◌≡◌, ◌++◌, map, length, take, replicate};
ghost use Rattle.text.specs.Rows.{joined};
ghost use Rattle.layout.specs.Ways.{record_bytes};
ghost use Rattle.check_across.specs.WorkSmall.{Small};
ghost use Rattle.view.specs.View.{closed_by, fillers_after};
ghost use Rattle.recall_close.specs.WorkMoving.{ending_of};
ghost use Rattle.recall_close.specs.WorkReady.{Walkable, closed_up, Closed};

use crate::bits::Flags;
use crate::moving::Walk;
use check_across::Sums;
use layout::{Line, Way};
use table_form::forms;

pub mod bits;
pub mod marking;
pub mod moving;

// The records before the file control, those that stay put one behind the other from the front on.
fn close_up(way: Way, file: &mut [u8], flags: &Flags, count: usize) -> Sums
    requires { Walkable way file.old count }
    ensures { Closed way flags.now file.old count result file.new }
{
    let mut walk = Walk::first();
    for i in 0..count {
        // by value: what is put next may lie over it
        let rec: [u8; 94] = *text::chunk(file, layout::record_bytes(way) * i);
        walk.pass_record(way, file, flags, &rec);
    }
    walk.sums
}

// The file control, and fillers up to a whole block; how many records the file then has.
fn end_file(way: Way, file: &mut [u8], sums: Sums) -> usize
    requires { Small sums × (sums.records + 1 + fillers_after (sums.records + 1) ≤ 1000000) × (record_bytes way * (sums.records + 1 + fillers_after (sums.records + 1)) ≤ length file.old) }
    ensures { (result ≡ sums.records + 1 + fillers_after (sums.records + 1)) × (length file.new ≡ length file.old) × (take (record_bytes way * result) file.new ≡ take (record_bytes way * sums.records) file.old ++ joined (map (closed_by way) (ending_of sums))) }
{
    let control = forms::file_control(sums);
    let filler = forms::filler();
    let mut so_far = moving::put(way, file, sums, Line::FileControl, &control);
    while so_far.records % 10 != 0 {
        so_far = moving::put(way, file, so_far, Line::Filler, &filler);
    }
    so_far.records as usize
}

// The file without the flagged entries, and blanks behind it; its new length.
pub fn shorten(way: Way, file: &mut [u8], flags: &Flags, count: usize) -> usize
    requires { Walkable way file.old count }
    ensures { (result ≡ length (closed_up way flags.now file.old)) × (file.new ≡ closed_up way flags.now file.old ++ replicate (length file.old - result) 32) }
{
    let sums = close_up(way, file, flags, count);
    let size = layout::record_bytes(way) * end_file(way, file, sums);
    file[size..].fill(b' ');
    size
}
