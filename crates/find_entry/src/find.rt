// Where the records stand that an entry number leads to.
ghost use Rattle.std.specs.Prelude.{◌+◌, ◌≤◌, ◌/◌, ◌≡◌, length, drop};
ghost use Rattle.layout.specs.Ways.{record_bytes};
ghost use Rattle.check_record.specs.Record.{columns_in};
ghost use Rattle.find_entry.specs.WorkFind.{nth_of};
ghost use Rattle.find_entry.specs.WorkThere.{There, EntryAt, Found};

use layout::Way;

// Indices, from 0, of an entry's record, of its batch's control and of the file's control.
#[derive(Clone, Copy)]
pub struct Places {
    pub entry: usize,
    pub control: usize,
    pub last: usize,
}

// Among the records from index `from` on that begin with this byte, the index of number `k`, from 0; the number of records if there is none.
pub fn nth(way: Way, file: &[u8], from: usize, byte: u8, k: u64) -> usize
    requires { from ≤ length file.now / record_bytes way }
    ensures { result ≡ from + nth_of byte k (drop from (columns_in way file.now)) }
{
    let wide = layout::record_bytes(way);
    let mut left = k;
    for (i, rec) in file[wide * from..].chunks_exact(wide).enumerate() {
        if rec[0] == byte {
            if left == 0 {
                return from + i;
            }
            left -= 1;
        }
    }
    file.len() / wide
}

// Entry numbers count the records 6 from 1.
pub fn entry_at(way: Way, file: &[u8], k: u64) -> usize
    requires { There way file.now k }
    ensures { EntryAt way file.now k result }
{
    nth(way, file, 0, b'6', k - 1)
}

// The first record 8 behind an entry is its batch's, and the first record 9 is the file's.
pub fn locate(way: Way, file: &[u8], k: u64) -> Places
    requires { There way file.now k }
    ensures { Found way file.now k result }
{
    let entry = entry_at(way, file, k);
    let control = nth(way, file, entry, b'8', 0);
    let last = nth(way, file, entry, b'9', 0);
    Places {
        entry,
        control,
        last,
    }
}
