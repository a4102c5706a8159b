// Checks standard input, one line. More than 64,860 bytes are refused unchecked.
#![tactic(auto)]

use layout::Way;
use std::io;

fn main(rt: HostRuntime) -> io::Result<()> {
    let mut buffer = [0u8; 65536];
    let mut input = rt.stdin();
    let n = print_line::read_full(&mut input, &mut buffer)?;
    if 64860 < n {
        return print_line::print_refusal(&rt, 23, 0, 0);
    }
    // 64,860 bytes hold no more than 229 batches
    let mut rows = [0u64; 458];
    print_line::print_checked(&rt, ach::check(Way::Plain, &buffer[..n], &mut rows))
}
