// What the programs share: a file read into a buffer, and the check program's line:
// `OK batches entries addenda debit credit`, or `NO number record field`.
#![tactic(auto)]

ghost use Rattle.std.specs.Prelude.{◌≤◌, length, IfOk};

use layout::{Acceptance, Answer};
use std::io;
use std::io::Read;

// Reads until the buffer is full or the input ends: how many bytes stand at its front.
pub fn read_full<R: Read>(from: &mut R, buffer: &mut [u8]) -> io::Result<usize>
    ensures { IfOk result (λ n. n ≤ length buffer.old) }
{
    let mut done = 0;
    while done < buffer.len() {
        let n = from.read(&mut buffer[done..])?;
        if n == 0 {
            break;
        }
        done += n;
    }
    Ok(done)
}

pub fn print_refusal(rt: &impl Print, number: u64, record: u64, field: u64) -> io::Result<()> {
    println!(rt; "NO {number} {record} {field}")
}

fn print_acceptance(rt: &impl Print, accepted: Acceptance) -> io::Result<()> {
    println!(rt;
        "OK {} {} {} {} {}",
        accepted.batches, accepted.entries, accepted.addenda, accepted.debit, accepted.credit
    )
}

pub fn print_checked(rt: &impl Print, checked: Answer<Acceptance>) -> io::Result<()> {
    match checked {
        Ok(accepted) => print_acceptance(rt, accepted),
        Err(refusal) => print_refusal(
            rt,
            layout::number_of(refusal.fault),
            refusal.record.0,
            refusal.field,
        ),
    }
}
