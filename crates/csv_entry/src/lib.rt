// Lists of clients as comma lines: RFC 4180's fields and lines, and the entry that a line becomes.
#![tactic(auto)]

pub mod entries;

// The row of a line's entry, and the bytes of the line.
#[derive(Clone, Copy)]
pub struct Placed {
    pub row: [u8; 93],
    pub size: usize,
}
