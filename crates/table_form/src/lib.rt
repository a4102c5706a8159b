// Forming: the shape of a pay table, where its sections stand, and each record of a file from the table's rows or from the sums.
#![tactic(auto)]

pub mod forms;
pub mod shape;
pub mod walking;

// The counts of a table, and where its entry rows and its addenda begin.
#[derive(Clone, Copy)]
pub struct Sections {
    pub batches: usize,
    pub entries: usize,
    pub addenda: usize,
    pub entryrows: usize,
    pub textrows: usize,
}
