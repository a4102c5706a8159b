// One record's check, in the state that the records before it left.
#![tactic(auto)]

use layout::Fault;

pub mod outcome;
pub mod quick;
pub mod step;

// What is wrong with a record, and the number of the field that it is found in.
#[derive(Clone, Copy)]
pub struct Wrong {
    pub fault: Fault,
    pub field: u64,
}

// What a record's fields say of it: passed, or the first refusal with its field's number.
pub type Verdict = Result<(), Wrong>;
