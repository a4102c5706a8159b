// The single-field check, which reads all rules from the table of the record's type.
#![tactic(auto)]

pub mod field;
