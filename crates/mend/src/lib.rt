// Files mended, with a list: the type of the answer; the rest is definitions and their theorems.
#![tactic(auto)]

// What mending puts: so many bytes of the mended file, and so many of the changes.
#[derive(Clone, Copy)]
pub struct Lengths {
    pub length: u64,
    pub listed: u64,
}
