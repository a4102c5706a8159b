// A flag for each number, eight to a byte, and the flags of all entry numbers that a file can have.
ghost use Rattle.std.specs.Prelude.{ℕ, ◌*◌, ◌<◌, ◌≡◌, ◌||◌, false, List, eqb, length};
ghost use Rattle.recall_close.specs.WorkBits.{flag_at};

use std::marker::Model;

// Whether the number's flag is set.
pub fn is_set(flags: &[u8], k: usize) -> bool
    requires { k < 8 * length flags.now }
    ensures { result ≡ flag_at flags.now k }
{
    (flags[k / 8] >> (k % 8)) % 2 == 1
}

// Sets the number's flag; every other one stays as it is.
pub fn set(flags: &mut [u8], k: usize)
    requires { k < 8 * length flags.old }
    ensures long { length flags.new ≡ length flags.old }
    ensures set { (j : ℕ) → flag_at flags.new j ≡ (eqb k j || flag_at flags.old j) }
{
    flags[k / 8] |= 1u8 << (k % 8);
}

// The flags are seen as the list of their bytes.
#[derive(Drop)]
pub struct Flags {
    bytes: [u8; 125_000],
}

impl Model for Flags {
    ghost Value = { List ℕ };

    ghost view = { λ f. f.bytes };

    ghost invariant = { λ f. length f.bytes ≡ 125000 };
}

impl Flags {
    // No flag is set.
    pub fn new() -> Flags
        ensures { (k : ℕ) → flag_at result k ≡ false }
    {
        Flags {
            bytes: [0; 125_000],
        }
    }

    // Whether the number's flag is set.
    pub fn is_set(&self, k: usize) -> bool
        requires { k < 1000000 }
        ensures { result ≡ flag_at self.now k }
    {
        is_set(&self.bytes, k)
    }

    // Sets the number's flag; every other one stays as it is.
    pub fn set(&mut self, k: usize)
        requires { k < 1000000 }
        ensures { (j : ℕ) → flag_at self.new j ≡ (eqb k j || flag_at self.old j) }
    {
        set(&mut self.bytes, k);
    }
}
