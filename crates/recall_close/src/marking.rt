// Which entries go: a flag for each entry number.
ghost use Rattle.std.specs.Prelude.{ℕ, ◌<◌, ◌≡◌, true, false, length};
ghost use Rattle.view.specs.View.{View, entries_of};
ghost use Rattle.recall_view.specs.RecallView.{named, all_exist};
ghost use Rattle.recall_close.specs.WorkMoving.{gone, some_left};

use crate::bits::Flags;

// Flags each number of the list; false where one of them is no entry's.
pub fn mark(flags: &mut Flags, numbers: &[u64], count: u64) -> bool
    requires { (count < 1000000) × ((k : ℕ) → gone flags.old k ≡ false) }
    ensures { ((v : View) → length (entries_of v) ≡ count → result ≡ all_exist v numbers.now) × (result ≡ true → (k : ℕ) → gone flags.new k ≡ named k numbers.now) }
{
    for n in numbers {
        if !(1..=count).contains(n) {
            return false;
        }
        flags.set(*n as usize);
    }
    true
}

// Whether an entry is not flagged.
pub fn any_left(flags: &Flags, count: usize) -> bool
    requires { count < 1000000 }
    ensures { result ≡ some_left flags.now 1 count }
{
    (1..=count).any(|k| !flags.is_set(k))
}
