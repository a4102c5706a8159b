// The kinds of field: what a field's own bytes must be.
#![tactic(auto)]

ghost use Rattle.std.specs.Prelude.{◌≡◌};
ghost use Rattle.check_alone.specs.Kinds.{need};

use layout::Fault;

pub mod own;
pub mod texts;

// What a field's rules say of it: right, or the lowest number that applies.
pub type Mark = Result<(), Fault>;

// One rule: right, or its number. A field's rules stand in the order of their numbers, each with `?` behind it.
pub fn need(right: bool, fault: Fault) -> Mark
    ensures { result ≡ need right fault (Ok tt) }
{
    if right { Ok(()) } else { Err(fault) }
}
