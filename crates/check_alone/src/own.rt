// The rules of single fields that look at nothing else.
ghost use Rattle.std.specs.Prelude.{◌≤◌, ◌≡◌, true, length};
ghost use Rattle.text.specs.Decimal.{every};
ghost use Rattle.layout.specs.WorkFits.{own_fits};
ghost use Rattle.check_alone.specs.Own.{real_time, time, destination, origin, modifier, class, entry_class, bank, is_account, unbroken, account, own_rule};

use crate::{Mark, need, texts};
use check_digit::GroupSums;
use layout::{Fault, Own};

fn real_time(hour: u64, minute: u64) -> bool
    ensures { result ≡ real_time hour minute }
{
    hour <= 23 && minute <= 59
}

fn time(p: &[u8]) -> Mark
    requires { length p.now ≤ 18 }
    ensures { result ≡ time p.now }
{
    if texts::blank(p) {
        return Ok(());
    }
    texts::all_digits(p)?;
    let n = text::number(p);
    need(real_time(n / 100, n % 100), Fault::Date)
}

fn destination(groups: &GroupSums, p: &[u8]) -> Mark
    requires { length p.now ≡ 10 }
    ensures { result ≡ destination p.now }
{
    need(texts::leads(p), Fault::Fixed)?;
    texts::all_digits(&p[1..10])?;
    let bank = text::number(&p[1..9]);
    let digit = text::number(&p[9..10]);
    need(groups.balanced(bank, digit), Fault::CheckDigit)
}

fn origin(p: &[u8]) -> Mark
    requires { length p.now ≡ 10 }
    ensures { result ≡ origin p.now }
{
    texts::all_digits(&p[1..10])?;
    need(matches!(p[0], b' ' | b'0'..=b'9'), Fault::Value)
}

fn modifier(p: &[u8]) -> Mark
    ensures { result ≡ modifier p.now }
{
    let b = texts::first(p);
    need(matches!(b, b'A'..=b'Z' | b'0'..=b'9'), Fault::Value)
}

fn class(p: &[u8]) -> Mark
    requires { length p.now ≤ 18 }
    ensures { result ≡ class p.now }
{
    texts::all_digits(p)?;
    need(matches!(text::number(p), 200 | 220 | 225), Fault::Value)
}

#[tactic(auto, using(text::proofs::DecimalLaws::same_length), unfolding(text::specs::Same::same_bytes))]
fn entry_class(p: &[u8]) -> Mark
    ensures { result ≡ entry_class p.now }
{
    match p {
        b"PPD" | b"CCD" => Ok(()),
        _ => Err(Fault::Value),
    }
}

pub fn bank(p: &[u8]) -> Mark
    ensures { result ≡ bank p.now }
{
    texts::all_digits(p)?;
    need(texts::first(p) <= b'3', Fault::Bank)
}

fn is_account(b: u8) -> bool
    ensures { result ≡ is_account b }
{
    b.is_ascii_digit() | b.is_ascii_uppercase() | (b == b'-') | (b == b' ')
}

fn all_account(p: &[u8]) -> bool
    ensures { result ≡ every is_account p.now }
{
    p.iter().fold(true, |all, b| all & is_account(*b))
}

// No blank before a later byte that is none.
fn unbroken(p: &[u8]) -> bool
    ensures { result ≡ unbroken p.now }
{
    p.array_windows::<2>().fold(
        true,
        |all, [b, next]| all & ((*b != b' ') | (*next == b' ')),
    )
}

pub fn account(p: &[u8]) -> Mark
    ensures { result ≡ account p.now }
{
    need(all_account(p), Fault::Text)?;
    need(!texts::blank(p), Fault::Blank)?;
    need(unbroken(p), Fault::Leading)
}

// A field with a rule of its own.
pub fn own(groups: &GroupSums, o: Own, p: &[u8]) -> Mark
    requires { own_fits o (length p.now) ≡ true }
    ensures { result ≡ own_rule o p.now }
{
    match o {
        Own::Destination => destination(groups, p),
        Own::Origin => origin(p),
        Own::Time => time(p),
        Own::Modifier => modifier(p),
        Own::Class => class(p),
        Own::EntryClass => entry_class(p),
        Own::Bank => bank(p),
        Own::Account => account(p),
    }
}
