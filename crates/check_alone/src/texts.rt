// The kinds of field that need no more than the field's bytes.
ghost use Rattle.std.specs.Prelude.{◌≤◌, ◌≡◌, ◌==◌, length, get_or};
ghost use Rattle.text.specs.Decimal.{every, digits, value};
ghost use Rattle.check_alone.specs.Kinds.{blank, need, fixed, all_digits, is_text, leads, optional_text, mandatory_text, days_in, real_day, date};

use crate::{Mark, need};
use layout::Fault;

// The first byte, 0 where there is none.
pub fn first(p: &[u8]) -> u8
    ensures { result ≡ get_or p.now 0 0 }
{
    p.first().copied().unwrap_or(0)
}

pub fn blank(p: &[u8]) -> bool
    ensures { result ≡ blank p.now }
{
    text::all_are(p, b' ')
}

// This byte all over: a field of blanks, a record of nines.
pub fn filled(with: u8, p: &[u8]) -> Mark
    ensures { result ≡ need (every (λ b. b == with) p.now) Fault.Fixed (Ok tt) }
{
    need(text::all_are(p, with), Fault::Fixed)
}

// This number in the field's width.
pub fn fixed(n: u64, p: &[u8]) -> Mark
    requires { length p.now ≤ 18 }
    ensures { result ≡ fixed n p.now }
{
    need(text::digits(p) && text::number(p) == n, Fault::Fixed)
}

pub fn all_digits(p: &[u8]) -> Mark
    ensures { result ≡ all_digits p.now }
{
    need(text::digits(p), Fault::Digits)
}

// Digits that write this number, else this fault.
pub fn number_is(n: u64, fault: Fault, p: &[u8]) -> Mark
    requires { length p.now ≤ 18 }
    ensures { result ≡ need (digits p.now) Fault.Digits (need (value p.now == n) fault (Ok tt)) }
{
    all_digits(p)?;
    need(text::number(p) == n, fault)
}

fn is_text(b: u8) -> bool
    ensures { result ≡ is_text b }
{
    matches!(b, b' '..=b'~') & !b.is_ascii_lowercase()
}

fn all_text(p: &[u8]) -> bool
    ensures { result ≡ every is_text p.now }
{
    p.iter().fold(true, |all, b| all & is_text(*b))
}

pub fn leads(p: &[u8]) -> bool
    ensures { result ≡ leads p.now }
{
    first(p) == b' '
}

pub fn optional_text(p: &[u8]) -> Mark
    ensures { result ≡ optional_text p.now }
{
    need(all_text(p), Fault::Text)?;
    need(!leads(p) || blank(p), Fault::Leading)
}

pub fn mandatory_text(p: &[u8]) -> Mark
    ensures { result ≡ mandatory_text p.now }
{
    need(all_text(p), Fault::Text)?;
    need(!blank(p), Fault::Blank)?;
    need(!leads(p), Fault::Leading)
}

fn days_in(year: u64, month: u64) -> u64
    ensures { result ≡ days_in year month }
{
    match month {
        2 if year % 4 == 0 => 29,
        2 => 28,
        4 | 6 | 9 | 11 => 30,
        _ => 31,
    }
}

fn real_day(year: u64, month: u64, day: u64) -> bool
    ensures { result ≡ real_day year month day }
{
    (1..=12).contains(&month) && (1..=days_in(year, month)).contains(&day)
}

pub fn date(p: &[u8]) -> Mark
    requires { length p.now ≤ 18 }
    ensures { result ≡ date p.now }
{
    all_digits(p)?;
    let n = text::number(p);
    need(real_day(n / 10_000, n / 100 % 100, n % 100), Fault::Date)
}
