// Bytes as text: digits and the numbers that they write, runs of one byte, parts as arrays, and copies.
#![tactic(auto)]

ghost use Rattle.std.specs.Prelude.{◌+◌, ◌≤◌, ◌≡◌, eqb, length, take, drop};
ghost use Rattle.std.proofs.lemmas.List.Edits.{sets};
ghost use Rattle.text.specs.Decimal.{every, is_digit, digits, digit_of, value, render};

// Whether a byte is a digit.
pub fn is_digit(b: u8) -> bool
    ensures { result ≡ is_digit b }
{
    b.is_ascii_digit()
}

// Whether all bytes are digits.
#[tactic(auto, using(crate::proofs::DecimalLaws::every_whole))]
pub fn digits(s: &[u8]) -> bool
    ensures { result ≡ digits s.now }
{
    let mut all = true;
    for b in s {
        all &= is_digit(*b);
    }
    all
}

// What a digit counts; any other byte counts 0.
#[tactic(auto, using(crate::proofs::DecimalLaws::digit_range))]
pub fn digit(b: u8) -> u64
    ensures { result ≡ digit_of b }
{
    if is_digit(b) { u64::from(b - b'0') } else { 0 }
}

// The number that the digits write; a byte that is no digit counts 0.
#[tactic(auto, using(crate::proofs::DecimalLaws::value_more, crate::proofs::DecimalLaws::value_room, crate::proofs::DecimalLaws::digit_of_lt), unfolding(crate::specs::Decimal::value_from))]
pub fn number(s: &[u8]) -> u64
    requires { length s.now ≤ 18 }
    ensures { result ≡ value s.now }
{
    let mut n = 0;
    for b in s {
        n = n * 10 + digit(*b);
    }
    n
}

// Writes a number over the whole slice: zeros in front, cut at the left.
#[tactic(auto, using(crate::proofs::DecimalLaws::render_turn), unfolding(crate::specs::Decimal::render))]
pub fn put_number(s: &mut [u8], n: u64)
    ensures { s.new ≡ render (length s.old) n }
{
    let mut left = n;
    for i in (0..s.len()).rev() {
        s[i] = b'0' + (left % 10) as u8;
        left /= 10;
    }
}

// Whether every byte is `b`.
#[tactic(auto, using(crate::proofs::DecimalLaws::every_whole))]
pub fn all_are(s: &[u8], b: u8) -> bool
    ensures { result ≡ every (λ x. eqb x b) s.now }
{
    let mut all = true;
    for x in s {
        all &= *x == b;
    }
    all
}

// The N bytes from index `at` on, as an array.
pub fn chunk<const N: usize>(s: &[u8], at: usize) -> &[u8; N]
    requires { at + N ≤ length s.now }
    ensures { result.now ≡ take N (drop at s.now) }
{
    s[at..at + N].try_into().unwrap()
}

// Copies a slice into another, from index `at` on. A loop, as `copy_from_slice` leaves a `memmove` where
// LLVM cannot tell the two slices apart, and what links the library is promised `memcpy` and `memset` alone.
pub fn copy_into<T: Copy>(to: &mut [T], at: usize, from: &[T])
    requires { at + length from.now ≤ length to.old }
    ensures { to.new ≡ sets to.old at from.now }
{
    for i in 0..from.len() {
        to[at + i] = from[i];
    }
}
