// Entries and addenda are nearly all of a large file: their fields tested in a straight line, with no table and no branch between them.
// The walk along the table names the refusal where one of these says no.
#![tactic(auto)]

ghost use Rattle.std.specs.Prelude.{◌≡◌, ◌&&◌, length, is_ok};
ghost use Rattle.layout.specs.Fields.{entry, part};
ghost use Rattle.check_alone.specs.Own.{bank};
ghost use Rattle.check_across.specs.Across.{entry_bank, trace_number, check_digit_rule, trace_rule, said_of};
ghost use Rattle.check_quick.specs.WorkQuick.{entry_front, entry_back, addendum_all};

use check_across::{Numbers, Sums};
use check_alone::{own, texts};
use check_digit::GroupSums;

// Fields 3 and 4 of an entry, with n for field 3's number, read already. The table is asked only of nine digits.
fn routing_right(groups: &GroupSums, n: u64, rec: &[u8; 94]) -> bool
    requires { n ≡ entry_bank rec.now }
    ensures { result ≡ is_ok (bank (part entry 3 rec.now)) && is_ok (check_digit_rule rec.now (part entry 4 rec.now)) }
{
    let digit = &rec[11..12];
    own::bank(&rec[3..11]).is_ok() & text::digits(digit) && groups.balanced(n, text::number(digit))
}

// Fields 2 to 6 of an entry.
pub fn entry_front(groups: &GroupSums, header: &[u8; 94], said: Numbers, rec: &[u8; 94]) -> bool
    requires { said ≡ said_of rec.now }
    ensures { result ≡ entry_front header.now rec.now }
{
    let code = check_codes::code_of(said.code);
    let side = check_codes::allowed(check_across::batch_class(header), code)
        & check_across::class_takes(header, code);
    let known = text::digits(&rec[1..3]) & side;
    let routing = routing_right(groups, said.bank, rec);
    let account = own::account(&rec[12..29]).is_ok();
    let amount = text::digits(&rec[29..39]) & check_codes::carries(code, said.amount);
    known & routing & account & amount
}

#[tactic(auto, using(text::proofs::DecimalLaws::same_is))]
fn trace_right(sums: Sums, header: &[u8; 94], n: u64, p: &[u8]) -> bool
    requires { (length p.now ≡ 15) × (n ≡ trace_number p.now) }
    ensures { result ≡ is_ok (trace_rule sums header.now p.now) }
{
    text::digits(p)
        & (text::chunk::<8>(p, 0) == text::chunk::<8>(header, 79))
        & check_across::trace_follows(sums, n)
}

// Fields 7 to 11 of an entry.
pub fn entry_back(sums: Sums, header: &[u8; 94], said: Numbers, rec: &[u8; 94]) -> bool
    requires { said ≡ said_of rec.now }
    ensures { result ≡ entry_back sums header.now rec.now }
{
    let id = texts::optional_text(&rec[39..54]).is_ok();
    let name = texts::mandatory_text(&rec[54..76]).is_ok();
    let other = texts::optional_text(&rec[76..78]).is_ok();
    let flag = check_across::flag_rule(check_codes::code_of(said.code), &rec[78..79]).is_ok();
    let trace = trace_right(sums, header, said.trace, &rec[79..94]);
    id & name & other & flag & trace
}

// Fields 2 to 5 of an addendum.
pub fn addendum_all(sums: Sums, rec: &[u8; 94]) -> bool
    ensures { result ≡ addendum_all sums rec.now }
{
    let kind = texts::fixed(5, &rec[1..3]).is_ok();
    let words = texts::optional_text(&rec[3..83]).is_ok();
    let place = texts::fixed(1, &rec[83..87]).is_ok();
    let trace = check_across::entry_trace_rule(sums, &rec[87..94]).is_ok();
    kind & words & place & trace
}
