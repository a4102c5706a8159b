// What records say by their fields' numbers, and the rules that look at another field or an earlier record.
#![tactic(auto)]

ghost use Rattle.std.specs.Prelude.{◌≤◌, ◌≡◌, true, length};
ghost use Rattle.layout.specs.WorkFits.{near_fits};
ghost use Rattle.check_across.specs.Across.{entry_code, entry_bank, entry_amount, entry_trace, trace_number, batch_class, batch_number, is_ppd, class_takes, code_rule, check_digit_rule, amount_rule, trace_follows, trace_rule, entry_trace_rule, batch_number_rule, flag_rule, near_rule, said_of};

use check_alone::{Mark, need, texts};
use check_codes::Code;
use check_digit::GroupSums;
use layout::{Fault, Near};

// The numbers that an entry says, read once for its rules and for the sums.
#[derive(Clone, Copy)]
pub struct Numbers {
    pub code: u64,
    pub bank: u64,
    pub amount: u64,
    pub trace: u64,
}

// What is counted and summed over the records so far. Those of the batch start anew at each record 5.
#[derive(Clone, Copy)]
pub struct Sums {
    pub records: u64,
    pub batches: u64,
    pub entries: u64,
    pub addenda: u64,
    pub hash: u64,
    pub debit: u64,
    pub credit: u64,
    pub batchrecords: u64,
    pub batchhash: u64,
    pub batchdebit: u64,
    pub batchcredit: u64,
    pub number: u64,
    pub trace: u64,
}

pub fn entry_code(rec: &[u8; 94]) -> u64
    ensures { result ≡ entry_code rec.now }
{
    text::number(&rec[1..3])
}

pub fn entry_bank(rec: &[u8; 94]) -> u64
    ensures { result ≡ entry_bank rec.now }
{
    text::number(&rec[3..11])
}

pub fn entry_amount(rec: &[u8; 94]) -> u64
    ensures { result ≡ entry_amount rec.now }
{
    text::number(&rec[29..39])
}

fn trace_number(trace: &[u8]) -> u64
    requires { length trace.now ≡ 15 }
    ensures { result ≡ trace_number trace.now }
{
    text::number(&trace[8..15])
}

pub fn entry_trace(rec: &[u8; 94]) -> u64
    ensures { result ≡ entry_trace rec.now }
{
    trace_number(&rec[79..94])
}

// Of a record that is no entry it says nothing of use.
pub fn said(rec: &[u8; 94]) -> Numbers
    ensures { result ≡ said_of rec.now }
{
    Numbers {
        code: entry_code(rec),
        bank: entry_bank(rec),
        amount: entry_amount(rec),
        trace: entry_trace(rec),
    }
}

pub fn batch_class(header: &[u8; 94]) -> u64
    ensures { result ≡ batch_class header.now }
{
    text::number(&header[1..4])
}

pub fn batch_number(header: &[u8; 94]) -> u64
    ensures { result ≡ batch_number header.now }
{
    text::number(&header[87..94])
}

#[tactic(auto, using(text::proofs::DecimalLaws::same_is))]
fn is_ppd(header: &[u8; 94]) -> bool
    ensures { result ≡ is_ppd header.now }
{
    header[50..53] == b"PPD"[..]
}

// Whether the batch's class takes a code. Few codes ask for the class, so it is read for those alone.
pub fn class_takes(header: &[u8; 94], code: Code) -> bool
    ensures { result ≡ class_takes header.now code }
{
    !check_codes::remits(code) || !is_ppd(header)
}

pub fn code_rule(header: &[u8; 94], p: &[u8]) -> Mark
    requires { length p.now ≤ 18 }
    ensures { result ≡ code_rule header.now p.now }
{
    texts::all_digits(p)?;
    let code = check_codes::code_of(text::number(p));
    need(check_codes::known(code), Fault::Value)?;
    need(check_codes::allowed(batch_class(header), code), Fault::Side)?;
    need(class_takes(header, code), Fault::Remittance)
}

fn check_digit_rule(groups: &GroupSums, rec: &[u8; 94], p: &[u8]) -> Mark
    requires { length p.now ≡ 1 }
    ensures { result ≡ check_digit_rule rec.now p.now }
{
    texts::all_digits(p)?;
    let digit = text::number(p);
    need(groups.balanced(entry_bank(rec), digit), Fault::CheckDigit)
}

pub fn amount_rule(rec: &[u8; 94], p: &[u8]) -> Mark
    requires { length p.now ≤ 18 }
    ensures { result ≡ amount_rule rec.now p.now }
{
    texts::all_digits(p)?;
    let code = check_codes::code_of(entry_code(rec));
    need(check_codes::carries(code, text::number(p)), Fault::Amount)
}

pub fn trace_follows(sums: Sums, n: u64) -> bool
    ensures { result ≡ trace_follows sums n }
{
    if sums.batchrecords == 0 {
        1 <= n
    } else {
        sums.trace < n
    }
}

#[tactic(auto, using(text::proofs::DecimalLaws::same_is))]
pub fn trace_rule(sums: Sums, header: &[u8; 94], p: &[u8]) -> Mark
    requires { length p.now ≡ 15 }
    ensures { result ≡ trace_rule sums header.now p.now }
{
    texts::all_digits(p)?;
    need(p[0..8] == header[79..87], Fault::Trace)?;
    need(trace_follows(sums, trace_number(p)), Fault::Trace)
}

pub fn entry_trace_rule(sums: Sums, p: &[u8]) -> Mark
    requires { length p.now ≤ 18 }
    ensures { result ≡ entry_trace_rule sums p.now }
{
    texts::number_is(sums.trace, Fault::Trace, p)
}

fn batch_number_rule(sums: Sums, p: &[u8]) -> Mark
    requires { length p.now ≤ 18 }
    ensures { result ≡ batch_number_rule sums p.now }
{
    texts::all_digits(p)?;
    let n = text::number(p);
    need(1 <= n && sums.number < n, Fault::BatchNumber)
}

// An entry's field 10, by the entry's code.
pub fn flag_rule(code: Code, p: &[u8]) -> Mark
    requires { length p.now ≡ 1 }
    ensures { result ≡ flag_rule code p.now }
{
    let b = p[0];
    need(matches!(b, b'0' | b'1'), Fault::Value)?;
    need(!check_codes::remits(code) || b == b'1', Fault::Remittance)
}

// A field with a rule that looks beyond it.
pub fn near(
    groups: &GroupSums,
    sums: Sums,
    header: &[u8; 94],
    rec: &[u8; 94],
    rule: Near,
    p: &[u8],
) -> Mark
    requires { near_fits rule (length p.now) ≡ true }
    ensures { result ≡ near_rule sums header.now rec.now rule p.now }
{
    match rule {
        Near::Code => code_rule(header, p),
        Near::CheckDigit => check_digit_rule(groups, rec, p),
        Near::Amount => amount_rule(rec, p),
        Near::Trace => trace_rule(sums, header, p),
        Near::EntryTrace => entry_trace_rule(sums, p),
        Near::BatchNumber => batch_number_rule(sums, p),
        Near::Flag => flag_rule(check_codes::code_of(entry_code(rec)), p),
    }
}
