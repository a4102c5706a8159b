// The transaction codes: what each is, where it may stand and what it may carry.
#![tactic(auto)]

ghost use Rattle.std.specs.Prelude.{◌<◌, ◌≡◌};
ghost use Rattle.check_codes.specs.Codes.{code_of, known, allowed, use_carries, carries, remits, debit_part, credit_part, code_row};

// What a transaction code says.
#[derive(Clone, Copy)]
pub enum Code {
    Unknown,
    Credit(Use),
    Debit(Use),
}

// What an entry's code is for: live money, or a prenote or a remittance of nothing, which carry none.
#[derive(Clone, Copy)]
pub enum Use {
    Live,
    Prenote,
    Remittance,
}

pub fn code_of(n: u64) -> Code
    ensures { result ≡ code_of n }
{
    match n {
        22 | 32 => Code::Credit(Use::Live),
        23 | 33 => Code::Credit(Use::Prenote),
        24 | 34 => Code::Credit(Use::Remittance),
        27 | 37 => Code::Debit(Use::Live),
        28 | 38 => Code::Debit(Use::Prenote),
        29 | 39 => Code::Debit(Use::Remittance),
        _ => Code::Unknown,
    }
}

pub fn known(code: Code) -> bool
    ensures { result ≡ known code }
{
    !matches!(code, Code::Unknown)
}

pub fn allowed(class: u64, code: Code) -> bool
    ensures { result ≡ allowed class code }
{
    match code {
        Code::Unknown => false,
        Code::Credit(_) => class != 225,
        Code::Debit(_) => class != 220,
    }
}

fn use_carries(purpose: Use, amount: u64) -> bool
    ensures { result ≡ use_carries purpose amount }
{
    match purpose {
        Use::Live => (1..=9_999_999_999).contains(&amount),
        Use::Prenote | Use::Remittance => amount == 0,
    }
}

pub fn carries(code: Code, amount: u64) -> bool
    ensures { result ≡ carries code amount }
{
    match code {
        Code::Unknown => false,
        Code::Credit(purpose) | Code::Debit(purpose) => use_carries(purpose, amount),
    }
}

// Whether an entry of this code carries remittance text alone.
pub fn remits(code: Code) -> bool
    ensures { result ≡ remits code }
{
    matches!(
        code,
        Code::Credit(Use::Remittance) | Code::Debit(Use::Remittance)
    )
}

// What an amount adds to the debits.
pub fn debit_part(code: Code, amount: u64) -> u64
    ensures { result ≡ debit_part code amount }
{
    match code {
        Code::Debit(_) => amount,
        Code::Unknown | Code::Credit(_) => 0,
    }
}

// What an amount adds to the credits.
pub fn credit_part(code: Code, amount: u64) -> u64
    ensures { result ≡ credit_part code amount }
{
    match code {
        Code::Credit(_) => amount,
        Code::Unknown | Code::Debit(_) => 0,
    }
}

// The row of a known code among the twelve in rising order.
pub fn code_row(n: u64) -> usize
    ensures { (result ≡ code_row n) × (result < 12) }
{
    match n {
        22 => 0,
        23 => 1,
        24 => 2,
        27 => 3,
        28 => 4,
        29 => 5,
        32 => 6,
        33 => 7,
        34 => 8,
        37 => 9,
        38 => 10,
        _ => 11,
    }
}
