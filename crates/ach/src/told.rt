// What callers in other languages are told: a number for every answer, and the lent numbers, which are filled on a grant alone.
ghost use Rattle.std.specs.Prelude.{◌+◌, ◌*◌, ◌%◌, ◌≤◌, ◌≡◌};
ghost use Rattle.layout.specs.Answers.{answer_of, checked_as};
ghost use Rattle.ach.specs.Told.{way_of, code_of_answer, numbers_of, numbers_left, told_by};

use layout::{Acceptance, Answer, Way};

// The way of a file, told by a number.
pub fn way_of(number: u64) -> Way
    ensures { result ≡ way_of number }
{
    if number == 0 { Way::Plain } else { Way::Lined }
}

fn packed(number: u64, field: u64, record: u64) -> u64
    requires { number ≤ 34 }
    ensures { result ≡ number + 256 * (field % 256) + 65536 * («record» % 4294967296) }
{
    number + 256 * (field % 256) + 65536 * (record % 4_294_967_296)
}

// 0 granted, else number + 256 * field + 65536 * record.
pub fn code_of(answer: Answer<()>) -> u64
    ensures { result ≡ code_of_answer answer }
{
    match answer {
        Ok(()) => 0,
        Err(refusal) => {
            let number = layout::number_of(refusal.fault);
            packed(number, refusal.field, refusal.record.0)
        }
    }
}

// The code of a check's answer; granted, its twenty-nine numbers.
pub fn tell_checked(checked: Answer<Acceptance>, acceptance: &mut [u64; 29]) -> u64
    ensures { (result ≡ code_of_answer (answer_of checked)) × (acceptance.new ≡ numbers_left (answer_of checked) (numbers_of (checked_as checked)) acceptance.old) }
{
    match checked {
        Ok(accepted) => {
            acceptance[0] = accepted.batches;
            acceptance[1] = accepted.entries;
            acceptance[2] = accepted.addenda;
            acceptance[3] = accepted.debit;
            acceptance[4] = accepted.credit;
            text::copy_into(acceptance, 5, &accepted.bycode);
            0
        }
        Err(refusal) => code_of(Err(refusal)),
    }
}

// The code of an answer; granted, what was asked for is told.
pub fn tell<T: Copy>(answer: Answer<T>, told: &mut T) -> u64
    ensures { (result ≡ code_of_answer (answer_of answer)) × (told.new ≡ told_by answer told.old) }
{
    match answer {
        Ok(given) => {
            *told = given;
            0
        }
        Err(refusal) => code_of(Err(refusal)),
    }
}
