// What a check answers: a refusal, what was counted where the data end, and which lengths a file may have.
ghost use Rattle.std.specs.Prelude.{◌<◌, ◌≡◌};
ghost use Rattle.check_record.specs.Record.{finished, length_fits};
ghost use Rattle.layout.specs.Answers.{checked_as};

use check_sums::State;
use layout::{Acceptance, Answer, Fault, Refusal, Way};

// The answer where the data end.
pub fn finished(st: State) -> Answer<Acceptance>
    requires { st.sums.records < 10000000 }
    ensures { checked_as result ≡ finished st }
{
    let State {
        place,
        sums,
        bycode,
        ..
    } = st;
    if !check_order::complete(place, sums.records) {
        return Err(Refusal::at(Fault::Ended, sums.records + 1, 0));
    }
    Ok(Acceptance {
        batches: sums.batches,
        entries: sums.entries,
        addenda: sums.addenda,
        debit: sums.debit,
        credit: sums.credit,
        bycode,
    })
}

// Whether a file may be so long: whole records, at least one, at most a million.
pub fn whole_records(way: Way, size: usize) -> bool
    ensures { result ≡ length_fits way size }
{
    let wide = layout::record_bytes(way);
    1 <= size && size % wide == 0 && size <= wide * 1_000_000
}
