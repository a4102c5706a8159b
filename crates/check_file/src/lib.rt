// The check of a file: one pass over its records.
#![tactic(auto)]

ghost use Rattle.std.specs.Prelude.{◌≡◌};
ghost use Rattle.layout.specs.Answers.{checked_as};
ghost use Rattle.check_record.specs.Record.{checked_of};

use check_digit::GroupSums;
use check_field::field;
use check_record::{outcome, quick, step};
use check_sums::State;
use layout::{Acceptance, Answer, Fault, Refusal, Way};

// A file is accepted exactly if it keeps the rules; else the first refusal is named.
pub fn check(way: Way, file: &[u8]) -> Answer<Acceptance>
    ensures { checked_as result ≡ checked_of way file.now }
{
    if !outcome::whole_records(way, file.len()) {
        return Err(Refusal::whole(Fault::Length));
    }
    let groups = GroupSums::new();
    let State {
        mut place,
        mut sums,
        mut header,
        mut bycode,
    } = check_sums::start();
    'records: {
        for raw in file.chunks_exact(layout::record_bytes(way)) {
            let rec = text::chunk(raw, 0);
            let line = check_order::line_at(place, sums.records, rec[0]);
            let said = check_across::said(rec);
            let from = quick::walk_from(&groups, line, sums, &header, said, rec);
            for k in from..layout::rows_in(line) {
                if let Err(fault) = field::field(&groups, line, k, sums, &header, rec) {
                    let number = layout::first_field(line) + k as u64;
                    break 'records Err(Refusal::at(fault, sums.records + 1, number));
                }
            }
            if !step::closed(way, raw) {
                break 'records Err(Refusal::at(Fault::LineEnd, sums.records + 1, 0));
            }
            check_sums::count_in_row(&mut bycode, line, said);
            place = check_order::next_place(place, line, rec);
            sums = check_sums::next_sums(sums, line, said, rec);
            header = check_sums::next_header(header, line, rec);
        }
        outcome::finished(State {
            place,
            sums,
            header,
            bycode,
        })
    }
}
