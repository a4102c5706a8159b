// Where the money runs out: what the list of a file is, one row a batch, and the question that is put to a list.
#![tactic(auto)]

ghost use Rattle.std.specs.Prelude.{◌≡◌};
ghost use Rattle.funds.specs.Funds.{runs_out};
ghost use Rattle.funds.specs.RunsOut.{runs_out_as};

pub mod filling;

// The row that is over a limit: its record number and credits.
#[derive(Clone, Copy)]
pub struct Over {
    pub record: u64,
    pub credits: u64,
}

// Where the money runs out: the first row over a limit, if one is, and the rows up to and with it, or all whole rows.
#[derive(Clone, Copy)]
pub struct Funds {
    pub rows: u64,
    pub over: Option<Over>,
}

// The question is put to a list and not to the file: any numbers are answered, and a lone one at the end is no row.
pub fn runs_out(rows: &[u64], limit: u64) -> Funds
    ensures { runs_out_as result ≡ runs_out limit rows.now }
{
    let (rows, _) = rows.as_chunks::<2>();
    match rows.iter().position(|[_, credits]| limit < *credits) {
        Some(k) => {
            let [record, credits] = rows[k];
            Funds {
                rows: k as u64 + 1,
                over: Some(Over { record, credits }),
            }
        }
        None => Funds {
            rows: rows.len() as u64,
            over: None,
        },
    }
}
