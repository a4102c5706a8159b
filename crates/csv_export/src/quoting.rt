// One field of a line: how many bytes it takes in quotes, and putting it into the lent memory.
ghost use Rattle.std.specs.Prelude.{◌+◌, ◌*◌, ◌≤◌, ◌≡◌, [], ◌∷◌, ◌++◌, length};
ghost use Rattle.table_read.specs.WorkPuts.{Puts, Room};
ghost use Rattle.csv_export.specs.Quoting.{trimmed, escaped, doubled, quoted, cell, unpadded, amount_text};

// A field without the blanks at its end.
#[tactic(auto, using(crate::proofs::FieldLaws::trimmed_front, crate::proofs::FieldLaws::trimmed_whole, crate::proofs::FieldLaws::trimmed_none))]
fn trimmed(field: &[u8]) -> &[u8]
    ensures { result.now ≡ trimmed field.now }
{
    let mut rest = field;
    while let [front @ .., b' '] = rest {
        rest = front;
    }
    rest
}

// The dollars of an amount without leading zeros, their last digit aside.
#[tactic(auto, using(crate::proofs::FieldLaws::unpadded_zero, crate::proofs::FieldLaws::unpadded_other, crate::proofs::FieldLaws::unpadded_last))]
fn unpadded(dollars: &[u8]) -> &[u8]
    ensures { result.now ≡ unpadded dollars.now }
{
    let mut rest = dollars;
    while let [b'0', _, ..] = rest {
        rest = &rest[1..];
    }
    rest
}

// How many bytes a text takes with its quotes doubled.
#[tactic(auto, using(crate::proofs::FieldLaws::doubled_count))]
fn doubled_size(text: &[u8]) -> usize
    requires { length text.now ≤ 93 }
    ensures { (result ≡ length (doubled text.now)) × (result ≤ 2 * length text.now) }
{
    text.len() + text.iter().filter(|b| **b == b'"').count()
}

// How many bytes a field takes in quotes.
#[tactic(auto, using(crate::proofs::FieldLaws::trimmed_short, std::proofs::lemmas::Grind::common_steps))]
pub fn text_size(field: &[u8]) -> usize
    requires { length field.now ≤ 93 }
    ensures { (result ≡ length (quoted (trimmed field.now))) × (result ≤ 2 * length field.now + 2) }
{
    doubled_size(trimmed(field)) + 2
}

// How many bytes an amount takes in quotes.
#[tactic(auto, using(crate::proofs::FieldLaws::unpadded_short))]
pub fn amount_size(amount: &[u8; 10]) -> usize
    ensures { (result ≡ length (quoted (amount_text amount.now))) × (result ≤ 23) }
{
    let (dollars, cents) = amount.split_at(8);
    doubled_size(unpadded(dollars)) + doubled_size(cents) + 3
}

// Memory that lines are put into: the lent bytes, and the place behind those that are put.
#[derive(Drop)]
pub struct Out<'a> {
    pub bytes: &'a mut [u8],
    pub to: usize,
}

impl Out<'_> {
    // Puts one byte.
    pub fn put(&mut self, b: u8)
        requires { Room (b ∷ []) self.old.bytes.now self.old.to }
        ensures puts { Puts (b ∷ []) self.old.bytes.now self.new.bytes.now self.old.to self.new.to }
        ensures lent { self.new.bytes.ghost_name ≡ self.old.bytes.ghost_name }
    {
        self.bytes[self.to] = b;
        self.to += 1;
    }

    // Puts a byte of a text: a quote twice.
    #[tactic(auto, using(crate::proofs::FieldLaws::escaped_quote, crate::proofs::FieldLaws::escaped_other, table_read::proofs::Writing::puts_long))]
    fn put_escaped(&mut self, b: u8)
        requires { Room (escaped b) self.old.bytes.now self.old.to }
        ensures puts { Puts (escaped b) self.old.bytes.now self.new.bytes.now self.old.to self.new.to }
        ensures lent { self.new.bytes.ghost_name ≡ self.old.bytes.ghost_name }
    {
        self.put(b);
        if b == b'"' {
            self.put(b);
        }
    }

    // Puts a text with its quotes doubled.
    fn put_doubled(&mut self, text: &[u8])
        requires { Room (doubled text.now) self.old.bytes.now self.old.to }
        ensures puts { Puts (doubled text.now) self.old.bytes.now self.new.bytes.now self.old.to self.new.to }
        ensures lent { self.new.bytes.ghost_name ≡ self.old.bytes.ghost_name }
    {
        for b in text {
            self.put_escaped(*b);
        }
    }

    // Puts a field in quotes, and the byte that stands behind it.
    pub fn put_text(&mut self, field: &[u8], behind: u8)
        requires { Room (cell (trimmed field.now) behind) self.old.bytes.now self.old.to }
        ensures puts { Puts (cell (trimmed field.now) behind) self.old.bytes.now self.new.bytes.now self.old.to self.new.to }
        ensures lent { self.new.bytes.ghost_name ≡ self.old.bytes.ghost_name }
    {
        self.put(b'"');
        self.put_doubled(trimmed(field));
        self.put(b'"');
        self.put(behind);
    }

    // Puts an amount in quotes, and the byte that stands behind it.
    pub fn put_amount(&mut self, amount: &[u8; 10], behind: u8)
        requires { Room (cell (amount_text amount.now) behind) self.old.bytes.now self.old.to }
        ensures puts { Puts (cell (amount_text amount.now) behind) self.old.bytes.now self.new.bytes.now self.old.to self.new.to }
        ensures lent { self.new.bytes.ghost_name ≡ self.old.bytes.ghost_name }
    {
        let (dollars, cents) = amount.split_at(8);
        self.put(b'"');
        self.put_doubled(unpadded(dollars));
        self.put(b'.');
        self.put_doubled(cents);
        self.put(b'"');
        self.put(behind);
    }
}
