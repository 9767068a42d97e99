// One line of the listing as bytes, at the front of an array of 64.
#![tactic(auto)]

ghost use Rattle.std.specs.Prelude.{◌≡◌, [], ◌+◌, ◌≤◌, length};
ghost use Rattle.rules.specs.declared.Answer.TheVariants.{Named};
ghost use Rattle.rules.specs.Said.{word_of};
ghost use Rattle.listing.specs.Decimal.{decimal};
ghost use Rattle.listing.specs.Listing.{name_of, answer_text, left_text, line_of, header_text};
ghost use Rattle.listing.specs.Written.{Written, Appended};

use rules::{Answer, Kind, Mode};

// The first `len` bytes are the line, with its line feed. The longest has 10 + 1 + 7 + 1 + 21 + 1 + 10 + 1 + 10 + 1 = 63.
// It is no `fmt::Write`, and an answer has no `Display` here: their contracts tell what is written only where no write fails,
// and nothing that makes a line can fail.
#[derive(Clone, Copy)]
pub struct Line {
    pub len: usize,
    pub bytes: [u8; 64],
}

// What a line is printed under: the name of a call, or `file` for a file refusal. No Option, whose None would not say `file`.
#[derive(Clone, Copy)]
pub enum Name {
    Call(Kind),
    File,
}

// The word for it, by the table of calls.
fn name_of(name: Name) -> &'static [u8]
    ensures { result.now ≡ name_of name }
{
    match name {
        Name::Call(Kind::Open) => b"open",
        Name::Call(Kind::Grant) => b"grant",
        Name::Call(Kind::Begin) => b"begin",
        Name::Call(Kind::Finish) => b"finish",
        Name::Call(Kind::Recheck) => b"recheck",
        Name::Call(Kind::Scan) => b"scan",
        Name::Call(Kind::Pick) => b"pick",
        Name::Call(Kind::Deliver) => b"deliver",
        Name::Call(Kind::Evict) => b"evict",
        Name::Call(Kind::Cancel) => b"cancel",
        Name::File => b"file",
    }
}

// The word for a state.
#[tactic(auto, unfolding(rules::specs::Said::word_of))]
fn word_of(mode: Mode) -> &'static [u8]
    ensures { result.now ≡ word_of mode }
{
    match mode {
        Mode::Free => b"free",
        Mode::Waiting => b"waiting",
        Mode::Blocked => b"blocked",
    }
}

// Each `push` puts its text behind the line's own.
impl Line {
    // A line of no bytes.
    pub fn new() -> Line
        ensures { Written [] result }
    {
        Line {
            len: 0,
            bytes: [0; 64],
        }
    }

    fn push(&mut self, text: &[u8])
        requires { self.old.len + length text.now ≤ 64 }
        ensures { Appended self.old text.now self.new }
    {
        let end = self.len + text.len();
        self.bytes[self.len..end].copy_from_slice(text);
        self.len = end;
    }

    // The decimal digits of a number. They are found from the lowest on: the highest comes to stand first. No iterator counts
    // `at` down with `high`; and what std's `Display` writes is std's own `decimal`, under a write that may fail.
    fn push_number(&mut self, n: u32)
        requires { self.old.len + length (decimal n) ≤ 64 }
        ensures { Appended self.old (decimal n) self.new }
    {
        let mut digits = [0u8; 10];
        let mut at = digits.len();
        let mut high = n;
        while 10 <= high {
            at -= 1;
            digits[at] = b'0' + (high % 10) as u8;
            high /= 10;
        }
        at -= 1;
        digits[at] = b'0' + high as u8;
        self.push(&digits[at..]);
    }

    // An entry: its state, `:`, its tenant, `.` and its serial.
    #[tactic(auto, using(crate::proofs::Decimal::byte_short, crate::proofs::Decimal::serial_short, crate::proofs::Texts::word_short))]
    fn push_entry(&mut self, mode: Mode, tenant: u8, serial: u16)
        requires { self.old.len + 17 ≤ 64 }
        ensures appended { Appended self.old (answer_text (Named mode tenant serial)) self.new }
        ensures serial_len_bound { length (answer_text (Named mode tenant serial)) ≤ 17 }
    {
        self.push(word_of(mode));
        self.push(b":");
        self.push_number(u32::from(tenant));
        self.push(b".");
        self.push_number(u32::from(serial));
    }

    // An answer: a word, `refused:` and the number, an entry, or a Blocked entry, `@` and the record that it clashed on.
    #[tactic(auto, using(crate::proofs::Decimal::byte_short), unfolding(crate::specs::Listing::answer_text))]
    fn push_answer(&mut self, answer: Answer)
        requires { self.old.len + 21 ≤ 64 }
        ensures appended { Appended self.old (answer_text answer) self.new }
        ensures answer_len_bound { length (answer_text answer) ≤ 21 }
    {
        match answer {
            Answer::Ok => self.push(b"ok"),
            Answer::Done => self.push(b"done"),
            Answer::Still => self.push(b"still"),
            Answer::Nothing => self.push(b"nothing"),
            Answer::Refused(number) => {
                self.push(b"refused:");
                self.push_number(u32::from(number));
            }
            Answer::Named(mode, tenant, serial) => self.push_entry(mode, tenant, serial),
            Answer::BlockedOn(tenant, serial, on) => {
                self.push_entry(Mode::Blocked, tenant, serial);
                self.push(b"@");
                self.push_number(u32::from(on));
            }
        }
    }

    // The fuel that the named tenant has left, or `-` where no valid tenant is named.
    #[tactic(auto, using(crate::proofs::Decimal::number_short), unfolding(crate::specs::Listing::left_text))]
    fn push_left(&mut self, left: Option<u32>)
        requires { self.old.len + 10 ≤ 64 }
        ensures appended { Appended self.old (left_text left) self.new }
        ensures left_len_bound { length (left_text left) ≤ 10 }
    {
        match left {
            Some(units) => self.push_number(units),
            None => self.push(b"-"),
        }
    }
}

// The line of one record: its number, the call, the answer, the units burnt and the fuel that the named tenant has left, which
// is None where no valid tenant is named.
#[tactic(auto, using(crate::proofs::Decimal::number_short, crate::proofs::Texts::name_short))]
pub fn line_of(number: u32, name: Name, answer: Answer, burnt: u32, left: Option<u32>) -> Line
    ensures { Written (line_of number name answer burnt left) result }
{
    let mut line = Line::new();
    line.push_number(number);
    line.push(b" ");
    line.push(name_of(name));
    line.push(b" ");
    line.push_answer(answer);
    line.push(b" ");
    line.push_number(burnt);
    line.push(b" ");
    line.push_left(left);
    line.push(b"\n");
    line
}

// The listing's first line.
pub fn header() -> Line
    ensures { Written header_text result }
{
    let mut line = Line::new();
    line.push(b"no call answer burnt left\n");
    line
}
