// What the law book shares with the code: the state of an entry, the answer of a call, and which call an event asks for.
#![tactic(auto)]

ghost use Rattle.std.specs.Prelude.{◌≡◌};
ghost use Rattle.rules.specs.Numbers.{number_of};
ghost use Rattle.rules.specs.Tags.{ReadsTag};

// An entry's state: running, waiting for remote answers, or blocked.
#[derive(Clone, Copy, PartialEq, Eq)]
pub enum Mode {
    Free,
    Waiting,
    Blocked,
}

// What a call answers. `Refused` holds the number of document 01's table, and no `Refusal`: the law book's theorems speak of the number
// (`NeverFive`, `Charged9`). `Named` holds an entry's state, its tenant and its serial.
// `BlockedOn`, of a Begin alone, holds a Blocked entry's tenant and serial, and the lowest record that it clashed on.
#[derive(Clone, Copy)]
pub enum Answer {
    Ok,
    Done,
    Still,
    Nothing,
    Refused(u8),
    Named(Mode, u8, u16),
    BlockedOn(u8, u16, u8),
}

// How many records are written by some queued entry, read by some, and either.
#[derive(Clone, Copy)]
pub struct Tally {
    pub written: u16,
    pub read: u16,
    pub either: u16,
}

// The calls, each with its row in the law book's table (specs/CallTable.antt).
#[derive(Clone, Copy, PartialEq, Eq)]
pub enum Kind {
    Open,
    Grant,
    Begin,
    Finish,
    Recheck,
    Scan,
    Pick,
    Deliver,
    Evict,
    Cancel,
}

// A call without its lists: the tenant that it names and its numbers, 0 where it has none.
#[derive(Clone, Copy)]
pub struct Event {
    pub kind: Kind,
    pub tenant: u8,
    pub awaited: u8,
    pub serial: u16,
    pub amount: u32,
}

// Why a call or a file is refused: document 01's table and the items after it, in the order of their numbers. 5 is no longer given.
#[derive(Clone, Copy, PartialEq, Eq)]
pub enum Refusal {
    NoTenant = 1,
    Dry = 2,
    TooMany = 3,
    NotRising = 4,
    TooManyAwaited = 6,
    NoPlace = 7,
    NoSerial = 8,
    TooDear = 9,
    Absent = 10,
    WrongState = 11,
    NothingDue = 12,
    TooMuchFuel = 13,
    WrongShares = 14,
    UnsoundBlock = 15,
    UnknownTag = 20,
    PastTheEnd = 21,
    UnsuitedLength = 22,
    Misplaced = 23,
    TooLong = 24,
}

impl Refusal {
    // Its number in the table.
    pub fn number(self) -> u8
        ensures { result ≡ number_of self }
    {
        self as u8
    }
}

// Which call a tag byte is; 10 is none.
impl TryFrom<u8> for Kind {
    type Error = Refusal;

    ghost try_from_gives = { ReadsTag };

    #[tactic(auto, unfolding(crate::specs::CallTable::kinds, crate::specs::Tags::kind_in))]
    fn try_from(tag: u8) -> Result<Self, Refusal> {
        match tag {
            1 => Ok(Kind::Open),
            2 => Ok(Kind::Grant),
            3 => Ok(Kind::Begin),
            4 => Ok(Kind::Finish),
            5 => Ok(Kind::Recheck),
            6 => Ok(Kind::Scan),
            7 => Ok(Kind::Pick),
            8 => Ok(Kind::Deliver),
            9 => Ok(Kind::Evict),
            11 => Ok(Kind::Cancel),
            _ => Err(Refusal::UnknownTag),
        }
    }
}
