// The ten calls on a lent block, held, and the check, for a host in Rust or C to link. Each takes any bytes, any numbers and lists of
// any length. A call on a block that is not sound is refused with 15, burns nothing and writes nothing; on a sound block it does
// to the block what the manager's call does to the state.
#![tactic(auto)]

ghost use Rattle.std.specs.Prelude.{◌≡◌, length};
ghost use Rattle.rules.specs.Table.{Table};
ghost use Rattle.rules.specs.Prices.{prices_of};
ghost use Rattle.rules.specs.Calls.{Outcome, begin_of, finish_of, recheck_of, scan_of, open_of, grant_of, pick_of, deliver_of, evict_of, cancel_of};
ghost use Rattle.manager.specs.State.{view, Sound, Did};
ghost use Rattle.block.specs.Block.{block_of, SoundBlock};
ghost use Rattle.block.specs.Check.{Tells};
ghost use Rattle.damsonpouch.specs.Reply.{reply_of, refused15};
ghost use Rattle.damsonpouch.specs.Linked.{Linked, On, Anew, Counted};

use manager::State;
use rules::{Answer, Refusal};

// A reply in numbers, for C. Kind: 0 ok, 1 done, 2 still, 3 nothing, 4 refused, with its number, 5 an entry's state (0 Free, 1 Waiting,
// 2 Blocked) and name. Clashed is 1 in the reply of a Begin that is Blocked, and lowest is then the lowest record that it clashed
// on. What a kind does not have is 0.
#[repr(C)]
#[derive(Clone, Copy)]
pub struct Reply {
    pub kind: u8,
    pub number: u8,
    pub state: u8,
    pub tenant: u8,
    pub serial: u16,
    pub clashed: u8,
    pub lowest: u8,
    pub burnt: u32,
}

// The reply in which every number is 0.
const NONE: Reply = Reply {
    kind: 0,
    number: 0,
    state: 0,
    tenant: 0,
    serial: 0,
    clashed: 0,
    lowest: 0,
    burnt: 0,
};

// An answer and the units burnt, in numbers.
fn in_numbers(answer: Answer, burnt: u32) -> Reply
    ensures { result ≡ reply_of answer burnt }
{
    let none = Reply { burnt, ..NONE };
    match answer {
        Answer::Ok => none,
        Answer::Done => Reply { kind: 1, ..none },
        Answer::Still => Reply { kind: 2, ..none },
        Answer::Nothing => Reply { kind: 3, ..none },
        Answer::Refused(number) => Reply {
            kind: 4,
            number,
            ..none
        },
        Answer::Named(m, tenant, serial) => Reply {
            kind: 5,
            state: block::write::mode_byte(m),
            tenant,
            serial,
            ..none
        },
        Answer::BlockedOn(tenant, serial, lowest) => Reply {
            kind: 5,
            state: 2,
            tenant,
            serial,
            clashed: 1,
            lowest,
            ..none
        },
    }
}

// Refusal 15.
fn refused() -> Reply
    ensures { result ≡ refused15 }
{
    in_numbers(Answer::Refused(Refusal::UnsoundBlock.number()), 0)
}

// Writes the state after a call, and replies what the call said.
// The length is a clause: an array would ask its three callers for a conversion each, and in `on` Rattle fails on the array's loan.
fn stored(b: &mut [u8], s: State) -> Reply
    requires sound { Sound s }
    requires b_len { length b.old ≡ 2176 }
    ensures b_after { b.new ≡ block_of (view s) }
    ensures value { result ≡ reply_of s.said.answer s.said.burnt }
{
    let said = s.said;
    block::write::state(b, s);
    in_numbers(said.answer, said.burnt)
}

// A call on a block: what the manager's call does to a sound state, it does to a sound block. Begin does the same by itself: through
// this function it copies the state twice more, and takes 16 KB of stack instead of 11.
fn on<F: FnOnce(State) -> State>(b: &mut [u8], call: F) -> Reply
    ghost of: { Table → Outcome }
    requires may { (s : _) → Sound s → F.pre call s }
    requires does { (s r : _) → Sound s → F.post call s r → Did r (of (view s)) }
    ensures { Linked (On of) b.old b.new result }
{
    if !block::check::sound(b) {
        return refused();
    }
    stored(b, call(block::read::state(b)))
}

// Whether a block is sound.
#[unsafe(no_mangle)]
pub extern "C" fn damsonpouch_sound(b: &[u8]) -> bool
    ensures { Tells result (SoundBlock b.now) }
{
    block::check::sound(b)
}

// How many records are held: written by some queued entry, read by some, and either. The number is 0, or 15, and the counts then
// are 0: numbers, for C.
#[repr(C)]
#[derive(Clone, Copy)]
pub struct Held {
    pub number: u8,
    pub written: u16,
    pub read: u16,
    pub either: u16,
}

// The block is only read.
#[unsafe(no_mangle)]
pub extern "C" fn damsonpouch_held(b: &[u8]) -> Held
    ensures { Counted b.now result }
{
    if !block::check::sound(b) {
        return Held {
            number: Refusal::UnsoundBlock.number(),
            written: 0,
            read: 0,
            either: 0,
        };
    }
    let t = manager::held::held(block::read::state(b));
    Held {
        number: 0,
        written: t.written,
        read: t.read,
        either: t.either,
    }
}

// Open overwrites any block of the right length.
#[unsafe(no_mangle)]
pub extern "C" fn damsonpouch_open(b: &mut [u8], shares: &[u8]) -> Reply
    ensures { Linked (Anew (open_of shares.now)) b.old b.new result }
{
    if b.len() != 2176 {
        return refused();
    }
    stored(b, manager::open::open(shares))
}

#[unsafe(no_mangle)]
pub extern "C" fn damsonpouch_grant(b: &mut [u8], tenant: u8, amount: u32) -> Reply
    ensures { Linked (On (λ t. grant_of t tenant amount)) b.old b.new result }
{
    on(b, move |s| manager::grant::grant(s, tenant, amount))
}

#[unsafe(no_mangle)]
pub extern "C" fn damsonpouch_begin(
    b: &mut [u8],
    tenant: u8,
    awaited: u8,
    reads: &[u8],
    writes: &[u8],
) -> Reply
    ensures { Linked (On (λ t. begin_of (prices_of t) t tenant awaited reads.now writes.now)) b.old b.new result }
{
    if !block::check::sound(b) {
        return refused();
    }
    let s = block::read::state(b);
    stored(b, manager::begin::begin(s, tenant, awaited, reads, writes))
}

#[unsafe(no_mangle)]
pub extern "C" fn damsonpouch_finish(b: &mut [u8], tenant: u8, serial: u16) -> Reply
    ensures { Linked (On (λ t. finish_of (prices_of t) t tenant serial)) b.old b.new result }
{
    on(b, move |s| manager::finish::finish(s, tenant, serial))
}

#[unsafe(no_mangle)]
pub extern "C" fn damsonpouch_recheck(b: &mut [u8], tenant: u8, serial: u16) -> Reply
    ensures { Linked (On (λ t. recheck_of (prices_of t) t tenant serial)) b.old b.new result }
{
    on(b, move |s| manager::recheck::recheck(s, tenant, serial))
}

#[unsafe(no_mangle)]
pub extern "C" fn damsonpouch_scan(b: &mut [u8], tenant: u8) -> Reply
    ensures { Linked (On (λ t. scan_of (prices_of t) t tenant)) b.old b.new result }
{
    on(b, move |s| manager::scan::scan(s, tenant))
}

#[unsafe(no_mangle)]
pub extern "C" fn damsonpouch_pick(b: &mut [u8]) -> Reply
    ensures { Linked (On (λ t. pick_of t)) b.old b.new result }
{
    on(b, manager::pick::pick)
}

#[unsafe(no_mangle)]
pub extern "C" fn damsonpouch_deliver(b: &mut [u8], tenant: u8, serial: u16) -> Reply
    ensures { Linked (On (λ t. deliver_of t tenant serial)) b.old b.new result }
{
    on(b, move |s| manager::deliver::deliver(s, tenant, serial))
}

#[unsafe(no_mangle)]
pub extern "C" fn damsonpouch_evict(b: &mut [u8], tenant: u8, serial: u16) -> Reply
    ensures { Linked (On (λ t. evict_of t tenant serial)) b.old b.new result }
{
    on(b, move |s| manager::evict::evict(s, tenant, serial))
}

#[unsafe(no_mangle)]
pub extern "C" fn damsonpouch_cancel(b: &mut [u8], tenant: u8, serial: u16) -> Reply
    ensures { Linked (On (λ t. cancel_of (prices_of t) t tenant serial)) b.old b.new result }
{
    on(b, move |s| manager::cancel::cancel(s, tenant, serial))
}
