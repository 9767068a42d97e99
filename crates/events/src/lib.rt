// The reader of an event file: what record stands at a position, and the parts of its body.
#![tactic(auto)]

ghost use Rattle.std.specs.Prelude.{◌≡◌, [], ◌+◌, ◌≤◌, true, IfOk, length};
ghost use Rattle.rules.specs.Numbers.{refused_by};
ghost use Rattle.rules.specs.Refusals.{first_of};
ghost use Rattle.rules.specs.CallTable.{row_of, is_opening};
ghost use Rattle.rules.specs.Runs.{event_of};
ghost use Rattle.rules.specs.Tags.{kind_of};
ghost use Rattle.events.specs.Events.{two_at, tag_at, body_at, count_in, fits as fits_body, misplaced as misplaced_tag, record_rows, file_rows, too_long, call_of, read_as, record_at};
ghost use Rattle.events.specs.Events.{within, shares_part, reads_part, writes_part, length_of, Whole};

use rules::{Event, Kind, Refusal};

// What stands at a position: an event and the position of the next record; a refusal's number; nothing any more. It stays an
// enum of three cases, and the refusal a number, since the law's `record_at` gives it so.
#[derive(Clone, Copy)]
pub enum Next {
    Call(Event, usize),
    Refused(u8),
    End,
}

// Whether a file is above 65,536 bytes: refusal 24, before any record.
pub fn too_long(s: &[u8]) -> bool
    ensures { result ≡ too_long s.now }
{
    65_536 < s.len()
}

// The number in two bytes of a file, high first.
fn two_at(s: &[u8], i: usize) -> u16
    requires { i + 2 ≤ length s.now }
    ensures { result ≡ two_at s.now i }
{
    u16::from_be_bytes([s[i], s[i + 1]])
}

// How many bytes the body of a call has; None where it has lists of records.
fn bytes_of(kind: Kind) -> Option<usize>
    ensures { result ≡ length_of (row_of kind).body }
{
    match kind {
        Kind::Open => Some(16),
        Kind::Grant => Some(5),
        Kind::Begin => None,
        Kind::Scan => Some(1),
        Kind::Pick => Some(0),
        Kind::Finish | Kind::Recheck | Kind::Deliver | Kind::Evict | Kind::Cancel => Some(3),
    }
}

// Whether a body's length suits its call: with lists, a head of three bytes, the third of which counts the reads behind it.
fn fits(kind: Kind, body: &[u8]) -> bool
    ensures { result ≡ fits_body (row_of kind).body (length body.now) (count_in body.now) }
{
    match bytes_of(kind) {
        Some(bytes) => body.len() == bytes,
        None => 3 <= body.len() && usize::from(body[2]) <= body.len() - 3,
    }
}

// The call and the body of the record at a position, or what is wrong with the record by itself: 21 for its head, 20, 21 for its
// body, 22, in this order.
fn record_of(s: &[u8], at: usize) -> Result<(Kind, &[u8]), Refusal>
    ensures refused { refused_by result ≡ first_of (record_rows s.now at) }
    ensures whole { IfOk result (λ r. Whole s.now at r.0) }
    ensures body { IfOk result (λ r. r.1.now ≡ body_at s.now at) }
    ensures place { IfOk result (λ r. (r.1.ref_ptr.0 ≡ s.entry.ref_ptr.0) × (r.1.ref_ptr.1 ≡ s.entry.ref_ptr.1 + (at + 3))) }
{
    let left = s.len().saturating_sub(at);
    if left < 3 {
        return Err(Refusal::PastTheEnd);
    }
    let kind = Kind::try_from(s[at])?;
    let len = usize::from(two_at(s, at + 1));
    if left - 3 < len {
        return Err(Refusal::PastTheEnd);
    }
    let body = &s[at + 3..at + 3 + len];
    if !fits(kind, body) {
        return Err(Refusal::UnsuitedLength);
    }
    Ok((kind, body))
}

// The event of a body that suits its call: its tenant stands first, and a number has its high byte first.
#[tactic(auto, unfolding(crate::specs::Events::call_of))]
fn event_of(kind: Kind, body: &[u8]) -> Event
    requires { fits_body (row_of kind).body (length body.now) (count_in body.now) ≡ true }
    ensures { result ≡ event_of (call_of kind body.now) }
{
    let none = Event {
        kind,
        tenant: 0,
        awaited: 0,
        serial: 0,
        amount: 0,
    };
    match kind {
        Kind::Open | Kind::Pick => none,
        Kind::Grant => {
            let amount = u32::from_be_bytes([body[1], body[2], body[3], body[4]]);
            Event {
                tenant: body[0],
                amount,
                ..none
            }
        }
        Kind::Begin => Event {
            tenant: body[0],
            awaited: body[1],
            ..none
        },
        Kind::Scan => Event {
            tenant: body[0],
            ..none
        },
        Kind::Finish | Kind::Recheck | Kind::Deliver | Kind::Evict | Kind::Cancel => Event {
            tenant: body[0],
            serial: two_at(body, 1),
            ..none
        },
    }
}

// Whether a call opens a new sequence of calls.
fn opens(kind: Kind) -> bool
    ensures { result ≡ is_opening (row_of kind).role }
{
    match kind {
        Kind::Open => true,
        Kind::Grant | Kind::Begin | Kind::Scan | Kind::Pick => false,
        Kind::Finish | Kind::Recheck | Kind::Deliver | Kind::Evict | Kind::Cancel => false,
    }
}

// Whether the first record is not Open, or a later one is.
fn misplaced(kind: Kind, first: bool) -> bool
    ensures { result ≡ misplaced_tag (Some kind) first }
{
    first != opens(kind)
}

// The event of the record at a position, and where the next record begins; or what is wrong with the record.
fn event_at(s: &[u8], at: usize, first: bool) -> Result<(Event, usize), Refusal>
    ensures refused { refused_by result ≡ first_of (file_rows s.now at first) }
    ensures read { IfOk result (λ r. Next.Call r.0 r.1 ≡ read_as (kind_of (tag_at s.now at)) s.now at) }
{
    let (kind, body) = record_of(s, at)?;
    if misplaced(kind, first) {
        return Err(Refusal::Misplaced);
    }
    Ok((event_of(kind, body), at + 3 + body.len()))
}

// What stands at a position, whatever the bytes and the position are.
pub fn record_at(s: &[u8], at: usize, first: bool) -> Next
    ensures { result ≡ record_at s.now at first }
{
    if s.len() <= at {
        return Next::End;
    }
    match event_at(s, at, first) {
        Ok((event, next)) => Next::Call(event, next),
        Err(why) => Next::Refused(why.number()),
    }
}

// No bytes, at the end of the caller's.
fn nothing(s: &[u8]) -> &[u8]
    ensures result_value { result.now ≡ [] }
    ensures ref_ptr_value { (result.ref_ptr.0 ≡ s.entry.ref_ptr.0) × (result.ref_ptr.1 ≡ s.entry.ref_ptr.1 + length s.now) }
{
    &s[s.len()..]
}

// The shares of an Open, as a part of the caller's own bytes; an empty part, at their end, where no Open stands.
#[tactic(auto, unfolding(crate::specs::Events::shares_part))]
pub fn shares(s: &[u8], at: usize) -> &[u8]
    ensures result_value { result.now ≡ within s.now (shares_part s.now at) }
    ensures ref_ptr_value { (result.ref_ptr.0 ≡ s.entry.ref_ptr.0) × (result.ref_ptr.1 ≡ s.entry.ref_ptr.1 + (shares_part s.now at).from) }
{
    match record_of(s, at) {
        Ok((kind, body)) if opens(kind) => body,
        Ok(_) | Err(_) => nothing(s),
    }
}

// The reads of a Begin, in the same way.
#[tactic(auto, unfolding(crate::specs::Events::reads_part))]
pub fn reads(s: &[u8], at: usize) -> &[u8]
    ensures result_value { result.now ≡ within s.now (reads_part s.now at) }
    ensures ref_ptr_value { (result.ref_ptr.0 ≡ s.entry.ref_ptr.0) × (result.ref_ptr.1 ≡ s.entry.ref_ptr.1 + (reads_part s.now at).from) }
{
    match record_of(s, at) {
        Ok((kind, body)) if bytes_of(kind).is_none() => &body[3..3 + usize::from(body[2])],
        Ok(_) | Err(_) => nothing(s),
    }
}

// The writes of a Begin, which are the rest of its body.
#[tactic(auto, unfolding(crate::specs::Events::writes_part))]
pub fn writes(s: &[u8], at: usize) -> &[u8]
    ensures result_value { result.now ≡ within s.now (writes_part s.now at) }
    ensures ref_ptr_value { (result.ref_ptr.0 ≡ s.entry.ref_ptr.0) × (result.ref_ptr.1 ≡ s.entry.ref_ptr.1 + (writes_part s.now at).from) }
{
    match record_of(s, at) {
        Ok((kind, body)) if bytes_of(kind).is_none() => &body[3 + usize::from(body[2])..],
        Ok(_) | Err(_) => nothing(s),
    }
}
