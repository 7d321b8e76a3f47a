// What is noted in the log of a call, from the decision from which the call was made, and from what the call returned.
ghost use Rattle.std.specs.Prelude.{◌≡◌};
ghost use Rattle.reception.specs.Received.{last_right};
ghost use Rattle.reception.specs.Notes.{is_refused, is_unfinished, is_too_small, is_check_stopped, end_number_at, total, packet_event, packet_note, note_by, note_made, is_end, broken_for};

use crate::answer::{Answer, Secret};
use digest::md5::Octets16;
use filing::content::Event;
use filing::payload::CheckMade;
use packet::limits::MAX_PACKET;
use server::{CallResult, End, Engine, Outcome};

// The bytes that go with an event.
#[derive(Clone, Copy)]
pub enum Part {
    // There are none.
    Nothing,
    // So many bytes in front of the packet store, as the call left it.
    Packet(usize),
    // The reply, as it stood before the call.
    Reply,
    // A Length header with this number; the object's path follows.
    Length(u32),
    // The nonce.
    Nonce(Octets16),
}

// What is noted.
#[derive(Clone, Copy)]
pub enum Note {
    Nothing,
    Event(Event, Part),
}

// Returns whether a call was refused.
fn is_refused(outcome: Outcome) -> bool
    ensures { result ≡ is_refused outcome }
{
    match outcome {
        Outcome::WantsBytes => false,
        Outcome::Reply { length: _ } => false,
        Outcome::Request(_) => false,
        Outcome::End(_) => false,
        Outcome::Refused(_) => true,
    }
}

// Returns whether a packet has begun, with `begun` bytes, and goes on.
fn is_unfinished(outcome: Outcome, begun: usize) -> bool
    ensures { result ≡ is_unfinished outcome begun }
{
    match outcome {
        Outcome::WantsBytes => 0 < begun,
        Outcome::Reply { length: _ } => false,
        Outcome::Request(_) => false,
        Outcome::End(_) => false,
        Outcome::Refused(_) => false,
    }
}

// Returns whether the session ends because a packet's length is under 3.
fn is_too_small(outcome: Outcome) -> bool
    ensures { result ≡ is_too_small outcome }
{
    match outcome {
        Outcome::WantsBytes => false,
        Outcome::Reply { length: _ } => false,
        Outcome::Request(_) => false,
        Outcome::End(end) => match end {
            End::Disconnected => false,
            End::Truncated => false,
            End::LengthTooSmall => true,
            End::Unreadable => false,
            End::OtherOperation => false,
            End::HeadersTooLarge => false,
            End::ReplyTooLarge => false,
        },
        Outcome::Refused(_) => false,
    }
}

// Returns whether a check was stopped over all connections.
fn is_check_stopped(secret: Secret) -> bool
    ensures { result ≡ is_check_stopped secret }
{
    match secret {
        Secret::Known => false,
        Secret::Unknown => false,
        Secret::Stopped => true,
    }
}

// Returns the number of the end of the stream, between packets or inside one, by how many bytes of a packet have come.
fn end_number_at(begun: usize) -> u8
    ensures { result ≡ end_number_at begun }
{
    if begun == 0 {
        return 1;
    }
    2
}

// Returns whether the last check of a password was right.
fn is_last_right(window: u64) -> bool
    ensures { result ≡ last_right window }
{
    window % 2 == 0
}

// Returns how many bytes of a packet have come: `begun` before a call that took `taken`. No packet is longer than 65,535 bytes.
fn total(begun: usize, taken: usize) -> usize
    ensures { result ≡ total begun taken }
{
    if MAX_PACKET < begun {
        return MAX_PACKET;
    }
    if MAX_PACKET - begun < taken {
        return MAX_PACKET;
    }
    begun + taken
}

// Returns the event of a packet that has come: whole, or so far that its length is seen to be under 3.
fn packet_event(outcome: Outcome) -> Event
    ensures { result ≡ packet_event outcome }
{
    if is_too_small(outcome) {
        return Event::Broken;
    }
    Event::Received
}

// Returns what is noted of bytes that were offered behind `begun` ones: nothing while their packet goes on, and then the whole of it.
fn packet_note(begun: usize, res: CallResult) -> Note
    ensures { result ≡ packet_note begun res }
{
    let outcome = res.outcome;
    let e = res.engine;
    if is_unfinished(outcome, e.begun) {
        return Note::Nothing;
    }
    Note::Event(packet_event(outcome), Part::Packet(total(begun, res.taken)))
}

// Returns what is noted of a check of a password.
fn check_note(secret: Secret, res: CallResult) -> CheckMade
    ensures { result ≡ record { right = last_right res.engine.peer.window; stopped = is_check_stopped secret } }
{
    let e = res.engine;
    let peer = e.peer;
    CheckMade {
        right: is_last_right(peer.window),
        stopped: is_check_stopped(secret),
    }
}

// Returns what is noted of a call that goes, `begun` bytes of a packet having come before it.
fn note_by(answer: Answer, begun: usize, res: CallResult) -> Note
    ensures { result ≡ note_by answer begun res }
{
    match answer {
        Answer::Offer => packet_note(begun, res),
        Answer::End => Note::Event(Event::Ended(end_number_at(begun)), Part::Nothing),
        Answer::Sent => Note::Event(Event::Replied, Part::Reply),
        Answer::Reply(code) => Note::Event(Event::Answered(code), Part::Nothing),
        Answer::Object(size) => Note::Event(Event::Given(true), Part::Length(size)),
        Answer::Body => Note::Nothing,
        Answer::BodyFailed => Note::Nothing,
        Answer::Acknowledge => Note::Nothing,
        Answer::Password(secret) => Note::Event(
            Event::Checked(check_note(secret, res)),
            Part::Nothing,
        ),
        Answer::Nonce(nonce) => Note::Event(Event::Challenged, Part::Nonce(nonce)),
        Answer::Credentials(_) => Note::Nothing,
        Answer::NoCredentials => Note::Nothing,
    }
}

// Returns what is noted of the call of `answer` on the state `before`, which returned `result`. Nothing is noted of a call that was refused.
pub fn note_for(answer: Answer, before: Engine, res: CallResult) -> Note
    ensures { result ≡ note_made answer before.begun res }
{
    let outcome = res.outcome;
    if is_refused(outcome) {
        return Note::Nothing;
    }
    note_by(answer, before.begun, res)
}

// Returns whether the stream has ended.
fn is_end(answer: Answer) -> bool
    ensures { result ≡ is_end answer }
{
    match answer {
        Answer::Offer => false,
        Answer::End => true,
        Answer::Sent => false,
        Answer::Reply(_) => false,
        Answer::Object(_) => false,
        Answer::Body => false,
        Answer::BodyFailed => false,
        Answer::Acknowledge => false,
        Answer::Password(_) => false,
        Answer::Nonce(_) => false,
        Answer::Credentials(_) => false,
        Answer::NoCredentials => false,
    }
}

// Returns how many bytes in front of the packet store are noted, ahead of the rest, as a packet that broke off: those that had come if the stream
// has ended.
pub fn broken(answer: Answer, before: Engine, res: CallResult) -> usize
    ensures { result ≡ broken_for answer before.begun res }
{
    let outcome = res.outcome;
    if is_refused(outcome) {
        return 0;
    }
    if is_end(answer) {
        return before.begun;
    }
    0
}
