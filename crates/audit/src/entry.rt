// What the frames of the log say, fed to the journal one by one, and what is wrong with a frame whose check is right.
ghost use Rattle.std.specs.Prelude.{◌≡◌, drop};
ghost use Rattle.filing.specs.ReadBack.{kind_read, entry_with};
ghost use Rattle.journal_code.specs.Run.{held};
ghost use Rattle.journal_code.specs.Claims.{settings_read};
ghost use Rattle.audit.specs.Feed.{lent, frame_done};
ghost use Rattle.audit.specs.Taken.{is_packet, open_act, first_act, packet_act, known_act, later_act, act_for, name_in, started_by, wrong_at, done_after, records_after, taken_as, fed_by, frame_taken};

use crate::place::{Here, number_at};
use crate::waiting::{Phase, Waiting, after, is_handed, nothing_waiting, with_phase};
use base::{be16_at, copy_into, wide};
use filing::entry::{EntryRead, entry_in, kind_in, settings_in};
use filing::frame::{Kind, kind_number};
use journal_code::answer::{answered, checked, closed, nonce, object, sent, stream_ended};
use journal_code::receive::received;
use journal_code::state::{Settings, State, fresh};
use std::num::wrapping_add_u32;

// How long a body may be. A receiver takes none that is longer than 65,536 bytes.
pub(crate) const BODY: usize = 1048576;

// The number of the end of a log that has none.
pub(crate) const NO_END: usize = 256;

// The bytes of a session's name, and where it stands in the first payload.
pub(crate) const NAME: usize = 33;

const NAME_AT: usize = 16;

// `OBX1`, with which the first payload begins, as one number.
const OPENING: u32 = 0x4F425831;

// What is wrong with a frame whose check is right: the first is no `open`; its Put limit is over `BODY`; a later one has letters that do not belong
// there; a packet has another length than it says.
pub(crate) const NO_OPEN: u8 = 1;

pub(crate) const LIMIT: u8 = 2;

pub(crate) const KIND: u8 = 3;

pub(crate) const LENGTH: u8 = 4;

// What the frames say.
#[derive(Clone, Copy)]
pub(crate) struct Audit {
    pub state: State,
    // The record that was handed over last, if it is not judged yet.
    pub waiting: Waiting,
    // The session's name by the first frame.
    pub name: [u8; NAME],
    // How many records were handed over.
    pub records: u32,
    // The number of the frame `done`, or `NO_END`.
    pub done: usize,
    // What is wrong with a frame whose check is right, or 0, and the number of that frame. What comes behind it is not fed.
    pub fault: u8,
    pub fault_at: u32,
}

// What is done with a frame.
#[derive(Clone, Copy)]
enum Act {
    // It is passed over.
    Pass,
    // It is the first.
    Start,
    // It is wrong.
    Wrong(u8),
    // It is fed to the journal.
    Feed(EntryRead),
}

// Returns the settings that the payload of the first frame says.
fn settings_of(payload: &[u8]) -> Settings
    ensures { result ≡ settings_read payload.now }
{
    let said = settings_in(payload);
    Settings {
        limit: said.limit as usize,
        srm: said.srm,
        authentication: said.authentication,
        refuses: said.refuses,
    }
}

// Returns what is known before the first frame.
pub(crate) fn before_first() -> Audit {
    let settings = Settings {
        limit: 0,
        srm: false,
        authentication: false,
        refuses: false,
    };
    Audit {
        state: fresh(settings),
        waiting: nothing_waiting(),
        name: [0u8; NAME],
        records: 0,
        done: NO_END,
        fault: 0,
        fault_at: 0,
    }
}

// Returns the session's name by the first frame's payload; zeros if it is not there.
fn name_in(payload: &[u8]) -> [u8; NAME]
    ensures { result ≡ name_in payload.now }
{
    let mut name = [0u8; NAME];
    if payload.len() < NAME_AT + NAME {
        return name;
    }
    copy_into(&mut name, 0, &payload[NAME_AT..NAME_AT + NAME]);
    name
}

// Returns what is known after the first frame.
fn started(payload: &[u8]) -> Audit
    ensures { result ≡ started_by payload.now }
{
    Audit {
        state: fresh(settings_of(payload)),
        waiting: nothing_waiting(),
        name: name_in(payload),
        records: 0,
        done: NO_END,
        fault: 0,
        fault_at: 0,
    }
}

// Returns what is known once frame `number` was wrong.
fn wrong(a: Audit, fault: u8, number: u32) -> Audit
    ensures { result ≡ wrong_at a fault number }
{
    let mut r = a;
    r.fault = fault;
    r.fault_at = number;
    r
}

// ---- what is done with a frame

// Tells whether a payload is a packet of the length that it says.
fn is_packet(payload: &[u8]) -> bool
    ensures { result ≡ is_packet payload.now }
{
    if payload.len() < 3 {
        return false;
    }
    be16_at(payload, 1) == payload.len()
}

// Returns what is done with a first frame that is an `open`.
fn open_act(payload: &[u8]) -> Act
    ensures { result ≡ open_act payload.now }
{
    if number_at(payload, 0) != OPENING {
        return Act::Wrong(NO_OPEN);
    }
    let settings = settings_of(payload);
    if BODY < settings.limit {
        return Act::Wrong(LIMIT);
    }
    Act::Start
}

// Returns what is done with the first frame.
fn first_act(letters: u32, payload: &[u8]) -> Act
    ensures { result ≡ first_act letters payload.now }
{
    if letters != kind_number(Kind::Open) {
        return Act::Wrong(NO_OPEN);
    }
    open_act(payload)
}

// Returns what is done with a packet.
fn packet_act(payload: &[u8]) -> Act
    ensures { result ≡ packet_act payload.now }
{
    if is_packet(payload) {
        return Act::Feed(EntryRead::Packet);
    }
    Act::Wrong(LENGTH)
}

// Returns what is done with a frame behind the first whose letters are known.
fn known_act(letters: u32, kind: Kind, payload: &[u8]) -> Act
    ensures { result ≡ known_act letters kind payload.now }
{
    if letters == kind_number(Kind::Open) {
        return Act::Wrong(KIND);
    }
    if letters == kind_number(Kind::Recv) {
        return packet_act(payload);
    }
    Act::Feed(entry_in(kind, payload))
}

// Returns what is done with a frame behind the first.
fn later_act(letters: u32, payload: &[u8]) -> Act
    ensures { result ≡ later_act letters (kind_read letters) payload.now }
{
    match kind_in(letters) {
        Some(kind) => known_act(letters, kind, payload),
        None => Act::Wrong(KIND),
    }
}

// Returns what is done with frame `number`. Behind a frame that is wrong all are passed over.
fn act_for(fault: u8, number: u32, letters: u32, payload: &[u8]) -> Act
    ensures { result ≡ act_for fault number letters payload.now }
{
    if fault != 0 {
        return Act::Pass;
    }
    if number == 0 {
        return first_act(letters, payload);
    }
    later_act(letters, payload)
}

// ---- the journal

// Returns the bytes behind the first.
fn behind_first(payload: &[u8]) -> &[u8]
    ensures { result.now ≡ drop 1 payload.now }
{
    if payload.len() == 0 {
        return payload;
    }
    &payload[1..]
}

// Feeds what a frame says to the journal.
fn feed(
    s: State,
    entry: EntryRead,
    payload: &[u8],
    packet: &mut [u8; 65535],
    headers: &mut [u8; 65535],
    body: &mut [u8; BODY],
    tables: &mut [u64; 320],
) -> State
    ensures { held result (lent packet.new headers.new body.new tables.new)
        ≡ frame_done s (lent packet.old headers.old body.old tables.old)
        (entry_with entry payload.now) }
{
    match entry {
        EntryRead::Packet => received(s, payload, packet, headers, body, tables),
        EntryRead::Reply(byte) => sent(s, byte),
        EntryRead::Answer(code) => answered(s, code, behind_first(payload), tables),
        EntryRead::Object => object(s),
        EntryRead::Check(right) => checked(s, right),
        EntryRead::Nonce => nonce(s),
        EntryRead::Ids => closed(s, payload, tables),
        EntryRead::End => stream_ended(s),
        EntryRead::Nothing => s,
    }
}

// Returns the number of the end after a frame: that of a frame `done`, else the one before.
fn done_after(done: usize, letters: u32, payload: &[u8]) -> usize
    ensures { result ≡ done_after done letters payload.now }
{
    if letters != kind_number(Kind::Done) {
        return done;
    }
    if payload.len() == 0 {
        return done;
    }
    wide(payload[0])
}

// Returns what is known with the last record in this phase.
pub(crate) fn in_phase(a: Audit, phase: Phase) -> Audit {
    let waiting = a.waiting;
    let mut r = a;
    r.waiting = with_phase(waiting, phase);
    r
}

// Returns how many records there are after an entry.
fn records_after(records: u32, handed: bool) -> u32
    ensures { result ≡ records_after records handed }
{
    if handed {
        return wrapping_add_u32(records, 1);
    }
    records
}

// Returns what is known once a frame left the state `s`.
fn fed(a: Audit, s: State, entry: EntryRead, here: Here, payload: &[u8]) -> Audit
    ensures { result ≡ fed_by a s entry here payload.now }
{
    let waiting = a.waiting;
    let name = a.name;
    Audit {
        state: s,
        waiting: after(waiting, s, entry, here, payload),
        name,
        records: records_after(a.records, is_handed(entry, s.handed)),
        done: done_after(a.done, here.letters, payload),
        fault: 0,
        fault_at: 0,
    }
}

// Takes a frame.
pub(crate) fn take_frame(
    a: Audit,
    here: Here,
    payload: &[u8],
    packet: &mut [u8; 65535],
    headers: &mut [u8; 65535],
    body: &mut [u8; BODY],
    tables: &mut [u64; 320],
) -> Audit
    ensures { taken_as result (lent packet.new headers.new body.new tables.new)
        ≡ frame_taken a here payload.now
        (lent packet.old headers.old body.old tables.old) }
{
    match act_for(a.fault, here.number, here.letters, payload) {
        Act::Pass => a,
        Act::Start => started(payload),
        Act::Wrong(fault) => wrong(a, fault, here.number),
        Act::Feed(entry) => {
            let before = a.state;
            let state = feed(before, entry, payload, packet, headers, body, tables);
            fed(a, state, entry, here, payload)
        }
    }
}
