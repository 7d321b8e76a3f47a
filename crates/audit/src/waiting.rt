// The record that was handed over last, and what the frames behind it say of it: what the client was answered, whether it was told so, and what was
// to be filed. A record waits up to the reply that is sent, or up to the next packet.
ghost use Rattle.std.specs.Prelude.{◌≡◌};
ghost use Rattle.journal_code.specs.declared.state.State.{State};
ghost use Rattle.audit.specs.Waiting.{nothing_waiting, handed_over, with_code, with_reply, no_file, file_at, with_file, noted_beside, noted, waiting_after, must_settle, has_bytes, is_waiting, is_over, is_handed, with_phase, topped};

use crate::place::Here;
use digest::md5::Octets16;
use filing::entry::EntryRead;
use filing::frame::{Kind, kind_number};
use filing::note::LogPlace;
use journal_code::state::State;
use lines::output::put;
use table::targets::{Target, unnamed};

// The code of a record that was not answered.
pub(crate) const NO_CODE: usize = 256;

// How many bytes are kept of the payload of a frame `file`. A receiver writes 65 at most.
pub(crate) const KEPT: usize = 80;

// How far a record is.
#[derive(Clone, Copy)]
pub(crate) enum Phase {
    // There is none, or it is judged.
    Nothing,
    // Frames behind it may still speak of it.
    Waiting,
    // None does any more: it is to be judged.
    Over,
}

// The frame `file` of a record, if there is one: how long its payload is, the first bytes of that, where the frame stands, and its check.
#[derive(Clone, Copy)]
pub(crate) struct FileFrame {
    pub is_there: bool,
    pub size: usize,
    pub row: [u8; KEPT],
    pub place: LogPlace,
    pub check: Octets16,
}

// A record, and what is said of it.
#[derive(Clone, Copy)]
pub(crate) struct Waiting {
    pub phase: Phase,
    // How many bytes of the stores are its headers and its body, and whether it has a body.
    pub kept: usize,
    pub body: usize,
    pub came: bool,
    pub target: Target,
    // The code that it was answered with, or `NO_CODE`, and whether that reply was sent.
    pub code: usize,
    pub is_told: bool,
    pub file: FileFrame,
}

// Returns what stands for no frame `file`.
fn no_file() -> FileFrame
    ensures { result ≡ no_file }
{
    FileFrame {
        is_there: false,
        size: 0,
        row: [0u8; KEPT],
        place: LogPlace {
            clock: 0,
            frame: 0,
            bytes: 0,
        },
        check: Octets16 {
            first: 0,
            second: 0,
        },
    }
}

// Returns what stands for no record.
pub(crate) fn nothing_waiting() -> Waiting
    ensures { result ≡ nothing_waiting }
{
    Waiting {
        phase: Phase::Nothing,
        kept: 0,
        body: 0,
        came: false,
        target: unnamed(),
        code: NO_CODE,
        is_told: false,
        file: no_file(),
    }
}

// Returns the record that was handed over with the state `s`.
fn handed_over(s: State) -> Waiting
    ensures { result ≡ handed_over s }
{
    Waiting {
        phase: Phase::Waiting,
        kept: s.gathered.kept,
        body: s.gathered.body,
        came: s.gathered.came,
        target: s.target,
        code: NO_CODE,
        is_told: false,
        file: no_file(),
    }
}

// Returns the record once it was answered with `code`.
fn with_code(w: Waiting, code: u8) -> Waiting
    ensures { result ≡ with_code w code }
{
    Waiting {
        code: code as usize,
        ..w
    }
}

// Returns the code `code` with its top bit set, as it stands in a reply.
fn topped(code: usize) -> usize
    ensures { result ≡ topped code }
{
    if code < 128 { code + 128 } else { code }
}

// Returns the record once a reply was sent whose first byte is `first`.
fn with_reply(w: Waiting, first: u8) -> Waiting
    ensures { result ≡ with_reply w first }
{
    Waiting {
        phase: Phase::Over,
        is_told: topped(w.code) == first as usize,
        ..w
    }
}

// Returns what is kept of a frame `file` with this payload.
fn file_at(here: Here, payload: &[u8]) -> FileFrame
    ensures { result ≡ file_at here payload.now }
{
    let check = here.check;
    let place = LogPlace {
        clock: here.clock,
        frame: here.number,
        bytes: here.bytes,
    };
    let mut row = [0u8; KEPT];
    put(&mut row, 0, payload);
    FileFrame {
        is_there: true,
        size: payload.len(),
        row,
        place,
        check,
    }
}

// Returns the record once a frame `file` with this payload was read.
fn with_file(w: Waiting, here: Here, payload: &[u8]) -> Waiting
    ensures { result ≡ with_file w here payload.now }
{
    Waiting {
        file: file_at(here, payload),
        ..w
    }
}

// Returns the record after a frame that is neither an answer nor a reply.
fn beside(w: Waiting, here: Here, payload: &[u8]) -> Waiting
    ensures { result ≡ noted_beside w here payload.now }
{
    if here.letters == kind_number(Kind::File) {
        return with_file(w, here, payload);
    }
    w
}

// Returns the record after a frame that hands nothing over.
fn noted(w: Waiting, entry: EntryRead, here: Here, payload: &[u8]) -> Waiting
    ensures { result ≡ noted w entry here payload.now }
{
    match entry {
        EntryRead::Reply(first) => with_reply(w, first),
        EntryRead::Answer(code) => with_code(w, code),
        EntryRead::Packet
        | EntryRead::Object
        | EntryRead::Check(_)
        | EntryRead::Nonce
        | EntryRead::Ids
        | EntryRead::End
        | EntryRead::Nothing => beside(w, here, payload),
    }
}

// Tells whether a record waits.
// Stays beside `is_over`: one line each, for the two definitions that the contracts of this file cite.
pub(crate) fn is_waiting(phase: Phase) -> bool
    ensures { result ≡ is_waiting phase }
{
    matches!(phase, Phase::Waiting)
}

// Tells whether a record is to be judged.
pub(crate) fn is_over(phase: Phase) -> bool
    ensures { result ≡ is_over phase }
{
    matches!(phase, Phase::Over)
}

// Tells whether a frame with these letters brings bytes of the client.
fn has_bytes(letters: u32) -> bool
    ensures { result ≡ has_bytes letters }
{
    letters == kind_number(Kind::Recv) || letters == kind_number(Kind::Part)
}

// Tells whether a record is to be judged before a frame with these letters is taken: its bytes stand in the stores up to the next packet.
pub(crate) fn must_settle(phase: Phase, letters: u32) -> bool
    ensures { result ≡ must_settle phase letters }
{
    is_waiting(phase) && has_bytes(letters)
}

// Returns the record once no frame speaks of it any more, or once it was judged.
pub(crate) fn with_phase(w: Waiting, phase: Phase) -> Waiting
    ensures { result ≡ with_phase w phase }
{
    Waiting { phase, ..w }
}

// Tells whether a frame handed a record over, by the mark of the state after it.
pub(crate) fn is_handed(entry: EntryRead, handed: bool) -> bool
    ensures { result ≡ is_handed entry handed }
{
    matches!(entry, EntryRead::Packet) && handed
}

// Returns the record that waits after a frame, if one does: the one that the frame hands over, else the one before with what the frame says of it.
pub(crate) fn after(w: Waiting, s: State, entry: EntryRead, here: Here, payload: &[u8]) -> Waiting
    ensures { result ≡ waiting_after w s entry here payload.now }
{
    if is_handed(entry, s.handed) {
        return handed_over(s);
    }
    if is_waiting(w.phase) {
        return noted(w, entry, here, payload);
    }
    w
}
