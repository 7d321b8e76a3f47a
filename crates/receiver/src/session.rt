// A session: its folder, its log, and what it keeps from call to call.
use crate::clock::Bits;
use crate::log::{Log, WORK, append, append_event};
use crate::path::{PATH, in_archive};
use crate::system::{EEXIST, Held, error, make_folder, sync_folder};
use crate::{clock, log, tell};
use files::system as disk;
use filing::content::{Event, kind_of};
use filing::names::session_name;
use filing::paths::{Place, SessionId};
use lines::arguments::argument;
use std::env::Env;
use std::fs::Files;
use std::io::Write;
use std::random::RandomSource;
use std::time::Clock;

// What a session keeps from call to call.
#[derive(Clone, Copy)]
pub(crate) struct Session {
    pub log: Log,
    // What names the session.
    pub id: SessionId,
    // How many records were handed over.
    pub records: u32,
}

// A folder that was made, by what names it, or the number of the error: 0 if there is none, `NO_BITS` if the kernel has no random bits.
#[derive(Clone, Copy)]
pub(crate) struct Made {
    pub id: SessionId,
    pub error: i32,
}

// The kernel has no random bits.
pub(crate) const NO_BITS: i32 = -1;

// Makes the folder of a session with this name.
fn make<R: Env + Files>(rt: &R, id: SessionId) -> Made {
    let mut path = [0u8; PATH];
    let n = in_archive(rt, id, 0, Place::Session, &mut path);
    Made {
        id,
        error: make_folder(rt, &path[0..n]),
    }
}

// Makes the folder of a session that begins at `clock`, with fresh random bits in its name. Fails if the name is taken.
fn try_folder<R: Env + Files + RandomSource>(rt: &R, clock: u32) -> Made {
    match clock::draw_bits(rt) {
        Bits::Fresh { high, low } => make(rt, SessionId { clock, high, low }),
        Bits::Missing => Made {
            id: SessionId {
                clock,
                high: 0,
                low: 0,
            },
            error: NO_BITS,
        },
    }
}

// Makes the folder of a session. A name that is taken is tried again with other bits, four times in all.
pub(crate) fn made_folder<R: Env + Files + RandomSource>(rt: &R, clock: u32) -> Made {
    let first = try_folder(rt, clock);
    if first.error != EEXIST {
        return first;
    }
    let second = try_folder(rt, clock);
    if second.error != EEXIST {
        return second;
    }
    let third = try_folder(rt, clock);
    if third.error != EEXIST {
        return third;
    }
    try_folder(rt, clock)
}

// Returns the log of a session whose folder was made, with an empty file, or one that has failed.
fn new_log<R: Env + Files>(rt: &R, held: &mut Held<R::File>, made: Made) -> Log {
    if made.error != 0 {
        return log::failed(log::empty(), made.error);
    }
    let mut path = [0u8; PATH];
    let id = made.id;
    let n = in_archive(rt, id, 0, Place::Log, &mut path);
    match disk::create_new(rt, &path[0..n]) {
        Ok(file) => {
            held.log = Some(file);
            log::empty()
        }
        Err(e) => log::failed(log::empty(), error(&e)),
    }
}

// Synchronises the names of a folder of the archive. Returns 0, or the number of the error.
pub(crate) fn sync_place<R: Env + Files>(rt: &R, id: SessionId, number: u32, place: Place) -> i32 {
    let mut path = [0u8; PATH];
    let n = in_archive(rt, id, number, place, &mut path);
    sync_folder(rt, &path[0..n])
}

// Returns the log once the names that lead to it are synchronised: those of the session's folder, and then its own name in the archive.
fn with_names<R: Env + Files>(rt: &R, log: Log, id: SessionId) -> Log {
    if log.error != 0 {
        return log;
    }
    let inner = sync_place(rt, id, 0, Place::Session);
    if inner != 0 {
        return log::failed(log, inner);
    }
    let outer = sync_place(rt, id, 0, Place::Archive);
    if outer != 0 {
        return log::failed(log, outer);
    }
    log
}

// Begins the log of a session whose folder was made: its first frame has the settings, the realm and what is known of the client.
pub(crate) fn begin<R: Env + Files + Clock>(
    rt: &R,
    err: &impl Print,
    held: &mut Held<R::File>,
    made: Made,
    opening: Event,
    realm: &[u8],
    work: &mut [u8; WORK],
) -> Session {
    let id = made.id;
    let name = session_name(id.clock, id.high, id.low);
    let mut peer = [0u8; 64];
    let k = argument(rt, 2, &mut peer);
    let empty = new_log(rt, held, made);
    let first = append_event(
        held,
        empty,
        opening,
        id.clock,
        &name,
        realm,
        &peer[..k],
        work,
    );
    let log = with_names(rt, first, id);
    if log.error != 0 {
        tell::no_log(rt, err, id, log.error);
    }
    Session {
        log,
        id,
        records: 0,
    }
}

// Returns the session with another log. A failure of the log is told once.
pub(crate) fn with_log(rt: &(impl Env + Clock), err: &impl Print, s: Session, log: Log) -> Session {
    let before = s.log;
    let id = s.id;
    if before.error == 0 {
        if log.error != 0 {
            tell::no_log(rt, err, id, log.error);
        }
    }
    Session {
        log,
        id,
        records: s.records,
    }
}

// Returns the session with one record more.
pub(crate) fn with_record(s: Session) -> Session {
    let log = s.log;
    let id = s.id;
    Session {
        log,
        id,
        records: std::num::wrapping_add_u32(s.records, 1),
    }
}

// Notes an event in the session's log, with its parts.
pub(crate) fn note<F: Write>(
    rt: &(impl Env + Clock),
    err: &impl Print,
    held: &mut Held<F>,
    s: Session,
    event: Event,
    first: &[u8],
    second: &[u8],
    work: &mut [u8; WORK],
) -> Session {
    let before = s.log;
    let now = clock::now(rt);
    let log = append_event(held, before, event, now, first, second, b"", work);
    with_log(rt, err, s, log)
}

// Notes a packet in the session's log: the event is one whose payload is the packet itself.
pub(crate) fn note_packet<F: Write>(
    rt: &(impl Env + Clock),
    err: &impl Print,
    held: &mut Held<F>,
    s: Session,
    event: Event,
    packet: &[u8],
    work: &mut [u8; WORK],
) -> Session {
    let before = s.log;
    let log = append(held, before, kind_of(event), clock::now(rt), packet, work);
    with_log(rt, err, s, log)
}
