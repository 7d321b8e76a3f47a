// Filing a record (docs/ARCHIVE.md, "Filing a record"): the steps of the plan, each by one call of the system or a few, and the code of the reply.
ghost use Rattle.std.specs.Prelude.{◌≡◌};
ghost use Rattle.files.specs.Errors.{is_error};
ghost use Rattle.receiver.specs.Filing.{is_filed, body_there, Carried, not_begun, filing_of};

use crate::log::{Log, WORK, append_event};
use crate::path::{PATH, in_archive, part};
use crate::session::{Session, note, sync_place, with_log, with_record};
use crate::system::{EFBIG, Held};
use crate::{clock, log, system, tell};
use archive::block;
use archive::block::WriteError;
use digest::md5::{digest, octets};
use files::error::is_full;
use files::path::front;
use filing::content::Event;
use filing::file::{RecordMarks, file_row};
use filing::names::session_name;
use filing::note::{LogPlace, write_note};
use filing::paths::{Place, SessionId};
use filing::plan::{Filing, Step, next_step};
use lines::output::put;
use std::env::Env;
use std::fs::Files;
use std::io::Write;
use std::num::wrapping_sub_u32;
use std::time::Clock;
use table::targets::{Target, is_named};

// How long the payload of a frame `file` is without the Target.
const ROW: usize = 49;

// How many records a session has names for.
const MOST: u32 = 999999;

// How many steps a plan has at most.
const STEPS: usize = 8;

// How a filing came out: its last step, the number of the error of that, or 0, whether that was for want of room, and what the steps answered that
// were carried out, which are the first `count` of `answers`.
#[derive(Clone, Copy)]
pub(crate) struct Outcome {
    pub step: Step,
    pub error: i32,
    pub full: bool,
    pub count: usize,
    pub answers: [i32; STEPS],
}

// What became of a record that was handed over: whether records are taken under its Target, and how its filing came out.
#[derive(Clone, Copy)]
pub(crate) struct Tried {
    pub taken: bool,
    pub outcome: Outcome,
}

// ---- the steps

// Makes the part folder.
fn make_part<R: Env + Files>(rt: &R, session: SessionId, number: u32) -> i32 {
    let mut path = [0u8; PATH];
    let n = in_archive(rt, session, number, Place::Part, &mut path);
    system::make_folder(rt, &path[0..n])
}

// Makes a file of the part folder, writes it, synchronises it and closes it.
fn write_part<R: Env + Files>(
    rt: &R,
    session: SessionId,
    number: u32,
    place: Place,
    bytes: &[u8],
) -> i32 {
    let mut path = [0u8; PATH];
    let n = in_archive(rt, session, number, place, &mut path);
    system::write_new(rt, &path[0..n], bytes)
}

// Gives the part folder the record's name.
fn rename_part<R: Env + Files>(rt: &R, session: SessionId, number: u32) -> i32 {
    let mut from = [0u8; PATH];
    let mut to = [0u8; PATH];
    let n = in_archive(rt, session, number, Place::Part, &mut from);
    let k = in_archive(rt, session, number, Place::Record, &mut to);
    system::rename(rt, &from[0..n], &to[0..k])
}

// Carries out a step of the filing of record `number`. Returns 0 if it went well, and otherwise the number of the error.
fn carry_out<R: Env + Files>(
    rt: &R,
    held: &mut Held<R::File>,
    step: Step,
    session: SessionId,
    number: u32,
    log: Log,
    headers: &[u8],
    blocks: &[u8],
    text: &[u8],
) -> i32 {
    match step {
        Step::MakePart => make_part(rt, session, number),
        Step::WriteHeaders => write_part(rt, session, number, Place::Headers, headers),
        Step::WriteBody => write_part(rt, session, number, Place::Body, blocks),
        Step::WriteNote => write_part(rt, session, number, Place::Note, text),
        Step::SyncPart => sync_place(rt, session, number, Place::Part),
        Step::SyncLog => log::sync(held, log),
        Step::Rename => rename_part(rt, session, number),
        Step::SyncSession => sync_place(rt, session, number, Place::Session),
        Step::Filed => 0,
    }
}

// ---- the plan

// Tells whether no step is left.
fn is_filed(step: Step) -> bool
    ensures { result ≡ is_filed step }
{
    match step {
        Step::MakePart => false,
        Step::WriteHeaders => false,
        Step::WriteBody => false,
        Step::WriteNote => false,
        Step::SyncPart => false,
        Step::SyncLog => false,
        Step::Rename => false,
        Step::SyncSession => false,
        Step::Filed => true,
    }
}

// Tells whether a step went well, by what it answered.
fn is_well(error: i32) -> bool
    ensures { result ≡ is_error error 0 }
{
    match error {
        0 => true,
        _ => false,
    }
}

// Carries out the steps of the plan, each only if the one before went well.
fn carry_all<R: Env + Files>(
    rt: &R,
    held: &mut Held<R::File>,
    has_body: bool,
    session: SessionId,
    number: u32,
    log: Log,
    headers: &[u8],
    blocks: &[u8],
    text: &[u8],
) -> Outcome
    ensures { Carried has_body result }
{
    let mut step = Step::MakePart;
    let mut answers = [0i32; STEPS];
    let mut count = 0;
    loop {
        if is_filed(step) {
            return Outcome {
                step,
                error: 0,
                full: false,
                count,
                answers,
            };
        }
        let error = carry_out(rt, held, step, session, number, log, headers, blocks, text);
        answers[count] = error;
        count += 1;
        if !is_well(error) {
            return Outcome {
                step,
                error,
                full: is_full(error),
                count,
                answers,
            };
        }
        step = next_step(step, has_body);
    }
}

// Returns the outcome of a filing of which no step is carried out, since what `step` needs is not there.
fn not_begun(step: Step, error: i32) -> Outcome
    ensures { result ≡ not_begun step error }
{
    Outcome {
        step,
        error,
        full: is_full(error),
        count: 0,
        answers: [0i32; STEPS],
    }
}

// Returns what became of a record that none was.
pub(crate) fn no_record() -> Tried {
    Tried {
        taken: false,
        outcome: not_begun(Step::MakePart, 0),
    }
}

// ---- a record

// A record that was handed over: how many bytes of the stores it has, the Target, its number, and when that was.
#[derive(Clone, Copy)]
pub(crate) struct Handed {
    pub kept: usize,
    pub body: Option<usize>,
    pub target: Target,
    pub number: u32,
    pub clock: u32,
}

// Tells whether a record has a body.
fn has_body(body: Option<usize>) -> bool
    ensures { result ≡ body_there body }
{
    match body {
        Some(_) => true,
        None => false,
    }
}

// Returns how many bytes a body has.
fn body_length(body: Option<usize>) -> usize {
    match body {
        Some(n) => n,
        None => 0,
    }
}

// Returns what is there of a record.
fn marks_of(r: Handed) -> RecordMarks {
    let body = r.body;
    let target = r.target;
    RecordMarks {
        number: r.number,
        has_body: has_body(body),
        has_target: is_named(target),
    }
}

// Returns how many bytes a Target has; the mark has none.
fn target_length(target: Target) -> usize {
    if is_named(target) { target.length } else { 0 }
}

// Puts what the log says of a record that is to be filed at the front of `payload`, and returns how long it is.
fn put_row(payload: &mut [u8], r: Handed, headers: &[u8], body: &[u8]) -> usize {
    let target = r.target;
    let bytes = octets(target.bytes);
    let row = file_row(
        marks_of(r),
        headers,
        body,
        front(&bytes, target_length(target)),
    );
    let n = put(payload, 0, &row);
    put(payload, n, front(&bytes, target_length(target)))
}

// Notes in the log that a record is to be filed.
fn note_filing<F: Write>(
    rt: &(impl Env + Clock),
    err: &impl Print,
    held: &mut Held<F>,
    s: Session,
    clock: u32,
    payload: &[u8],
    work: &mut [u8; WORK],
) -> Session {
    let log = s.log;
    let row = front(payload, ROW);
    let target = part(payload, ROW, payload.len());
    let noted = append_event(held, log, Event::Filing, clock, row, target, b"", work);
    with_log(rt, err, s, noted)
}

// Writes the note of a record whose frame is the log's last to the front of `text`.
fn put_note(
    text: &mut [u8],
    id: SessionId,
    log: Log,
    clock: u32,
    payload: &[u8],
    blocks: &[u8],
) -> Result<usize, WriteError> {
    let name = session_name(id.clock, id.high, id.low);
    let check = octets(log.check);
    let sum = digest(blocks);
    let place = LogPlace {
        clock,
        frame: wrapping_sub_u32(log.number, 1),
        bytes: log.length,
    };
    write_note(text, &name, place, payload, &check, &sum)
}

// Files a record whose frame stands in the log. If the log has failed, or blocks or note have no room in their store, no step is carried out.
fn file_steps<R: Env + Files>(
    rt: &R,
    held: &mut Held<R::File>,
    s: Session,
    r: Handed,
    payload: &[u8],
    headers: &[u8],
    body: &[u8],
    work: &mut [u8; WORK],
) -> Outcome
    ensures { Carried (body_there r.body) result }
{
    let log = s.log;
    let id = s.id;
    let content = r.body;
    if log.error != 0 {
        return not_begun(Step::SyncLog, log.error);
    }
    let Ok(n) = block::write(body, work) else {
        return not_begun(Step::WriteBody, EFBIG);
    };
    let mut text = [0u8; 1024];
    let Ok(k) = put_note(&mut text, id, log, r.clock, payload, front(work, n)) else {
        return not_begun(Step::WriteNote, EFBIG);
    };
    carry_all(
        rt,
        held,
        has_body(content),
        id,
        r.number,
        log,
        headers,
        front(work, n),
        front(&text, k),
    )
}

// Puts the name of a step.
fn put_step(out: &mut [u8], n: usize, step: Step) -> usize {
    let names = b"filed\nfolder\nheaders\nbody\nnote\npart\nlog\nrename\nsession\n";
    let k = match step {
        Step::MakePart => 1,
        Step::WriteHeaders => 2,
        Step::WriteBody => 3,
        Step::WriteNote => 4,
        Step::SyncPart => 5,
        Step::SyncLog => 6,
        Step::Rename => 7,
        Step::SyncSession => 8,
        Step::Filed => 0,
    };
    lines::output::put_line_at(out, n, names, k)
}

// Puts which step failed, and why.
pub(crate) fn put_failure(out: &mut [u8], n: usize, o: Outcome) -> usize {
    let step = o.step;
    let a = put_step(out, n, step);
    let b = put(out, a, b": ");
    tell::put_error(out, b, o.error)
}

// Returns what the code of the reply depends on.
pub(crate) fn filing_of(o: Outcome) -> Filing
    ensures { result ≡ filing_of o }
{
    let step = o.step;
    Filing {
        filed: is_filed(step),
        full: o.full,
    }
}

// Returns the session after a filing. A step that failed stands in the log, unless it is the log that failed.
fn after<F: Write>(
    rt: &(impl Env + Clock),
    err: &impl Print,
    held: &mut Held<F>,
    s: Session,
    o: Outcome,
    work: &mut [u8; WORK],
) -> Session {
    let step = o.step;
    match step {
        Step::Filed => s,
        Step::SyncLog => {
            let log = s.log;
            with_log(rt, err, s, log::failed(log, o.error))
        }
        _ => {
            let mut text = [0u8; 128];
            let n = put_failure(&mut text, 0, o);
            note(rt, err, held, s, Event::Failed, front(&text, n), b"", work)
        }
    }
}

// What became of a record: the session after it, and how its filing came out.
#[derive(Clone, Copy)]
pub(crate) struct Answered {
    pub session: Session,
    pub outcome: Outcome,
}

// Tells whether a record is filed at all: records are taken under its Target, and there is a name for its number.
fn is_named_record(is_taken: bool, number: u32) -> bool {
    if is_taken {
        return number <= MOST;
    }
    false
}

// Files a record that was handed over: notes it in the log, carries out the plan, and tells how it came out.
pub(crate) fn file<R: Env + Files + Clock>(
    rt: &R,
    err: &impl Print,
    held: &mut Held<R::File>,
    s: Session,
    is_taken: bool,
    kept: usize,
    content: Option<usize>,
    target: Target,
    headers: &[u8],
    body: &[u8],
    work: &mut [u8; WORK],
) -> Answered
    ensures { Carried (body_there content) result.outcome }
{
    let counted = with_record(s);
    if !is_named_record(is_taken, counted.records) {
        return Answered {
            session: counted,
            outcome: not_begun(Step::MakePart, 0),
        };
    }
    let r = Handed {
        kept,
        body: content,
        target,
        number: counted.records,
        clock: clock::now(rt),
    };
    let kept_bytes = front(headers, kept);
    let body_bytes = front(body, body_length(content));
    let mut payload = [0u8; 80];
    let n = put_row(&mut payload, r, kept_bytes, body_bytes);
    let noted = note_filing(rt, err, held, counted, r.clock, front(&payload, n), work);
    let o = file_steps(
        rt,
        held,
        noted,
        r,
        front(&payload, n),
        kept_bytes,
        body_bytes,
        work,
    );
    let id = noted.id;
    tell::filing(rt, err, id, r, o);
    let session = after(rt, err, held, noted, o, work);
    Answered {
        session,
        outcome: o,
    }
}
