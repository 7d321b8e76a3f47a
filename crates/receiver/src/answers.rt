// What a receiver decides on a request of the engine's, with the system's help.
ghost use Rattle.receiver.specs.Filing.{DecidesPut, DecidesOn};

use crate::checks::Try;
use crate::conf::{Said, is_taken, put_realm};
use crate::log::WORK;
use crate::path::{PATH, in_folder, part};
use crate::record::{Tried, filing_of, no_record};
use crate::rules::Opened;
use crate::session::Session;
use crate::system::{Held, Text, read_some, read_whole};
use crate::{checks, record, rules, tell};
use base::Span;
use digest::md5::octets16_of;
use files::path::front;
use filing::paths::SessionId;
use filing::users::{first_user, password_for};
use lines::output::put;
use reception::answer::{Answer, Decision, Secret};
use reception::call::BODY;
use reception::decide::{after_draw, after_filing, plain_answer};
use server::HostRequest;
use std::env::Env;
use std::fs::Files;
use std::io::Read;
use std::random::RandomSource;
use std::time::Clock;
use table::targets::Target;

// What was decided. The bytes of the work store from `from` to `to` go with the call, and with its note. The session is that after it, `check` the
// check of a password that is being made, and `tried` what became of the record of a Put.
#[derive(Clone, Copy)]
pub(crate) struct Decided {
    pub decision: Decision,
    pub from: usize,
    pub to: usize,
    pub check: Try,
    pub session: Session,
    pub tried: Tried,
}

// Returns a decision to make a call, with the bytes of the work store from `from` to `to`.
fn make(answer: Answer, from: usize, to: usize, session: Session) -> Decided {
    Decided {
        decision: Decision::Make(answer),
        from,
        to,
        check: checks::no_check(),
        session,
        tried: no_record(),
    }
}

// ---- a Get

// Decides on a Get: its rule file is opened.
fn get<R: Env + Files + Clock>(
    rt: &R,
    err: &impl Print,
    held: &mut Held<R::File>,
    s: Session,
    target: Target,
    headers: &[u8],
    work: &mut [u8; WORK],
) -> Decided {
    held.rule = None;
    let found = rules::find_rule(rt, target, headers, work);
    let from = found.below;
    let to = found.length;
    let opened = rules::open_rule(rt, front(work, to));
    let id = s.id;
    match opened {
        Opened::File { file, size } => {
            tell::given(rt, err, id, part(work, from, to), size);
            held.rule = Some(file);
            make(Answer::Object(size), from, to, s)
        }
        Opened::Code(code) => {
            tell::not_given(rt, err, id, part(work, from, to), code);
            make(Answer::Reply(code), 0, 0, s)
        }
    }
}

// Decides on a Read: the next bytes of the rule file.
fn read<F: Read + Drop>(
    rt: &(impl Env + Clock),
    err: &impl Print,
    held: &mut Held<F>,
    s: Session,
    room: usize,
    work: &mut [u8; WORK],
) -> Decided {
    match read_some(&mut held.rule, room, work) {
        Ok(n) => make(Answer::Body, 0, n, s),
        Err(_) => {
            let id = s.id;
            tell::unread(rt, err, id);
            held.rule = None;
            make(Answer::BodyFailed, 0, 0, s)
        }
    }
}

// ---- passwords

// Reads a file of the receiver's folder into the store, and returns how many bytes it has. One that cannot be read is told, and has none.
fn read_file<R: Env + Files + Clock>(
    rt: &R,
    err: &impl Print,
    id: SessionId,
    name: &[u8],
    work: &mut [u8; WORK],
) -> usize {
    let mut path = [0u8; PATH];
    let n = in_folder(rt, name, &mut path);
    match read_whole(rt, &path[0..n], work) {
        Text::Bytes(k) => k,
        Text::Failed(error) => {
            tell::unreadable(rt, err, id, name, error);
            0
        }
    }
}

// Returns what is known of a password.
fn secret_of(found: Option<Span>) -> Secret {
    match found {
        Some(_) => Secret::Known,
        None => Secret::Unknown,
    }
}

// What no place names: no bytes, at the front.
const NO_PART: Span = Span { start: 0, end: 0 };

// Decides on a request for a password: whether it may be checked, by the letters of all connections, and then what the user's password is.
fn password<R: Env + Files + Clock>(
    rt: &R,
    err: &impl Print,
    held: &mut Held<R::File>,
    s: Session,
    user: &[u8],
    work: &mut [u8; WORK],
) -> Decided {
    let check = checks::begin(rt, held);
    let id = s.id;
    if !check.allowed {
        return Decided {
            decision: Decision::Make(Answer::Password(Secret::Stopped)),
            from: 0,
            to: 0,
            check,
            session: s,
            tried: no_record(),
        };
    }
    let n = read_file(rt, err, id, b"users", work);
    let found = password_for(front(work, n), user);
    let place = found.unwrap_or(NO_PART);
    Decided {
        decision: Decision::Make(Answer::Password(secret_of(found))),
        from: place.start,
        to: place.end,
        check,
        session: s,
        tried: no_record(),
    }
}

// Decides on a request for a nonce: sixteen bytes of the kernel's. The realm stands at the front of the work store.
fn nonce(rt: &impl RandomSource, s: Session, said: Said, work: &mut [u8; WORK]) -> Decided {
    let mut bytes = [0u8; 16];
    let is_drawn = rt.fill_bytes(&mut bytes).is_ok();
    let n = put_realm(said, work);
    Decided {
        decision: after_draw(is_drawn, octets16_of(bytes)),
        from: 0,
        to: n,
        check: checks::no_check(),
        session: s,
        tried: no_record(),
    }
}

// Where the line of `own` has its user id, which is its first `user` bytes, and its password.
#[derive(Clone, Copy)]
struct OwnLine {
    user: usize,
    password: Option<Span>,
}

// Finds user id and password in the text of `own`.
fn own_line(text: &[u8]) -> OwnLine {
    let user = first_user(text);
    OwnLine {
        user: user.len(),
        password: password_for(text, user),
    }
}

// Decides on a request for credentials: the line of `own`, user id, tab and password, of which the tab is passed over. Without it there are none.
fn credentials<R: Env + Files + Clock>(
    rt: &R,
    err: &impl Print,
    s: Session,
    work: &mut [u8; WORK],
) -> Decided {
    let id = s.id;
    let n = read_file(rt, err, id, b"own", work);
    let own = own_line(front(work, n));
    let found = own.password;
    match found {
        Some(password) => join_own(s, own.user, password, work),
        None => make(Answer::NoCredentials, 0, 0, s),
    }
}

// Puts a user id of `k` bytes and the password, which stand in the work store, one behind the other at its front.
fn join_own(s: Session, k: usize, password: Span, work: &mut [u8; WORK]) -> Decided {
    let mut own = [0u8; 512];
    let a = put(&mut own, 0, part(work, 0, k));
    let n = put(&mut own, a, part(work, password.start, password.end));
    let to = put(work, 0, front(&own, n));
    make(Answer::Credentials(a), 0, to, s)
}

// ---- requests

// Decides on a Put: its record is filed if records are taken under its Target.
fn put_record<R: Env + Files + Clock>(
    rt: &R,
    err: &impl Print,
    held: &mut Held<R::File>,
    s: Session,
    said: Said,
    kept: usize,
    content: Option<usize>,
    target: Target,
    headers: &[u8; 65535],
    body: &[u8; BODY],
    work: &mut [u8; WORK],
) -> Decided
    ensures { DecidesPut content result.tried result.decision }
{
    let is_taken = is_taken(said, target);
    let done = record::file(
        rt, err, held, s, is_taken, kept, content, target, headers, body, work,
    );
    let session = done.session;
    let outcome = done.outcome;
    let answer = after_filing(is_taken, filing_of(outcome));
    Decided {
        decision: Decision::Make(answer),
        from: 0,
        to: 0,
        check: checks::no_check(),
        session,
        tried: Tried {
            taken: is_taken,
            outcome,
        },
    }
}

// Decides on a request of the engine's. Any request but a Put and a Read ends the rule file that is being sent. SetPath is granted and does
// nothing: clients send it first, and there is one folder for a Target.
pub(crate) fn decide<R: Env + Files + Clock + RandomSource>(
    rt: &R,
    err: &impl Print,
    held: &mut Held<R::File>,
    s: Session,
    request: HostRequest,
    target: Target,
    said: Said,
    packet: &[u8; 65535],
    headers: &[u8; 65535],
    body: &[u8; BODY],
    work: &mut [u8; WORK],
) -> Decided
    ensures { DecidesOn request result.tried result.decision }
{
    match request {
        HostRequest::Put {
            kept,
            body: content,
        } => put_record(
            rt, err, held, s, said, kept, content, target, headers, body, work,
        ),
        HostRequest::Get { kept } => get(rt, err, held, s, target, front(headers, kept), work),
        HostRequest::Read { room } => read(rt, err, held, s, room, work),
        HostRequest::Password { user_id: _ } => password(
            rt,
            err,
            held,
            s,
            user_of(request, packet),
            work,
        ),
        HostRequest::Nonce => nonce(rt, s, said, work),
        HostRequest::Credentials {
            nonce: _,
            user_id_required: _,
            read_only: _,
            realm: _,
        } => credentials(rt, err, s, work),
        _ => {
            held.rule = None;
            make(plain_answer(request), 0, 0, s)
        }
    }
}

// Returns where the user id of a request for a password stands in the packet.
fn user_id_in(request: HostRequest) -> Option<Span> {
    match request {
        HostRequest::Password { user_id } => user_id,
        _ => None,
    }
}

// Returns the user id of a request for a password, or none.
pub(crate) fn user_of(request: HostRequest, packet: &[u8; 65535]) -> &[u8] {
    let user_id = user_id_in(request).unwrap_or(NO_PART);
    part(packet, user_id.start, user_id.end)
}
