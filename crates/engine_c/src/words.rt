// The state and the result of a call as numbers, and back: what a host outside Rattle keeps between calls. specs/Words says what the
// numbers mean. `store` leaves the numbers that `words_of` says, and reading them gives the result back.
ghost use Rattle.std.specs.Prelude.{◌≡◌, ◌%◌, ◌^◌};
ghost use Rattle.engine_c.specs.Words.{flag, opcode_of, gathered_of, id_of, challenge_of, outgoing_of, chunk_of, operation_of, operation_in};
ghost use Rattle.server.specs.Numbers.{await_of, await_number};
ghost use Rattle.engine_c.specs.Words.{settings_by, settings_in, peer_by, peer_in, target_of, engine_of, result_of, numbers, flag_number};
ghost use Rattle.engine_c.specs.Words.{opcode_numbers, gathered_numbers, sending_numbers, connecting_numbers, operation_numbers};
ghost use Rattle.engine_c.specs.Words.{settings_numbers, challenge_numbers, peer_numbers, target_numbers, found_numbers, put_numbers};
ghost use Rattle.engine_c.specs.Words.{credentials_numbers, request_numbers, outcome_numbers, words_of};
ghost use Rattle.engine_c.specs.Words.{flags_fit, settings_fit, is_waiting, judged_start};

use base::Span;
use connection::peer::Peer;
use digest::md5::Octets16;
use incoming::gather::Gathered;
use outgoing::object::{Chunk, Outgoing};
use packet::opcode::Opcode;
use server::{
    Await, CallResult, Engine, HostRequest, Operation, Outcome, Refusal, Settings, await_number,
    end_number, refusal_number,
};
use table::targets::Target;

// The version of the layout.
pub const VERSION: u64 = 2;

// A kind and the numbers that it holds.
#[derive(Clone, Copy)]
pub struct Numbers {
    pub kind: u64,
    pub a: u64,
    pub b: u64,
    pub c: u64,
    pub d: u64,
    pub e: u64,
    pub f: u64,
    pub g: u64,
    pub h: u64,
    pub i: u64,
    pub j: u64,
    pub k: u64,
}

// ---- single numbers

// Returns the number of a flag.
fn flag_number(b: bool) -> u64
    ensures { result ≡ flag_number b }
{
    if b {
        return 1;
    }
    0
}

// Tells whether the number `n` is that of a set flag.
fn is_set(n: u64) -> bool
    ensures { result ≡ flag n }
{
    n == 1
}

// Returns `n` as a number of the host's.
fn wide(n: usize) -> u64
    ensures { result ≡ n }
{
    n as u64
}

// Returns `n` as a number of the host's, whose low 8 bits give `n` back.
fn wide8(n: u8) -> u64
    ensures { (result ≡ n) × (n % 2 ^ 8 ≡ n) }
{
    n as u64
}

// Returns `n` as a number of the host's, whose low 16 bits give `n` back.
fn wide16(n: u16) -> u64
    ensures { (result ≡ n) × (n % 2 ^ 16 ≡ n) }
{
    n as u64
}

// Returns `n` as a number of the host's, whose low 32 bits give `n` back.
fn wide32(n: u32) -> u64
    ensures { (result ≡ n) × (n % 2 ^ 32 ≡ n) }
{
    n as u64
}

// Returns `n` as a length.
fn size(n: u64) -> usize
    ensures { result ≡ n }
{
    n as usize
}

// ---- parts of the state as numbers

// Returns a kind with up to three numbers.
fn few(kind: u64, a: u64, b: u64, c: u64) -> Numbers
    ensures { result ≡ numbers kind a b c }
{
    Numbers {
        kind,
        a,
        b,
        c,
        d: 0,
        e: 0,
        f: 0,
        g: 0,
        h: 0,
        i: 0,
        j: 0,
        k: 0,
    }
}

// Returns an opcode as a kind and what a user-defined one holds.
fn opcode_numbers(o: Opcode) -> Numbers
    ensures numbers { result ≡ opcode_numbers o }
    ensures back { opcode_of (opcode_numbers o).kind (opcode_numbers o).a ≡ o }
{
    match o {
        Opcode::Connect => few(0, 0, 0, 0),
        Opcode::Disconnect => few(1, 0, 0, 0),
        Opcode::Put => few(2, 0, 0, 0),
        Opcode::Get => few(3, 0, 0, 0),
        Opcode::SetPath => few(4, 0, 0, 0),
        Opcode::Action => few(5, 0, 0, 0),
        Opcode::Session => few(6, 0, 0, 0),
        Opcode::Abort => few(7, 0, 0, 0),
        Opcode::UserDefined(x) => few(8, wide8(x), 0, 0),
    }
}

// Returns a kind with what was gathered and three numbers more.
fn gathered_numbers(kind: u64, got: Gathered, f: u64, g: u64, h: u64) -> Numbers
    ensures { result ≡ gathered_numbers kind got f g h }
{
    Numbers {
        kind,
        a: wide(got.kept),
        b: wide(got.body),
        c: flag_number(got.came),
        d: flag_number(got.over),
        e: flag_number(got.full),
        f,
        g,
        h,
        i: 0,
        j: 0,
        k: 0,
    }
}

// Returns the numbers of an object that is being sent.
fn sending_numbers(o: Outgoing, c: Chunk, srm: bool, wait: bool) -> Numbers
    ensures numbers { result ≡ sending_numbers o c srm wait }
    ensures narrow { o.pending % 2 ^ 8 ≡ o.pending }
{
    Numbers {
        kind: 3,
        a: wide(o.total),
        b: wide(o.sent),
        c: flag_number(o.lead),
        d: flag_number(o.has_body),
        e: flag_number(o.has_pending),
        f: wide8(o.pending),
        g: wide(c.at),
        h: wide(c.got),
        i: wide(c.room),
        j: flag_number(srm),
        k: flag_number(wait),
    }
}

// Returns the numbers of a Connect that waits for credentials.
fn connecting_numbers(code: u8, front: Option<u32>, length: usize) -> Numbers
    ensures numbers { result ≡ connecting_numbers code front length }
    ensures back { operation_of (connecting_numbers code front length) ≡ Operation.Connecting code front length }
{
    let mut r = few(5, wide8(code), 0, 0);
    r.d = wide(length);
    match front {
        Some(x) => {
            r.b = 1;
            r.c = wide32(x);
            r
        }
        None => r,
    }
}

// Returns the numbers of the open operation.
fn operation_numbers(o: Operation) -> Numbers
    ensures numbers { result ≡ operation_numbers o }
    ensures back { operation_of (operation_numbers o) ≡ o }
{
    match o {
        Operation::Nothing => few(0, 0, 0, 0),
        Operation::Trailing => few(7, 0, 0, 0),
        Operation::Putting { gathered, srm } => gathered_numbers(
            1,
            gathered,
            flag_number(srm),
            0,
            0,
        ),
        Operation::Getting {
            gathered,
            srm,
            confirm_srm,
            wait,
        } => gathered_numbers(
            2,
            gathered,
            flag_number(srm),
            flag_number(confirm_srm),
            flag_number(wait),
        ),
        Operation::Sending {
            outgoing,
            chunk,
            srm,
            wait,
        } => sending_numbers(outgoing, chunk, srm, wait),
        Operation::Gathering { opcode, gathered } => {
            let n = opcode_numbers(opcode);
            gathered_numbers(4, gathered, n.kind, n.a, 0)
        }
        Operation::Connecting {
            code,
            front,
            length,
        } => connecting_numbers(code, front, length),
        Operation::Draining { code } => few(6, wide8(code), 0, 0),
    }
}

// Returns the numbers of the settings.
fn settings_numbers(s: Settings) -> Numbers
    ensures numbers { result ≡ settings_numbers s }
    ensures back { settings_by (settings_numbers s) ≡ s }
{
    Numbers {
        kind: wide32(s.max_object_size),
        a: wide16(s.max_packet_length),
        b: wide8(s.charset),
        c: flag_number(s.has_realm),
        d: flag_number(s.srm_supported),
        e: flag_number(s.authentication),
        f: flag_number(s.user_id_required),
        g: flag_number(s.read_only),
        h: flag_number(s.user_id_enforced),
        i: flag_number(s.refuse_trailing),
        j: 0,
        k: 0,
    }
}

// Returns the numbers of a challenge.
fn challenge_numbers(c: Option<Octets16>) -> Numbers
    ensures { result ≡ challenge_numbers c }
{
    match c {
        Some(n) => few(1, n.first, n.second, 0),
        None => few(0, 0, 0, 0),
    }
}

// Returns the numbers of the peer.
fn peer_numbers(p: Peer) -> Numbers
    ensures numbers { result ≡ peer_numbers p }
    ensures back { peer_by (peer_numbers p) ≡ p }
{
    let challenge = p.challenge;
    let n = challenge_numbers(challenge);
    Numbers {
        kind: wide(p.count),
        a: wide(p.nonces),
        b: p.window,
        c: wide32(p.next_connection_id),
        d: wide16(p.remote_max_packet_length),
        e: flag_number(p.srm_enabled),
        f: flag_number(p.authenticated),
        g: n.kind,
        h: n.a,
        i: n.b,
        j: 0,
        k: 0,
    }
}

// Returns the numbers of a Target.
fn target_numbers(t: Target) -> Numbers
    ensures { result ≡ target_numbers t }
{
    few(wide(t.length), t.bytes.first, t.bytes.second, 0)
}

// ---- what a call gave, as numbers

// Returns `kind` with a place in the packet store, or with none.
fn found_numbers(kind: u64, f: Option<Span>) -> Numbers
    ensures { result ≡ found_numbers kind f }
{
    match f {
        Some(part) => few(kind, 1, wide(part.start), wide(part.end)),
        None => few(kind, 0, 0, 0),
    }
}

// Returns the numbers of a Put that is handed over.
fn put_numbers(kept: usize, body: Option<usize>) -> Numbers
    ensures { result ≡ put_numbers kept body }
{
    match body {
        Some(n) => few(8, wide(kept), 1, wide(n)),
        None => few(8, wide(kept), 0, 0),
    }
}

// Returns the numbers of a request for credentials.
fn credentials_numbers(
    nonce: Octets16,
    user_id_required: bool,
    read_only: bool,
    realm: Option<Span>,
) -> Numbers
    ensures { result ≡ credentials_numbers nonce user_id_required read_only realm }
{
    let n = found_numbers(0, realm);
    Numbers {
        kind: 15,
        a: nonce.first,
        b: nonce.second,
        c: flag_number(user_id_required),
        d: flag_number(read_only),
        e: n.a,
        f: n.b,
        g: n.c,
        h: 0,
        i: 0,
        j: 0,
        k: 0,
    }
}

// Returns the numbers of a request to the host.
fn request_numbers(q: HostRequest) -> Numbers
    ensures { result ≡ request_numbers q }
{
    match q {
        HostRequest::Connect { length } => few(4, wide(length), 0, 0),
        HostRequest::Disconnect { length } => few(5, wide(length), 0, 0),
        HostRequest::SetPath {
            length,
            backup,
            no_create,
        } => few(6, wide(length), flag_number(backup), flag_number(no_create)),
        HostRequest::Abort { length } => few(7, wide(length), 0, 0),
        HostRequest::Put { kept, body } => put_numbers(kept, body),
        HostRequest::Get { kept } => few(9, wide(kept), 0, 0),
        HostRequest::Action { kept } => few(10, wide(kept), 0, 0),
        HostRequest::Session { kept } => few(11, wide(kept), 0, 0),
        HostRequest::UserDefined { opcode, kept } => few(12, wide(kept), wide8(opcode), 0),
        HostRequest::Password { user_id } => found_numbers(13, user_id),
        HostRequest::Nonce => few(14, 0, 0, 0),
        HostRequest::Credentials {
            nonce,
            user_id_required,
            read_only,
            realm,
        } => credentials_numbers(nonce, user_id_required, read_only, realm),
        HostRequest::Read { room } => few(16, wide(room), 0, 0),
    }
}

// Returns the numbers of an outcome.
fn outcome_numbers(o: Outcome) -> Numbers
    ensures { result ≡ outcome_numbers o }
{
    match o {
        Outcome::WantsBytes => few(0, 0, 0, 0),
        Outcome::Reply { length } => few(1, wide(length), 0, 0),
        Outcome::Request(q) => request_numbers(q),
        Outcome::End(end) => few(2, wide8(end_number(end)), 0, 0),
        Outcome::Refused(refusal) => few(3, wide8(refusal_number(refusal)), 0, 0),
    }
}

// Returns the number of what the engine waits for, as a number of the host's.
fn awaits_number(a: Await) -> u64
    ensures { result ≡ await_number a }
{
    await_number(a) as u64
}

// Leaves the result `r` in the numbers that the host keeps.
pub fn store(r: CallResult, words: &mut [u64; 64])
    ensures written { words.new ≡ words_of r }
    ensures read { result_of words.new ≡ r }
{
    let e = r.engine;
    let operation = e.operation;
    let awaits = e.awaits;
    let outcome = r.outcome;
    let s = settings_numbers(e.settings);
    let p = peer_numbers(e.peer);
    let o = operation_numbers(operation);
    let t = outcome_numbers(outcome);
    let a = awaits_number(awaits);
    let g = target_numbers(e.target);
    *words = [
        s.kind,
        s.a,
        s.b,
        s.c,
        s.d,
        s.e,
        s.f,
        s.g,
        s.h,
        s.i,
        0,
        0,
        p.kind,
        p.a,
        p.b,
        p.c,
        p.d,
        p.e,
        p.f,
        p.g,
        p.h,
        p.i,
        0,
        0,
        o.kind,
        o.a,
        o.b,
        o.c,
        o.d,
        o.e,
        o.f,
        o.g,
        o.h,
        o.i,
        o.j,
        o.k,
        g.kind,
        g.a,
        g.b,
        0,
        a,
        wide(e.begun),
        wide(e.length),
        wide(r.taken),
        t.kind,
        t.a,
        t.b,
        t.c,
        t.d,
        t.e,
        t.f,
        t.g,
        t.h,
        t.i,
        t.j,
        t.k,
        0,
        0,
        0,
        0,
        0,
        0,
        0,
        0,
    ];
}

// ---- and back

// Returns the opcode of a kind and a value.
// Stays a match on numbers: they are the C interface's.
fn opcode_of(n: u64, x: u64) -> Opcode
    ensures { result ≡ opcode_of n x }
{
    match n {
        0 => Opcode::Connect,
        1 => Opcode::Disconnect,
        2 => Opcode::Put,
        3 => Opcode::Get,
        4 => Opcode::SetPath,
        5 => Opcode::Action,
        6 => Opcode::Session,
        7 => Opcode::Abort,
        _ => Opcode::UserDefined((x % 256) as u8),
    }
}

// Returns what was gathered, from the numbers of an operation.
fn gathered_of(n: Numbers) -> Gathered
    ensures { result ≡ gathered_of n.a n.b n.c n.d n.e }
{
    Gathered {
        kept: size(n.a),
        body: size(n.b),
        came: is_set(n.c),
        over: is_set(n.d),
        full: is_set(n.e),
    }
}

// Returns the object that is being sent, from the numbers of an operation.
fn outgoing_of(n: Numbers) -> Outgoing
    ensures { result ≡ outgoing_of n.a n.b n.c n.d n.e n.f }
{
    Outgoing {
        total: size(n.a),
        sent: size(n.b),
        lead: is_set(n.c),
        has_body: is_set(n.d),
        has_pending: is_set(n.e),
        pending: (n.f % 256) as u8,
    }
}

// Returns the chunk that is being read, from the numbers of an operation.
fn chunk_of(n: Numbers) -> Chunk
    ensures { result ≡ chunk_of n.g n.h n.i }
{
    Chunk {
        at: size(n.g),
        got: size(n.h),
        room: size(n.i),
    }
}

// Returns an id, or that there is none.
fn id_of(n: u64, x: u64) -> Option<u32>
    ensures { result ≡ id_of n x }
{
    if n == 1 {
        return Some((x % 4294967296) as u32);
    }
    None
}

// Returns a challenge, or that there is none.
fn challenge_of(n: u64, first: u64, second: u64) -> Option<Octets16>
    ensures { result ≡ challenge_of n first second }
{
    if n == 1 {
        return Some(Octets16 { first, second });
    }
    None
}

// Returns the open operation.
fn operation_of(n: Numbers) -> Operation
    ensures { result ≡ operation_of n }
{
    let kind = n.kind;
    match kind {
        1 => Operation::Putting {
            gathered: gathered_of(n),
            srm: is_set(n.f),
        },
        2 => Operation::Getting {
            gathered: gathered_of(n),
            srm: is_set(n.f),
            confirm_srm: is_set(n.g),
            wait: is_set(n.h),
        },
        3 => Operation::Sending {
            outgoing: outgoing_of(n),
            chunk: chunk_of(n),
            srm: is_set(n.j),
            wait: is_set(n.k),
        },
        4 => Operation::Gathering {
            opcode: opcode_of(n.f, n.g),
            gathered: gathered_of(n),
        },
        5 => Operation::Connecting {
            code: (n.a % 256) as u8,
            front: id_of(n.b, n.c),
            length: size(n.d),
        },
        6 => Operation::Draining {
            code: (n.a % 256) as u8,
        },
        7 => Operation::Trailing,
        _ => Operation::Nothing,
    }
}

// Returns what the engine waits for.
// Stays a match on numbers: they are the C interface's.
fn await_of(n: u64) -> Await
    ensures { result ≡ await_of n }
{
    match n {
        0 => Await::Bytes,
        1 => Await::Taken,
        2 => Await::Last,
        3 => Await::Connect,
        4 => Await::Disconnect,
        5 => Await::Get,
        6 => Await::Reply,
        7 => Await::Acknowledgement,
        8 => Await::Password,
        9 => Await::Nonce,
        10 => Await::Credentials,
        11 => Await::Body,
        _ => Await::Nothing,
    }
}

// Returns the settings: the first ten numbers.
pub fn settings_of(w: &[u64; 64]) -> Settings
    ensures { result ≡ settings_in w.now }
{
    Settings {
        max_object_size: (w[0] % 4294967296) as u32,
        max_packet_length: (w[1] % 65536) as u16,
        charset: (w[2] % 256) as u8,
        has_realm: is_set(w[3]),
        srm_supported: is_set(w[4]),
        authentication: is_set(w[5]),
        user_id_required: is_set(w[6]),
        read_only: is_set(w[7]),
        user_id_enforced: is_set(w[8]),
        refuse_trailing: is_set(w[9]),
    }
}

// Tells whether seven numbers are flags: each is 0 or 1.
fn are_flags(a: u64, b: u64, c: u64, d: u64, e: u64, f: u64, g: u64) -> bool
    ensures { result ≡ flags_fit a b c d e f g }
{
    if a >= 2 {
        return false;
    }
    if b >= 2 {
        return false;
    }
    if c >= 2 {
        return false;
    }
    if d >= 2 {
        return false;
    }
    if e >= 2 {
        return false;
    }
    if f >= 2 {
        return false;
    }
    g < 2
}

// Tells whether the first eleven numbers are settings with the version of this layout.
pub fn is_settings(w: &[u64; 64]) -> bool
    ensures { result ≡ settings_fit w.now }
{
    if w[0] >= 4294967296 {
        return false;
    }
    if w[1] >= 65536 {
        return false;
    }
    if w[2] >= 256 {
        return false;
    }
    if !are_flags(w[3], w[4], w[5], w[6], w[7], w[8], w[9]) {
        return false;
    }
    w[10] == VERSION
}

// Tells whether an outcome is that of an accepted start.
fn is_waiting(o: Outcome) -> bool
    ensures { result ≡ is_waiting o }
{
    match o {
        Outcome::WantsBytes => true,
        Outcome::Reply { length: _ } => false,
        Outcome::Request(_) => false,
        Outcome::End(_) => false,
        Outcome::Refused(_) => false,
    }
}

// Returns what a start leaves if its numbers are no settings (`fit` is false): a refusal, unless its result `r` is one already.
pub fn admit(fit: bool, r: CallResult) -> CallResult
    ensures { result ≡ judged_start fit r }
{
    if fit {
        return r;
    }
    let outcome = r.outcome;
    if !is_waiting(outcome) {
        return r;
    }
    let e = r.engine;
    let settings = e.settings;
    let peer = e.peer;
    let operation = e.operation;
    let target = e.target;
    CallResult {
        engine: Engine {
            settings,
            peer,
            operation,
            awaits: Await::Nothing,
            begun: e.begun,
            length: e.length,
            target,
        },
        taken: 0,
        outcome: Outcome::Refused(Refusal::BadAnswer),
    }
}

// Returns the peer.
fn peer_of(w: &[u64; 64]) -> Peer
    ensures { result ≡ peer_in w.now }
{
    Peer {
        count: size(w[12]),
        nonces: size(w[13]),
        window: w[14],
        next_connection_id: (w[15] % 4294967296) as u32,
        remote_max_packet_length: (w[16] % 65536) as u16,
        srm_enabled: is_set(w[17]),
        authenticated: is_set(w[18]),
        challenge: challenge_of(w[19], w[20], w[21]),
    }
}

// Returns the numbers of the open operation.
fn operation_in(w: &[u64; 64]) -> Numbers
    ensures { result ≡ operation_in w.now }
{
    Numbers {
        kind: w[24],
        a: w[25],
        b: w[26],
        c: w[27],
        d: w[28],
        e: w[29],
        f: w[30],
        g: w[31],
        h: w[32],
        i: w[33],
        j: w[34],
        k: w[35],
    }
}

// Returns the Target of `length` bytes in two halves.
fn target_of(length: u64, first: u64, second: u64) -> Target
    ensures { result ≡ target_of length first second }
{
    Target {
        length: size(length),
        bytes: Octets16 { first, second },
    }
}

// Returns the state.
pub fn engine_of(w: &[u64; 64]) -> Engine
    ensures { result ≡ engine_of w.now }
{
    Engine {
        settings: settings_of(w),
        peer: peer_of(w),
        operation: operation_of(operation_in(w)),
        awaits: await_of(w[40]),
        begun: size(w[41]),
        length: size(w[42]),
        target: target_of(w[36], w[37], w[38]),
    }
}
