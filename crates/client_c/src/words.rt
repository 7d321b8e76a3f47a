// The client's state and the result of a call as numbers, and back: what a user outside Rattle keeps between calls. specs/Words says what the
// numbers mean. `store` leaves the numbers that `words_of` says, and reading them gives the result back.
ghost use Rattle.std.specs.Prelude.{◌≡◌, ◌%◌, ◌^◌};
ghost use Rattle.client_c.specs.Words.{flag, flag_number, four, numbers, settings_in, settings_fit, id_from, id_numbers};
ghost use Rattle.client_c.specs.Words.{request_kind, requesting_of, requesting_numbers, operation_of, operation_numbers, operation_in};
ghost use Rattle.client_c.specs.Words.{outgoing_of, chunk_of, await_of, client_of, part_numbers, outcome_numbers, is_ready, result_of, words_of};
ghost use Rattle.client_model.specs.Numbers.{await_number};

use client_model::{
    Await, CallResult, Client, Kind, Operation, Outcome, Settings, await_number, end_number,
    refusal_number,
};
use outgoing::object::{Chunk, Outgoing};

// The version of the layout.
pub const VERSION: u64 = 1;

// A kind and up to three numbers.
#[derive(Clone, Copy)]
pub struct Four {
    pub kind: u64,
    pub a: u64,
    pub b: u64,
    pub c: u64,
}

// A kind and the twelve numbers of an operation.
#[derive(Clone, Copy)]
pub struct Numbers {
    pub kind: u64,
    pub a: u64,
    pub b: u64,
    pub c: u64,
    pub d: u64,
    pub e: u64,
    pub f: u64,
    pub g: u64,
    pub h: u64,
    pub i: u64,
    pub j: u64,
    pub k: u64,
    pub l: u64,
}

// ---- single numbers

// Returns the number of a flag.
fn flag_number(b: bool) -> u64
    ensures { result ≡ flag_number b }
{
    if b {
        return 1;
    }
    0
}

// Tells whether the number `n` is that of a set flag.
fn is_set(n: u64) -> bool
    ensures { result ≡ flag n }
{
    n == 1
}

// Returns `n` as a number of the user's.
fn wide(n: usize) -> u64
    ensures { result ≡ n }
{
    n as u64
}

// Returns `n` as a number of the user's, whose low 8 bits give `n` back.
fn wide8(n: u8) -> u64
    ensures { (result ≡ n) × (n % 2 ^ 8 ≡ n) }
{
    n as u64
}

// Returns `n` as a number of the user's, whose low 16 bits give `n` back.
fn wide16(n: u16) -> u64
    ensures { (result ≡ n) × (n % 2 ^ 16 ≡ n) }
{
    n as u64
}

// Returns `n` as a number of the user's, whose low 32 bits give `n` back.
fn wide32(n: u32) -> u64
    ensures { (result ≡ n) × (n % 2 ^ 32 ≡ n) }
{
    n as u64
}

// Returns `n` as a length.
fn size(n: u64) -> usize
    ensures { result ≡ n }
{
    n as usize
}

// ---- parts of the result as numbers

// Returns a kind with up to three numbers.
fn four_of(kind: u64, a: u64, b: u64, c: u64) -> Four
    ensures { result ≡ four kind a b c }
{
    Four { kind, a, b, c }
}

// Returns a kind with up to three numbers, as an operation's numbers.
fn few_of(kind: u64, a: u64, b: u64, c: u64) -> Numbers
    ensures { result ≡ numbers kind a b c }
{
    Numbers {
        kind,
        a,
        b,
        c,
        d: 0,
        e: 0,
        f: 0,
        g: 0,
        h: 0,
        i: 0,
        j: 0,
        k: 0,
        l: 0,
    }
}

// Returns the numbers of a ConnectionID.
fn id_numbers(id: Option<u32>) -> Four
    ensures numbers { result ≡ id_numbers id }
    ensures back { id_from (id_numbers id).kind (id_numbers id).a ≡ id }
{
    match id {
        Some(x) => four_of(1, wide32(x), 0, 0),
        None => four_of(0, 0, 0, 0),
    }
}

// Returns the kind of a request that goes out.
fn request_kind(kind: Kind) -> u64
    ensures { result ≡ request_kind kind }
{
    match kind {
        Kind::Put => 3,
        Kind::Get => 4,
    }
}

// Returns the numbers of a request that goes out. Its three flags come as numbers.
fn requesting_numbers(kind: u64, o: Outgoing, c: Chunk, srm: u64, first: u64, last: u64) -> Numbers
    ensures numbers { result ≡ requesting_numbers kind o c srm first last }
    ensures narrow { o.pending % 2 ^ 8 ≡ o.pending }
{
    Numbers {
        kind,
        a: wide(o.total),
        b: wide(o.sent),
        c: flag_number(o.lead),
        d: flag_number(o.has_body),
        e: flag_number(o.has_pending),
        f: wide8(o.pending),
        g: wide(c.at),
        h: wide(c.got),
        i: wide(c.room),
        j: srm,
        k: first,
        l: last,
    }
}

// Returns the numbers of an operation.
fn operation_numbers(o: Operation) -> Numbers
    ensures numbers { result ≡ operation_numbers o }
    ensures back { operation_of (operation_numbers o) ≡ o }
{
    match o {
        Operation::Nothing => few_of(0, 0, 0, 0),
        Operation::Connecting => few_of(1, 0, 0, 0),
        Operation::Disconnecting => few_of(2, 0, 0, 0),
        Operation::Requesting {
            kind,
            outgoing,
            chunk,
            srm,
            first,
            last,
        } => requesting_numbers(
            request_kind(kind),
            outgoing,
            chunk,
            flag_number(srm),
            flag_number(first),
            flag_number(last),
        ),
        Operation::Receiving { srm, last, code } => few_of(
            5,
            flag_number(srm),
            flag_number(last),
            wide8(code),
        ),
        Operation::Aborting => few_of(6, 0, 0, 0),
    }
}

// Returns the numbers of a part.
fn part_numbers(kept: usize, body: Option<usize>) -> Four
    ensures { result ≡ part_numbers kept body }
{
    match body {
        Some(n) => four_of(6, wide(kept), 1, wide(n)),
        None => four_of(6, wide(kept), 0, 0),
    }
}

// Returns the numbers of an outcome.
fn outcome_numbers(o: Outcome) -> Four
    ensures { result ≡ outcome_numbers o }
{
    match o {
        Outcome::Ready => four_of(4, 0, 0, 0),
        Outcome::Send { length } => four_of(1, wide(length), 0, 0),
        Outcome::WantsBytes => four_of(0, 0, 0, 0),
        Outcome::Read { room } => four_of(5, wide(room), 0, 0),
        Outcome::Part { kept, body } => part_numbers(kept, body),
        Outcome::Done { code, length } => four_of(7, wide8(code), wide(length), 0),
        Outcome::Stopped { code, length } => four_of(8, wide8(code), wide(length), 0),
        Outcome::Aborted { code, length } => four_of(9, wide8(code), wide(length), 0),
        Outcome::End(end) => four_of(2, wide8(end_number(end)), 0, 0),
        Outcome::Refused(refusal) => four_of(3, wide8(refusal_number(refusal)), 0, 0),
    }
}

// Tells whether an outcome is that of an accepted start.
pub fn is_ready(o: Outcome) -> bool
    ensures { result ≡ is_ready o }
{
    let n = outcome_numbers(o);
    n.kind == 4
}

// Leaves the result `r` in the numbers that the user keeps.
pub fn store(r: CallResult, words: &mut [u64; 32])
    ensures written { words.new ≡ words_of r }
    ensures read { result_of words.new ≡ r }
{
    let client = r.client;
    let id = client.connection_id;
    let operation = client.operation;
    let awaits = client.awaits;
    let outcome = r.outcome;
    let i = id_numbers(id);
    let o = operation_numbers(operation);
    let t = outcome_numbers(outcome);
    *words = [
        wide16(client.settings.max_packet_length),
        flag_number(client.settings.srm_wanted),
        0,
        0,
        wide16(client.remote_max_packet_length),
        i.kind,
        i.a,
        o.kind,
        o.a,
        o.b,
        o.c,
        o.d,
        o.e,
        o.f,
        o.g,
        o.h,
        o.i,
        o.j,
        o.k,
        o.l,
        wide8(await_number(awaits)),
        flag_number(client.aborting),
        wide(client.begun),
        wide(client.length),
        wide(r.taken),
        t.kind,
        t.a,
        t.b,
        t.c,
        0,
        0,
        0,
    ];
}

// ---- and back

// Returns the ConnectionID `x` if `n` is 1, or that there is none.
fn id_of(n: u64, x: u64) -> Option<u32>
    ensures { result ≡ id_from n x }
{
    if n == 1 {
        return Some((x % 4294967296) as u32);
    }
    None
}

// Returns a request that goes out, from the numbers of an operation.
fn requesting_of(kind: Kind, n: Numbers) -> Operation
    ensures { result ≡ requesting_of kind n }
{
    Operation::Requesting {
        kind,
        outgoing: Outgoing {
            total: size(n.a),
            sent: size(n.b),
            lead: is_set(n.c),
            has_body: is_set(n.d),
            has_pending: is_set(n.e),
            pending: (n.f % 256) as u8,
        },
        chunk: Chunk {
            at: size(n.g),
            got: size(n.h),
            room: size(n.i),
        },
        srm: is_set(n.j),
        first: is_set(n.k),
        last: is_set(n.l),
    }
}

// Returns the open operation.
fn operation_of(n: Numbers) -> Operation
    ensures { result ≡ operation_of n }
{
    let kind = n.kind;
    match kind {
        1 => Operation::Connecting,
        2 => Operation::Disconnecting,
        3 => requesting_of(Kind::Put, n),
        4 => requesting_of(Kind::Get, n),
        5 => Operation::Receiving {
            srm: is_set(n.a),
            last: is_set(n.b),
            code: (n.c % 256) as u8,
        },
        6 => Operation::Aborting,
        _ => Operation::Nothing,
    }
}

// Returns what the client waits for.
// Stays a match on numbers: they are the C interface's.
fn await_of(n: u64) -> Await
    ensures { result ≡ await_of n }
{
    match n {
        0 => Await::Bytes,
        1 => Await::Call,
        2 => Await::Sent,
        3 => Await::Body,
        4 => Await::Taken,
        _ => Await::Nothing,
    }
}

// Returns the settings: the first two numbers.
pub fn settings_of(w: &[u64; 32]) -> Settings
    ensures { result ≡ settings_in w.now }
{
    Settings {
        max_packet_length: (w[0] % 65536) as u16,
        srm_wanted: is_set(w[1]),
    }
}

// Tells whether the first three numbers are settings with the version of this layout.
pub fn is_settings(w: &[u64; 32]) -> bool
    ensures { result ≡ settings_fit w.now }
{
    if w[0] >= 65536 {
        return false;
    }
    if w[1] >= 2 {
        return false;
    }
    w[2] == VERSION
}

// Returns the numbers of the open operation.
fn operation_in(w: &[u64; 32]) -> Numbers
    ensures { result ≡ operation_in w.now }
{
    Numbers {
        kind: w[7],
        a: w[8],
        b: w[9],
        c: w[10],
        d: w[11],
        e: w[12],
        f: w[13],
        g: w[14],
        h: w[15],
        i: w[16],
        j: w[17],
        k: w[18],
        l: w[19],
    }
}

// Returns the state.
pub fn client_of(w: &[u64; 32]) -> Client
    ensures { result ≡ client_of w.now }
{
    Client {
        settings: settings_of(w),
        remote_max_packet_length: (w[4] % 65536) as u16,
        connection_id: id_of(w[5], w[6]),
        operation: operation_of(operation_in(w)),
        awaits: await_of(w[20]),
        aborting: is_set(w[21]),
        begun: size(w[22]),
        length: size(w[23]),
    }
}
