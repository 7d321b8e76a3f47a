// The stores, and the calls on the engine that are lent them.
use crate::command::{BODY, Call, Lent, STORE, TABLES};
use engine::calls;
use lines::store::{front_mut, place};
use server::{Await, CallResult, Engine, default_settings};

// How many ids of connections are looked at, so that more than 64 reach the engine.
const IDS: usize = 128;

#[derive(Drop)]
pub struct Stores {
    pub tables: [u64; TABLES],
    pub packet: [u8; STORE],
    pub headers: [u8; STORE],
    pub body: [u8; BODY],
    pub reply: [u8; STORE],
}

impl Stores {
    pub(crate) fn new() -> Stores {
        Stores {
            tables: [0u64; TABLES],
            packet: [0u8; STORE],
            headers: [0u8; STORE],
            body: [0u8; BODY],
            reply: [0u8; STORE],
        }
    }

    // Fills the stores with zeros.
    pub(crate) fn clear(&mut self) {
        self.tables.fill(0);
        self.packet.fill(0);
        self.headers.fill(0);
        self.body.fill(0);
        self.reply.fill(0);
    }

    // Starts an engine as the original does, for a transcript that begins with no start.
    pub(crate) fn first_start(&mut self) -> Engine {
        calls::start(
            default_settings(BODY as u32),
            b"",
            &self.tables,
            &mut self.packet,
            &mut self.headers,
            &mut self.body,
            &mut self.reply,
        )
        .engine
    }

    // Makes a call with the stores as far as they are lent. `input` is what is offered of the peer's bytes.
    pub(crate) fn call(
        &mut self,
        e: Engine,
        call: Call<'_>,
        input: &[u8],
        realm: &[u8],
        lent: Lent,
    ) -> CallResult {
        let tables = front_mut(&mut self.tables, lent.tables);
        let packet = front_mut(&mut self.packet, lent.packet);
        let headers = front_mut(&mut self.headers, lent.headers);
        let body = front_mut(&mut self.body, lent.body);
        let reply = front_mut(&mut self.reply, lent.reply);
        match call {
            Call::Start(o) => {
                let mut took = calls::start(
                    o.settings, realm, tables, packet, headers, body, reply,
                );
                // No host can set the counter; the wrap behind the last number is compared by it.
                took.engine.peer.next_connection_id = o.counter;
                took
            }
            Call::Bytes => offer(e, input, tables, packet, headers, body, reply),
            Call::EndOfStream => calls::stream_ended(e, packet, headers, body, reply),
            Call::Taken => calls::reply_taken(e, packet, headers, body, reply),
            Call::Acknowledge => calls::abort_acknowledged(e, packet, headers, body, reply),
            Call::Nonce(nonce) => {
                calls::nonce_given(e, nonce, realm, tables, packet, headers, body, reply)
            }
            Call::Reply {
                code,
                headers: given,
            } => calls::reply_given(e, code, given, tables, packet, headers, body, reply),
            Call::Object {
                headers: given,
                has_body,
            } => calls::object_given(e, given, has_body, packet, headers, body, reply),
            Call::Body(bytes) => calls::body_given(e, bytes, packet, headers, body, reply),
            Call::BodyFailed => calls::body_failed(e, packet, headers, body, reply),
            Call::Password(password) => calls::password_given(
                e,
                password.is_some(),
                password.unwrap_or(b""),
                packet,
                headers,
                body,
                reply,
            ),
            Call::Credentials(None) => calls::credentials_given(
                e, false, false, b"", b"", packet, headers, body, reply,
            ),
            Call::Credentials(Some(c)) => calls::credentials_given(
                e,
                true,
                c.user.is_some(),
                c.user.unwrap_or(b""),
                c.password,
                packet,
                headers,
                body,
                reply,
            ),
            Call::Close(ids) => close(e, ids, tables),
        }
    }
}

// Returns an engine that has not started: it has no stores yet.
pub(crate) fn before_start() -> Engine {
    calls::start(
        default_settings(BODY as u32),
        b"",
        &[],
        &mut [],
        &mut [],
        &mut [],
        &mut [],
    )
    .engine
}

// Closes the connections whose ids stand in `bytes`, four bytes each.
fn close(e: Engine, bytes: &[u8], tables: &mut [u64]) -> CallResult {
    let mut ids = [0u32; IDS];
    let (words, _) = bytes.as_chunks::<4>();
    let n = words.len().min(IDS);
    for (id, word) in ids.iter_mut().zip(words) {
        *id = u32::from_be_bytes(*word);
    }
    calls::connections_closed(e, &ids[..n], tables)
}

// Whether a lent store is too short by its length, so that the engine refuses bytes and leaves all stores as they are.
fn is_short(
    e: Engine,
    tables: &[u64],
    packet: &[u8],
    headers: &[u8],
    body: &[u8],
    reply: &[u8],
) -> bool {
    tables.len() < TABLES
        || packet.len().min(headers.len()).min(reply.len()) < 65535
        || body.len() < e.settings.max_object_size as usize
}

// Offers a piece of the client's bytes. Half of them, if their number is odd, are put into the packet store first, as by a host that reads
// straight into it, so that sessions try both ways. If no bytes are awaited, the packet store holds the last packet, which an answer may
// read again.
fn offer(
    e: Engine,
    input: &[u8],
    tables: &[u64],
    packet: &mut [u8],
    headers: &mut [u8],
    body: &mut [u8],
    reply: &mut [u8],
) -> CallResult {
    let is_half = matches!(e.awaits, Await::Bytes) && input.len() % 2 == 1;
    let n = if is_half && !is_short(e, tables, packet, headers, body, reply) {
        place(packet, e.begun, &input[..input.len() / 2])
    } else {
        0
    };
    calls::bytes_offered(e, n, &input[n..], tables, packet, headers, body, reply)
}
