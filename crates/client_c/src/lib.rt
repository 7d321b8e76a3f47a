// The client for Rust and C. The user keeps the state as 32 numbers and lends them (`words`; specs/Words says what they mean). Each call reads
// the state there, does what the client's call of that name does with the stores that it is lent, and leaves there the state, how many bytes
// were taken, and the outcome, and nothing else: the numbers afterwards are those of the result, all 32. Whatever the numbers are, they are
// some state, so no call requires anything. A start refuses numbers that are no settings.
#![tactic(auto)]

ghost use Rattle.std.specs.Prelude.{◌≡◌};
ghost use Rattle.text.specs.Unicode.{Octets};
ghost use Rattle.client_model.specs.Step.{stepped, stores};
ghost use Rattle.client_model.specs.Calls.{connect_step, disconnect_step, put_step, get_step, request_sent_step, body_given_step, bytes_offered_step, stream_ended_step, part_taken_step, abort_step};
ghost use Rattle.client_c.specs.Words.{version, client_of, result_of, words_of, start_on, judged_start};

use crate::words::{VERSION, client_of, is_ready, is_settings, settings_of, store};
use client_model::{Await, CallResult, Client, Operation, Outcome, Refusal, Settings};
use packet::limits::MIN_PACKET;

pub mod words;

// Returns the version of the layout of `words`, which a user writes among the settings.
#[unsafe(no_mangle)]
pub extern "C" fn obex_client_version() -> u64
    ensures { result ≡ version }
{
    VERSION
}

// Returns what a start with `settings` leaves if its numbers are no settings (`fit` is false): a refusal, unless `r` is one already.
fn admit(fit: bool, settings: Settings, r: CallResult) -> CallResult
    ensures { result ≡ judged_start fit settings r }
{
    if fit {
        return r;
    }
    let outcome = r.outcome;
    if !is_ready(outcome) {
        return r;
    }
    CallResult {
        client: Client {
            settings,
            remote_max_packet_length: MIN_PACKET,
            connection_id: None,
            operation: Operation::Nothing,
            awaits: Await::Nothing,
            aborting: false,
            begun: 0,
            length: 0,
        },
        taken: 0,
        outcome: Outcome::Refused(Refusal::BadHeaders),
    }
}

// Starts a client with the settings in the first numbers: the longest packet that it takes, whether it asks for Single Response Mode (SRM), and
// the version of the layout.
#[unsafe(no_mangle)]
pub extern "C" fn obex_client_start(
    words: &mut [u64; 32],
    packet: &mut [u8],
    headers: &mut [u8],
    body: &mut [u8],
    request: &mut [u8],
)
    ensures step { stepped (result_of words.new)
        (stores packet.new headers.new body.new request.new)
        ≡ start_on words.old (stores packet.old headers.old body.old request.old) }
    ensures numbers { words.new ≡ words_of (result_of words.new) }
{
    let fit = is_settings(words);
    let settings = settings_of(words);
    let r = client::calls::start(settings, packet, headers, body, request);
    store(admit(fit, settings, r), words);
}

// Connects to the server, with header bytes in canonical form.
// Stays beside those that follow: the C interface names each of the calls.
#[unsafe(no_mangle)]
pub extern "C" fn obex_client_connect(
    words: &mut [u64; 32],
    header_bytes: &[u8],
    packet: &mut [u8],
    headers: &mut [u8],
    body: &mut [u8],
    request: &mut [u8],
)
    ensures step { stepped (result_of words.new)
        (stores packet.new headers.new body.new request.new)
        ≡ connect_step (client_of words.old) header_bytes.now
        (stores packet.old headers.old body.old request.old) }
    ensures numbers { words.new ≡ words_of (result_of words.new) }
{
    let r = client::calls::connect(
        client_of(words),
        header_bytes,
        packet,
        headers,
        body,
        request,
    );
    store(r, words);
}

// Disconnects from the server, with header bytes in canonical form behind the ConnectionID.
#[unsafe(no_mangle)]
pub extern "C" fn obex_client_disconnect(
    words: &mut [u64; 32],
    header_bytes: &[u8],
    packet: &mut [u8],
    headers: &mut [u8],
    body: &mut [u8],
    request: &mut [u8],
)
    ensures step { stepped (result_of words.new)
        (stores packet.new headers.new body.new request.new)
        ≡ disconnect_step (client_of words.old) header_bytes.now
        (stores packet.old headers.old body.old request.old) }
    ensures numbers { words.new ≡ words_of (result_of words.new) }
{
    let r = client::calls::disconnect(
        client_of(words),
        header_bytes,
        packet,
        headers,
        body,
        request,
    );
    store(r, words);
}

// Puts an object: its header bytes, in canonical form, and whether it has a body.
#[unsafe(no_mangle)]
pub extern "C" fn obex_client_put(
    words: &mut [u64; 32],
    header_bytes: &[u8],
    has_body: bool,
    packet: &mut [u8],
    headers: &mut [u8],
    body: &mut [u8],
    request: &mut [u8],
)
    ensures step { stepped (result_of words.new)
        (stores packet.new headers.new body.new request.new)
        ≡ put_step (client_of words.old) header_bytes.now has_body
        (stores packet.old headers.old body.old request.old) }
    ensures numbers { words.new ≡ words_of (result_of words.new) }
{
    let r = client::calls::put(
        client_of(words),
        header_bytes,
        has_body,
        packet,
        headers,
        body,
        request,
    );
    store(r, words);
}

// Gets an object by header bytes in canonical form.
#[unsafe(no_mangle)]
pub extern "C" fn obex_client_get(
    words: &mut [u64; 32],
    header_bytes: &[u8],
    packet: &mut [u8],
    headers: &mut [u8],
    body: &mut [u8],
    request: &mut [u8],
)
    ensures step { stepped (result_of words.new)
        (stores packet.new headers.new body.new request.new)
        ≡ get_step (client_of words.old) header_bytes.now
        (stores packet.old headers.old body.old request.old) }
    ensures numbers { words.new ≡ words_of (result_of words.new) }
{
    let r = client::calls::get(
        client_of(words),
        header_bytes,
        packet,
        headers,
        body,
        request,
    );
    store(r, words);
}

// Tells the client that the user has sent the packet, all of it.
#[unsafe(no_mangle)]
pub extern "C" fn obex_client_request_sent(
    words: &mut [u64; 32],
    packet: &mut [u8],
    headers: &mut [u8],
    body: &mut [u8],
    request: &mut [u8],
)
    ensures step { stepped (result_of words.new)
        (stores packet.new headers.new body.new request.new)
        ≡ request_sent_step (client_of words.old)
        (stores packet.old headers.old body.old request.old) }
    ensures numbers { words.new ≡ words_of (result_of words.new) }
{
    let r = client::calls::request_sent(client_of(words), packet, headers, body, request);
    store(r, words);
}

// Gives bytes of the body that is put: at most as many as the client asked for, and none at the body's end.
#[unsafe(no_mangle)]
pub extern "C" fn obex_client_body_given(
    words: &mut [u64; 32],
    bytes: &[u8],
    packet: &mut [u8],
    headers: &mut [u8],
    body: &mut [u8],
    request: &mut [u8],
)
    ensures step { stepped (result_of words.new)
        (stores packet.new headers.new body.new request.new)
        ≡ body_given_step (client_of words.old) bytes.now
        (stores packet.old headers.old body.old request.old) }
    ensures numbers { words.new ≡ words_of (result_of words.new) }
{
    let r = client::calls::body_given(client_of(words), bytes, packet, headers, body, request);
    store(r, words);
}

// Offers the client bytes from the server. The client takes them up to the end of a response and never past it.
#[unsafe(no_mangle)]
pub extern "C" fn obex_client_bytes_offered(
    words: &mut [u64; 32],
    input: &[u8],
    packet: &mut [u8],
    headers: &mut [u8],
    body: &mut [u8],
    request: &mut [u8],
)
    ensures step { stepped (result_of words.new)
        (stores packet.new headers.new body.new request.new)
        ≡ bytes_offered_step (client_of words.old) input.now
        (stores packet.old headers.old body.old request.old) }
    ensures numbers { words.new ≡ words_of (result_of words.new) }
    ensures octets { Octets input.now }
{
    let r = client::calls::bytes_offered(
        client_of(words),
        0,
        input,
        packet,
        headers,
        body,
        request,
    );
    store(r, words);
}

// Tells the client that the server's stream has ended.
#[unsafe(no_mangle)]
pub extern "C" fn obex_client_stream_ended(
    words: &mut [u64; 32],
    packet: &mut [u8],
    headers: &mut [u8],
    body: &mut [u8],
    request: &mut [u8],
)
    ensures step { stepped (result_of words.new)
        (stores packet.new headers.new body.new request.new)
        ≡ stream_ended_step (client_of words.old)
        (stores packet.old headers.old body.old request.old) }
    ensures numbers { words.new ≡ words_of (result_of words.new) }
{
    let r = client::calls::stream_ended(client_of(words), packet, headers, body, request);
    store(r, words);
}

// Tells the client that the user has taken a part of an object.
#[unsafe(no_mangle)]
pub extern "C" fn obex_client_part_taken(
    words: &mut [u64; 32],
    packet: &mut [u8],
    headers: &mut [u8],
    body: &mut [u8],
    request: &mut [u8],
)
    ensures step { stepped (result_of words.new)
        (stores packet.new headers.new body.new request.new)
        ≡ part_taken_step (client_of words.old)
        (stores packet.old headers.old body.old request.old) }
    ensures numbers { words.new ≡ words_of (result_of words.new) }
{
    let r = client::calls::part_taken(client_of(words), packet, headers, body, request);
    store(r, words);
}

// Aborts the operation.
#[unsafe(no_mangle)]
pub extern "C" fn obex_client_abort(
    words: &mut [u64; 32],
    packet: &mut [u8],
    headers: &mut [u8],
    body: &mut [u8],
    request: &mut [u8],
)
    ensures step { stepped (result_of words.new)
        (stores packet.new headers.new body.new request.new)
        ≡ abort_step (client_of words.old)
        (stores packet.old headers.old body.old request.old) }
    ensures numbers { words.new ≡ words_of (result_of words.new) }
{
    let r = client::calls::abort(client_of(words), packet, headers, body, request);
    store(r, words);
}
