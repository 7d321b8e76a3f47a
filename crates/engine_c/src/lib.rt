// The engine for Rust and C. The host keeps the state as 64 numbers and lends them (`words`; specs/Words says what they mean). Each call
// reads the state there, does what the engine's call of that name does with the stores that it is lent, and leaves there the state, how
// many bytes were taken, and the outcome, and nothing else: the numbers afterwards are those of the result, all 64. Whatever the numbers
// are, they are some state, so no call requires anything.
#![tactic(auto)]

ghost use Rattle.std.specs.Prelude.{◌≡◌};
ghost use Rattle.packet.specs.AuthWrite.{given};
ghost use Rattle.connection.specs.Pieces.{credentials_of};
ghost use Rattle.model.specs.Step.{stepped, called, stores};
ghost use Rattle.model.specs.Calls.{stream_ended_step, bytes_offered_step, reply_taken_step, abort_acknowledged_step, body_failed_step, body_given_step, object_given_step, nonce_given_step, password_given_step, reply_given_step, credentials_given_step, connections_closed_step};
ghost use Rattle.model.specs.Close.{closed};
ghost use Rattle.model.specs.Runs.{Octets};
ghost use Rattle.engine_c.specs.Words.{version, engine_of, result_of, words_of, start_on};

use crate::words::{VERSION, admit, engine_of, is_settings, settings_of, store};
use digest::md5::Octets16;

pub mod words;

// Returns the version of the layout of `words`, which a host writes among the settings.
#[unsafe(no_mangle)]
pub extern "C" fn obex_engine_version() -> u64
    ensures { result ≡ version }
{
    VERSION
}

// Starts an engine with the settings in the first ten numbers and the version of the layout in the next, and with the bytes of `realm` if the
// settings say that there is one. Numbers that are no settings are refused: no flag is read as off, and no limit loses its upper bits.
#[unsafe(no_mangle)]
pub extern "C" fn obex_engine_start(
    words: &mut [u64; 64],
    realm: &[u8],
    tables: &[u64],
    packet: &mut [u8],
    headers: &mut [u8],
    body: &mut [u8],
    reply: &mut [u8],
)
    ensures step { stepped (result_of words.new)
        (stores packet.new headers.new body.new reply.new)
        ≡ start_on words.old realm.now
        (stores packet.old headers.old body.old reply.old) tables.now }
    ensures numbers { words.new ≡ words_of (result_of words.new) }
{
    let fit = is_settings(words);
    let r = engine::calls::start(
        settings_of(words),
        realm,
        tables,
        packet,
        headers,
        body,
        reply,
    );
    store(admit(fit, r), words);
}

// Offers the engine bytes from the client. The engine takes them up to the end of a packet and never past it.
#[unsafe(no_mangle)]
pub extern "C" fn obex_engine_bytes_offered(
    words: &mut [u64; 64],
    input: &[u8],
    tables: &[u64],
    packet: &mut [u8],
    headers: &mut [u8],
    body: &mut [u8],
    reply: &mut [u8],
)
    ensures step { stepped (result_of words.new)
        (stores packet.new headers.new body.new reply.new)
        ≡ bytes_offered_step (engine_of words.old) input.now
        (stores packet.old headers.old body.old reply.old) tables.now }
    ensures numbers { words.new ≡ words_of (result_of words.new) }
    ensures octets { Octets input.now }
{
    let r = engine::calls::bytes_offered(
        engine_of(words),
        0,
        input,
        tables,
        packet,
        headers,
        body,
        reply,
    );
    store(r, words);
}

// Tells the engine that the client's stream has ended.
#[unsafe(no_mangle)]
pub extern "C" fn obex_engine_stream_ended(
    words: &mut [u64; 64],
    packet: &mut [u8],
    headers: &mut [u8],
    body: &mut [u8],
    reply: &mut [u8],
)
    ensures step { stepped (result_of words.new)
        (stores packet.new headers.new body.new reply.new)
        ≡ stream_ended_step (engine_of words.old)
        (stores packet.old headers.old body.old reply.old) }
    ensures numbers { words.new ≡ words_of (result_of words.new) }
{
    let r = engine::calls::stream_ended(engine_of(words), packet, headers, body, reply);
    store(r, words);
}

// Tells the engine that the host has sent the reply.
#[unsafe(no_mangle)]
pub extern "C" fn obex_engine_reply_taken(
    words: &mut [u64; 64],
    packet: &mut [u8],
    headers: &mut [u8],
    body: &mut [u8],
    reply: &mut [u8],
)
    ensures step { stepped (result_of words.new)
        (stores packet.new headers.new body.new reply.new)
        ≡ reply_taken_step (engine_of words.old)
        (stores packet.old headers.old body.old reply.old) }
    ensures numbers { words.new ≡ words_of (result_of words.new) }
{
    let r = engine::calls::reply_taken(engine_of(words), packet, headers, body, reply);
    store(r, words);
}

// Gives the host's reply to a request, a code and header bytes in canonical form.
#[unsafe(no_mangle)]
pub extern "C" fn obex_engine_reply_given(
    words: &mut [u64; 64],
    code: u8,
    header_bytes: &[u8],
    tables: &mut [u64],
    packet: &mut [u8],
    headers: &mut [u8],
    body: &mut [u8],
    reply: &mut [u8],
)
    ensures step { called (stepped (result_of words.new)
        (stores packet.new headers.new body.new reply.new))
        tables.new
        ≡ reply_given_step (engine_of words.old) code header_bytes.now
        (stores packet.old headers.old body.old reply.old) tables.old }
    ensures numbers { words.new ≡ words_of (result_of words.new) }
{
    let r = engine::calls::reply_given(
        engine_of(words),
        code,
        header_bytes,
        tables,
        packet,
        headers,
        body,
        reply,
    );
    store(r, words);
}

// Gives an object for a Get: its header bytes, in canonical form, and whether it has a body.
#[unsafe(no_mangle)]
pub extern "C" fn obex_engine_object_given(
    words: &mut [u64; 64],
    header_bytes: &[u8],
    has_body: bool,
    packet: &mut [u8],
    headers: &mut [u8],
    body: &mut [u8],
    reply: &mut [u8],
)
    ensures step { stepped (result_of words.new)
        (stores packet.new headers.new body.new reply.new)
        ≡ object_given_step (engine_of words.old) header_bytes.now has_body
        (stores packet.old headers.old body.old reply.old) }
    ensures numbers { words.new ≡ words_of (result_of words.new) }
{
    let r = engine::calls::object_given(
        engine_of(words),
        header_bytes,
        has_body,
        packet,
        headers,
        body,
        reply,
    );
    store(r, words);
}

// Gives bytes of the object's body: at most as many as the engine asked for, and none at the body's end.
#[unsafe(no_mangle)]
pub extern "C" fn obex_engine_body_given(
    words: &mut [u64; 64],
    d: &[u8],
    packet: &mut [u8],
    headers: &mut [u8],
    body: &mut [u8],
    reply: &mut [u8],
)
    ensures step { stepped (result_of words.new)
        (stores packet.new headers.new body.new reply.new)
        ≡ body_given_step (engine_of words.old) d.now
        (stores packet.old headers.old body.old reply.old) }
    ensures numbers { words.new ≡ words_of (result_of words.new) }
{
    let r = engine::calls::body_given(engine_of(words), d, packet, headers, body, reply);
    store(r, words);
}

// Tells the engine that the object's body cannot be read on.
#[unsafe(no_mangle)]
pub extern "C" fn obex_engine_body_failed(
    words: &mut [u64; 64],
    packet: &mut [u8],
    headers: &mut [u8],
    body: &mut [u8],
    reply: &mut [u8],
)
    ensures step { stepped (result_of words.new)
        (stores packet.new headers.new body.new reply.new)
        ≡ body_failed_step (engine_of words.old)
        (stores packet.old headers.old body.old reply.old) }
    ensures numbers { words.new ≡ words_of (result_of words.new) }
{
    let r = engine::calls::body_failed(engine_of(words), packet, headers, body, reply);
    store(r, words);
}

// Tells the engine that the host has heard of an Abort.
#[unsafe(no_mangle)]
pub extern "C" fn obex_engine_abort_acknowledged(
    words: &mut [u64; 64],
    packet: &mut [u8],
    headers: &mut [u8],
    body: &mut [u8],
    reply: &mut [u8],
)
    ensures step { stepped (result_of words.new)
        (stores packet.new headers.new body.new reply.new)
        ≡ abort_acknowledged_step (engine_of words.old)
        (stores packet.old headers.old body.old reply.old) }
    ensures numbers { words.new ≡ words_of (result_of words.new) }
{
    let r = engine::calls::abort_acknowledged(engine_of(words), packet, headers, body, reply);
    store(r, words);
}

// Gives the password of the user that the client named, or none if the host knows no such user.
#[unsafe(no_mangle)]
pub extern "C" fn obex_engine_password_given(
    words: &mut [u64; 64],
    // Stays a flag beside the bytes: the C interface lends both.
    has_password: bool,
    password: &[u8],
    packet: &mut [u8],
    headers: &mut [u8],
    body: &mut [u8],
    reply: &mut [u8],
)
    ensures step { stepped (result_of words.new)
        (stores packet.new headers.new body.new reply.new)
        ≡ password_given_step (engine_of words.old) (given has_password password.now)
        (stores packet.old headers.old body.old reply.old) }
    ensures numbers { words.new ≡ words_of (result_of words.new) }
{
    let r = engine::calls::password_given(
        engine_of(words),
        has_password,
        password,
        packet,
        headers,
        body,
        reply,
    );
    store(r, words);
}

// Gives a fresh nonce for a challenge, in two halves of eight bytes each, the first byte the highest.
#[unsafe(no_mangle)]
pub extern "C" fn obex_engine_nonce_given(
    words: &mut [u64; 64],
    first: u64,
    second: u64,
    realm: &[u8],
    tables: &mut [u64],
    packet: &mut [u8],
    headers: &mut [u8],
    body: &mut [u8],
    reply: &mut [u8],
)
    ensures step { called (stepped (result_of words.new)
        (stores packet.new headers.new body.new reply.new))
        tables.new
        ≡ nonce_given_step (engine_of words.old) (record { first = first; second = second }) realm.now
        (stores packet.old headers.old body.old reply.old) tables.old }
    ensures numbers { words.new ≡ words_of (result_of words.new) }
{
    let r = engine::calls::nonce_given(
        engine_of(words),
        Octets16 { first, second },
        realm,
        tables,
        packet,
        headers,
        body,
        reply,
    );
    store(r, words);
}

// Gives credentials for the client's challenge, or none.
#[unsafe(no_mangle)]
pub extern "C" fn obex_engine_credentials_given(
    words: &mut [u64; 64],
    has_credentials: bool,
    // Stays a flag beside the bytes: the C interface lends both.
    has_user: bool,
    user: &[u8],
    password: &[u8],
    packet: &mut [u8],
    headers: &mut [u8],
    body: &mut [u8],
    reply: &mut [u8],
)
    ensures step { stepped (result_of words.new)
        (stores packet.new headers.new body.new reply.new)
        ≡ credentials_given_step (engine_of words.old) (credentials_of has_credentials (given has_user user.now) password.now)
        (stores packet.old headers.old body.old reply.old) }
    ensures numbers { words.new ≡ words_of (result_of words.new) }
{
    let r = engine::calls::credentials_given(
        engine_of(words),
        has_credentials,
        has_user,
        user,
        password,
        packet,
        headers,
        body,
        reply,
    );
    store(r, words);
}

// Closes the connections of `ids` together. The call is lent the table store alone.
#[unsafe(no_mangle)]
pub extern "C" fn obex_engine_connections_closed(
    words: &mut [u64; 64],
    ids: &[u32],
    tables: &mut [u64],
)
    ensures step { closed (result_of words.new) tables.new
        ≡ connections_closed_step (engine_of words.old) ids.now tables.old }
    ensures numbers { words.new ≡ words_of (result_of words.new) }
{
    let r = engine::calls::connections_closed(engine_of(words), ids, tables);
    store(r, words);
}
