// The call that a decision comes to. Every call of a receiver's is made here.
ghost use Rattle.std.proofs.Math.Option.{some};
ghost use Rattle.std.specs.Prelude.{◌≡◌, ltb, length};
ghost use Rattle.base.specs.Pick.{pick};
ghost use Rattle.model.specs.Step.{stepped, called, stores};
ghost use Rattle.model.specs.Calls.{credentials_given_step};
ghost use Rattle.model.specs.Runs.{Says};
ghost use Rattle.reception.specs.Answers.{length_header, is_password_known, own_of, call_of, lending};

use crate::answer::{Answer, Secret};
use engine::calls;
use packet::header_id::LENGTH;
use server::{CallResult, Engine};

// The body store of a receiver, and so the longest body that it takes.
pub const BODY: usize = 65536;

// Makes a Length header.
pub fn length_header(size: u32) -> [u8; 5]
    ensures { result ≡ length_header size }
{
    [
        LENGTH,
        (size / 16777216 % 256) as u8,
        (size / 65536 % 256) as u8,
        (size / 256 % 256) as u8,
        (size % 256) as u8,
    ]
}

// Returns whether there is a password.
fn is_password_known(secret: Secret) -> bool
    ensures { result ≡ is_password_known secret }
{
    match secret {
        Secret::Known => true,
        Secret::Unknown => false,
        Secret::Stopped => false,
    }
}

// Returns `at`, or the end of the bytes if these are fewer.
fn within(at: usize, bytes: &[u8]) -> usize
    ensures { result ≡ pick (ltb (length bytes.now) at) (length bytes.now) at }
{
    if bytes.len() < at {
        return bytes.len();
    }
    at
}

// Answers the client's challenge: the first `user` bytes of `lent` are the user id, if there are any, and the others are the password.
fn give_credentials(
    e: Engine,
    user: usize,
    lent: &[u8],
    packet: &mut [u8; 65535],
    headers: &mut [u8; 65535],
    body: &mut [u8; BODY],
    reply: &mut [u8; 65535],
) -> CallResult
    ensures { stepped result (stores packet.new headers.new body.new reply.new)
        ≡ credentials_given_step e (some (own_of user lent.now))
        (stores packet.old headers.old body.old reply.old) }
{
    let at = within(user, lent);
    calls::credentials_given(
        e,
        true,
        0 < user,
        &lent[..at],
        &lent[at..],
        packet,
        headers,
        body,
        reply,
    )
}

// Makes the call of `answer`, with the bytes of `lent`.
pub fn call(
    e: Engine,
    answer: Answer,
    lent: &[u8],
    tables: &mut [u64; 320],
    packet: &mut [u8; 65535],
    headers: &mut [u8; 65535],
    body: &mut [u8; BODY],
    reply: &mut [u8; 65535],
) -> CallResult
    ensures { Says (lending e (stores packet.old headers.old body.old reply.old)
        tables.old) (call_of answer lent.now)
        (called (stepped result (stores packet.new headers.new body.new reply.new)) tables.new) }
{
    match answer {
        Answer::Offer => calls::bytes_offered(e, 0, lent, tables, packet, headers, body, reply),
        Answer::End => calls::stream_ended(e, packet, headers, body, reply),
        Answer::Sent => calls::reply_taken(e, packet, headers, body, reply),
        Answer::Reply(code) => calls::reply_given(
            e, code, b"", tables, packet, headers, body, reply,
        ),
        Answer::Object(size) => calls::object_given(
            e,
            &length_header(size),
            true,
            packet,
            headers,
            body,
            reply,
        ),
        Answer::Body => calls::body_given(e, lent, packet, headers, body, reply),
        Answer::BodyFailed => calls::body_failed(e, packet, headers, body, reply),
        Answer::Acknowledge => calls::abort_acknowledged(e, packet, headers, body, reply),
        Answer::Password(secret) => calls::password_given(
            e,
            is_password_known(secret),
            lent,
            packet,
            headers,
            body,
            reply,
        ),
        Answer::Nonce(nonce) => calls::nonce_given(
            e, nonce, lent, tables, packet, headers, body, reply,
        ),
        Answer::Credentials(user) => give_credentials(e, user, lent, packet, headers, body, reply),
        Answer::NoCredentials => calls::credentials_given(
            e, false, false, b"", b"", packet, headers, body, reply,
        ),
    }
}
