// A host that keeps nothing: it answers with codes without headers, and has no password and no credentials. A nonce is the kernel's.
ghost use Rattle.std.specs.Prelude.{◌≡◌};
ghost use Rattle.model.specs.Step.{stepped, called, stores};
ghost use Rattle.host.specs.Answers.{kind_for, Answers};

use digest::md5::{Octets16, octets16_of};
use engine::calls;
use packet::response::{NOT_IMPLEMENTED, SUCCESS};
use server::{CallResult, Engine, HostRequest};
use std::random::RandomSource;

// Which call answers a request.
#[derive(Clone, Copy)]
pub enum Kind {
    Reply(u8),
    Acknowledge,
    NoPassword,
    NoCredentials,
    Nonce,
    // The engine asks for body bytes only of an object, and this host gives none; if it is asked, it says that no body can be read.
    NoBody,
}

// Draws a nonce, if the kernel has one. It gives no sixteen bytes twice, as far as anybody can tell.
fn draw(random: &impl RandomSource) -> Option<Octets16> {
    let mut bytes = [0u8; 16];
    match random.fill_bytes(&mut bytes) {
        Ok(_) => Some(octets16_of(bytes)),
        Err(_) => None,
    }
}

// Returns which call answers `request`.
fn kind_of(request: HostRequest) -> Kind
    ensures { result ≡ kind_for request }
{
    match request {
        HostRequest::Connect { .. } | HostRequest::Disconnect { .. } | HostRequest::Put { .. } => {
            Kind::Reply(SUCCESS)
        }
        HostRequest::Abort { .. } => Kind::Acknowledge,
        HostRequest::Password { .. } => Kind::NoPassword,
        HostRequest::Credentials { .. } => Kind::NoCredentials,
        HostRequest::Nonce => Kind::Nonce,
        HostRequest::Read { .. } => Kind::NoBody,
        _ => Kind::Reply(NOT_IMPLEMENTED),
    }
}

// Answers `request` with the call that is due. If the kernel has no random bytes for a nonce, no call can answer, and the one that is made
// is refused. The stores are arrays, since a program's stores have lengths that are known; the engine is lent them whole.
pub fn answer(
    random: &impl RandomSource,
    e: Engine,
    request: HostRequest,
    tables: &mut [u64; 320],
    packet: &mut [u8; 65535],
    headers: &mut [u8; 65535],
    body: &mut [u8; 1048576],
    reply: &mut [u8; 65535],
) -> CallResult
    ensures { Answers (kind_for request) e (stores packet.old headers.old body.old reply.old)
        tables.old (called (stepped result (stores packet.new headers.new body.new reply.new))
        tables.new) }
{
    match kind_of(request) {
        Kind::Reply(code) => calls::reply_given(e, code, b"", tables, packet, headers, body, reply),
        Kind::Acknowledge => calls::abort_acknowledged(e, packet, headers, body, reply),
        Kind::NoPassword => calls::password_given(e, false, b"", packet, headers, body, reply),
        Kind::NoCredentials => calls::credentials_given(
            e, false, false, b"", b"", packet, headers, body, reply,
        ),
        Kind::Nonce => match draw(random) {
            Some(n) => calls::nonce_given(e, n, b"", tables, packet, headers, body, reply),
            None => calls::body_failed(e, packet, headers, body, reply),
        },
        Kind::NoBody => calls::body_failed(e, packet, headers, body, reply),
    }
}
