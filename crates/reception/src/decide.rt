// What is decided, by the results of the system's calls.
ghost use Rattle.std.specs.Prelude.{◌≡◌};
ghost use Rattle.reception.specs.Answers.{plain_answer, after_write, after_draw, after_filing};

use crate::answer::{Answer, Decision, Secret};
use digest::md5::Octets16;
use filing::plan::{Filing, code_for};
use packet::response::{DATABASE_LOCKED, FORBIDDEN, NOT_FOUND, NOT_IMPLEMENTED, SUCCESS};
use server::HostRequest;

// The log's numbers for an end without a call: the client is gone, and there are no random bytes.
pub const PEER_GONE: u8 = 81;

pub const NO_RANDOMNESS: u8 = 82;

// Returns the answer to `request` if nothing is asked of the system, or nothing can be had of it: no record is filed, no file is there, no password
// is known. Without sixteen random bytes no call answers a request for a nonce, and the engine refuses the one that is returned.
pub fn plain_answer(request: HostRequest) -> Answer
    ensures { result ≡ plain_answer request }
{
    match request {
        HostRequest::Connect { length: _ } => Answer::Reply(SUCCESS),
        HostRequest::Disconnect { length: _ } => Answer::Reply(SUCCESS),
        HostRequest::SetPath {
            length: _,
            backup: _,
            no_create: _,
        } => Answer::Reply(SUCCESS),
        HostRequest::Abort { length: _ } => Answer::Acknowledge,
        HostRequest::Put { kept: _, body: _ } => Answer::Reply(DATABASE_LOCKED),
        HostRequest::Get { kept: _ } => Answer::Reply(NOT_FOUND),
        HostRequest::Action { kept: _ } => Answer::Reply(NOT_IMPLEMENTED),
        HostRequest::Session { kept: _ } => Answer::Reply(NOT_IMPLEMENTED),
        HostRequest::UserDefined { opcode: _, kept: _ } => Answer::Reply(NOT_IMPLEMENTED),
        HostRequest::Password { user_id: _ } => Answer::Password(Secret::Unknown),
        HostRequest::Nonce => Answer::BodyFailed,
        HostRequest::Credentials {
            nonce: _,
            user_id_required: _,
            read_only: _,
            realm: _,
        } => Answer::NoCredentials,
        HostRequest::Read { room: _ } => Answer::BodyFailed,
    }
}

// Returns what is done once the reply was written: the engine hears that it was taken only if the system took all of it.
pub fn after_write(is_written: bool) -> Decision
    ensures { result ≡ after_write is_written }
{
    if is_written {
        return Decision::Make(Answer::Sent);
    }
    Decision::Leave(PEER_GONE)
}

// Returns what is done once sixteen random bytes were asked for.
pub fn after_draw(is_drawn: bool, nonce: Octets16) -> Decision
    ensures { result ≡ after_draw is_drawn nonce }
{
    if is_drawn {
        return Decision::Make(Answer::Nonce(nonce));
    }
    Decision::Leave(NO_RANDOMNESS)
}

// Returns the answer to a Put: the code of its filing, if records are taken under its Target.
pub fn after_filing(is_taken: bool, filing: Filing) -> Answer
    ensures { result ≡ after_filing is_taken filing.filed filing.full }
{
    if is_taken {
        return Answer::Reply(code_for(filing));
    }
    Answer::Reply(FORBIDDEN)
}
