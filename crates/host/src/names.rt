// The names of requests.
ghost use Rattle.std.specs.Prelude.{◌≤◌, ◌≡◌, length};
ghost use Rattle.lines.specs.Word.{filled};
ghost use Rattle.lines.specs.Output.{put_bytes};
ghost use Rattle.host.specs.Names.{request_name};

use lines::output::put;
use server::HostRequest;

// Returns the name of the handler's method for `request`. A nonce and a body read are no methods, and have no name.
pub fn request_name(request: HostRequest) -> &'static [u8]
    ensures { result.now ≡ request_name request }
{
    match request {
        HostRequest::Connect { .. } => b"connect",
        HostRequest::Disconnect { .. } => b"disconnect",
        HostRequest::SetPath { .. } => b"set_path",
        HostRequest::Abort { .. } => b"abort",
        HostRequest::Put { .. } => b"put",
        HostRequest::Get { .. } => b"get",
        HostRequest::Action { .. } => b"action",
        HostRequest::Session { .. } => b"session",
        HostRequest::UserDefined { .. } => b"user_defined",
        HostRequest::Password { .. } => b"password",
        HostRequest::Credentials { .. } => b"credentials",
        HostRequest::Nonce | HostRequest::Read { .. } => b"",
    }
}

// Puts the name of the handler's method behind the first `n` bytes.
// Stays a store and how much of it is used: it goes between the other puts of a line, which are those of lines::output.
pub fn put_name(out: &mut [u8], n: usize, request: HostRequest) -> usize
    ensures within { result ≤ length out.new }
    ensures text { filled out.new result ≡ put_bytes out.old n (request_name request) }
{
    put(out, n, request_name(request))
}
