// The files of user ids and passwords: `users`, and `own` for clients that challenge the receiver (specs/Users).
ghost use Rattle.std.specs.Prelude.{◌≡◌, length};
ghost use Rattle.packet.specs.Tags.{bytes_at};
ghost use Rattle.filing.specs.Lines.{PlaceFits};
ghost use Rattle.filing.specs.Users.{password_for, first_user};

use crate::line::{find, value_of};
use base::Span;

// Finds the password of `user` in a file of such lines. A `user` of no bytes is that of a response that names none.
pub fn password_for(text: &[u8], user: &[u8]) -> Option<Span>
    ensures value { bytes_at text.now result ≡ password_for text.now user.now }
    ensures room { PlaceFits (length text.now) result }
{
    value_of(text, b'\t', user)
}

// Returns the user id of the first line.
pub fn first_user(text: &[u8]) -> &[u8]
    ensures { result.now ≡ first_user text.now }
{
    let end = find(text, b'\n');
    let n = find(&text[0..end], b'\t');
    &text[0..n]
}
