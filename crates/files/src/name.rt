// The names of files, as Name headers give them.
ghost use Rattle.std.specs.Prelude.{◌≡◌, ◌≤◌, length};
ghost use Rattle.files.specs.Name.{part, plain, file_name, name_text};
ghost use Rattle.files.specs.Store.{filled, fit};

use packet::header::first_header;
use packet::header_id::NAME;
use text::decode_unicode;

// Puts the text of the first Name at the front of `store`, and returns its length: 0 if the Name is missing, or longer than the store.
pub fn name_in(headers: &[u8], store: &mut [u8]) -> usize
    ensures value { filled result store.new ≡ fit (name_text headers.now) store.old }
    ensures room { result ≤ length store.new }
{
    let Some(value) = first_header(headers, 0, NAME) else {
        return 0;
    };
    let done = decode_unicode(value.of(headers), store);
    match done {
        Ok(n) => n,
        Err(_) => 0,
    }
}

// Whether `b` is neither a zero nor a separator.
#[tactic(auto, unfolding(crate::specs::Name::part))]
fn is_part(b: u8) -> bool
    ensures { result ≡ part b }
{
    b != 0 && b != b'/'
}

fn is_plain(s: &[u8]) -> bool
    ensures { result ≡ plain s.now }
{
    s.iter().all(|b| is_part(*b))
}

// Whether `s` may name a file here.
pub fn is_file_name(s: &[u8]) -> bool
    ensures { result ≡ file_name s.now }
{
    if s.len() == 0 {
        return false;
    }
    if 255 < s.len() {
        return false;
    }
    if s[0] == b'.' {
        return false;
    }
    is_plain(s)
}
