// Paths: a folder and a name with a slash between them, and the folder of a service.
ghost use Rattle.std.specs.Prelude.{◌≡◌, [], ◌∷◌, ◌+◌, ◌*◌, ◌/◌, ◌%◌, ◌≤◌, length, take};
ghost use Rattle.packet.specs.Placed.{laid};
ghost use Rattle.files.specs.Path.{hex_digit, hex_of, in_folder, service_folder};
ghost use Rattle.files.specs.Store.{filled, fit};

use base::copy_into;
use digest::md5::octets;
use table::targets::{Target, is_named};

// How long the name of a service's folder may be: `service-` and 32 digits.
pub const LONGEST_FOLDER: usize = 40;

// The name of a folder: the first `length` bytes of `name`. A folder without a name is the one in which the others stand.
#[derive(Clone, Copy)]
pub struct Folder {
    pub name: [u8; LONGEST_FOLDER],
    pub length: usize,
}

// Returns the first `n` bytes of `s`, or all if there are fewer.
pub fn front(s: &[u8], n: usize) -> &[u8]
    ensures { result.now ≡ take n s.now }
{
    if n <= s.len() { &s[0..n] } else { s }
}

// Puts the path of `name` in `folder` at the front of `path`, and returns how long it is: 0 if there is no room for it.
pub fn join(folder: &[u8], name: &[u8], path: &mut [u8]) -> usize
    ensures value { filled result path.new ≡ fit (in_folder folder.now name.now) path.old }
    ensures room { result ≤ length path.new }
{
    if path.len() < name.len() {
        return 0;
    }
    if folder.len() == 0 {
        copy_into(path, 0, name);
        return name.len();
    }
    if path.len() - name.len() <= folder.len() {
        return 0;
    }
    let at = folder.len();
    copy_into(path, 0, folder);
    path[at] = b'/';
    copy_into(path, at + 1, name);
    at + 1 + name.len()
}

// Returns the hexadecimal digit of `x`'s low four bits.
fn hex_digit(x: u8) -> u8
    ensures { result ≡ hex_digit (x % 16) }
{
    let low = x % 16;
    if low < 10 {
        return b'0' + low;
    }
    0x57 + low
}

// Returns the two hexadecimal digits of `b`.
pub fn hex_pair(b: u8) -> [u8; 2]
    ensures { result ≡ hex_digit (b / 16 % 16) ∷ hex_digit (b % 16) ∷ [] }
{
    [hex_digit(b / 16), hex_digit(b)]
}

// Puts the hexadecimal digits of `bytes` to the place `at` of `out`.
fn put_hex(out: &mut [u8], at: usize, bytes: &[u8])
    requires { at + 2 * length bytes.now ≤ length out.old }
    ensures { out.new ≡ laid out.old at (hex_of bytes.now) }
{
    for i in 0..bytes.len() {
        let pair = hex_pair(bytes[i]);
        copy_into(out, at + 2 * i, &pair);
    }
}

// Returns the folder of the service of `target`: `service-` and the Target's bytes in hexadecimal. The mark has a folder without a name.
pub fn service_folder(target: Target) -> Folder
    ensures value { take result.length result.name ≡ service_folder target }
    ensures room { result.length ≤ 40 }
{
    let mut name = [0u8; LONGEST_FOLDER];
    if !is_named(target) {
        return Folder { name, length: 0 };
    }
    let bytes = octets(target.bytes);
    let n = target.length;
    copy_into(&mut name, 0, b"service-");
    put_hex(&mut name, 8, &bytes[0..n]);
    Folder {
        name,
        length: 8 + 2 * n,
    }
}
