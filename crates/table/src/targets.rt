// The Targets of the open ids, beside the ids in the table store (docs/PROTOCOL.md#targets).
ghost use Rattle.std.specs.Prelude.{◌≡◌, ◌+◌, ◌≤◌, ◌<◌, length, take, MatchOption};
ghost use Rattle.table.specs.Targets.{unnamed as unnamedTarget, is_named, target_by, place_of, target_at, target_set, column_closed, targets_closed};
ghost use Rattle.table.specs.Places.{table_length};

use base::copy_into;
use digest::md5::{Octets16, octets16_at};

// The most bytes of a Target that an id carries.
pub const MAX_TARGET: usize = 16;
// Where the columns begin: the lengths, and the first and the second eight bytes.
const LENGTHS: usize = 128;

const FIRSTS: usize = 192;

const SECONDS: usize = 256;

// Stays a length that is over 16 for no Target: the table store holds it so (`target_at`), and so it goes to a host in C.
//
// The Target of a connection: `length` bytes of the sixteen, which are filled up with zeros. A `length` over 16 is the mark: the Connect
// had no Target, or one of over 16 bytes.
#[derive(Clone, Copy)]
pub struct Target {
    pub length: usize,
    pub bytes: Octets16,
}

// Returns the mark.
pub fn unnamed() -> Target
    ensures { result ≡ unnamedTarget }
{
    Target {
        length: 17,
        bytes: Octets16 {
            first: 0,
            second: 0,
        },
    }
}

// Tells whether `target` is a Target and not the mark.
pub fn is_named(target: Target) -> bool
    ensures { result ≡ is_named target }
{
    target.length <= MAX_TARGET
}

// Returns the Target of the bytes of a Target header.
pub fn target_of(s: &[u8]) -> Target
    ensures { result ≡ target_by s.now }
{
    let length = s.len();
    if length > MAX_TARGET {
        return unnamed();
    }
    let mut b = [0u8; 16];
    copy_into(&mut b, 0, s);
    let bytes = octets16_at(&b, 0);
    Target { length, bytes }
}

// Finds the place of `id` among the first `count` numbers; there is none if it is none of them.
pub fn find_place(tables: &[u64], count: usize, id: u32) -> Option<usize>
    requires { (count ≤ 64) × (count ≤ length tables.now) }
    ensures { MatchOption result (place_of id (take count tables.now) ≡ count)
        (λ p. (p ≡ place_of id (take count tables.now)) × (p < count)) }
{
    tables[..count].iter().position(|x| *x == u64::from(id))
}

// Returns the Target at `place`.
pub fn target_at(tables: &[u64], place: usize) -> Target
    requires { (place < 64) × (table_length ≤ length tables.now) }
    ensures { result ≡ target_at tables.now place }
{
    Target {
        length: tables[LENGTHS + place] as usize,
        bytes: Octets16 {
            first: tables[FIRSTS + place],
            second: tables[SECONDS + place],
        },
    }
}

// Stores `target` at `place`.
pub fn put_target(tables: &mut [u64], place: usize, target: Target)
    requires { (place < 64) × (table_length ≤ length tables.old) }
    ensures { tables.new ≡ target_set tables.old place target }
{
    tables[LENGTHS + place] = target.length as u64;
    tables[FIRSTS + place] = target.bytes.first;
    tables[SECONDS + place] = target.bytes.second;
}

// Takes the number beside `id` out of the column that begins at `at`. What stands beside the ids behind it moves up.
fn close_column(tables: &mut [u64], at: usize, count: usize, id: u32)
    requires { (count ≤ 64) × (64 ≤ at) × (at + count ≤ length tables.old) }
    ensures { tables.new ≡ column_closed id count at tables.old }
{
    let mut kept: usize = 0;
    // Stays a loop over an index: it writes at or in front of the place that it reads, and slices have no `retain`.
    for i in 0..count {
        if tables[i] != u64::from(id) {
            tables[at + kept] = tables[at + i];
            kept += 1;
        }
    }
}

// Takes the Target of `id` out of the table store, in which `count` ids stand.
pub fn close_targets(tables: &mut [u64], count: usize, id: u32)
    requires { (count ≤ 64) × (table_length ≤ length tables.old) }
    ensures { tables.new ≡ targets_closed id count tables.old }
{
    close_column(tables, LENGTHS, count, id);
    close_column(tables, FIRSTS, count, id);
    close_column(tables, SECONDS, count, id);
}
