// The names of the folders below an archive (docs/ARCHIVE.md#as-a-receiver-files-it).
ghost use Rattle.std.specs.Prelude.{◌≡◌, ◌++◌, ◌+◌, ◌%◌};
ghost use Rattle.files.specs.Path.{hex_digit};
ghost use Rattle.filing.specs.Names.{hex8, session_name, record_name, part_name};

use base::copy_into;
use calendar::time::write_time;

// Returns the hexadecimal digit of `x`'s low four bits.
pub fn hex_digit(x: u32) -> u8
    ensures { result ≡ hex_digit (x % 16) }
{
    let low = (x % 16) as u8;
    if low < 10 {
        return b'0' + low;
    }
    0x57 + low
}

// Returns the eight hexadecimal digits of `n`.
fn hex8(n: u32) -> [u8; 8]
    ensures { result ≡ hex8 n }
{
    [
        hex_digit(n / 268435456),
        hex_digit(n / 16777216),
        hex_digit(n / 1048576),
        hex_digit(n / 65536),
        hex_digit(n / 4096),
        hex_digit(n / 256),
        hex_digit(n / 16),
        hex_digit(n),
    ]
}

// Returns the decimal digit of `x`'s last place.
fn decimal_digit(x: u32) -> u8
    ensures { result ≡ 0x30 + x % 10 }
{
    b'0' + (x % 10) as u8
}

// Makes the name of a session that began at `clock`, with 64 random bits.
pub fn session_name(clock: u32, high: u32, low: u32) -> [u8; 33]
    ensures { result ≡ session_name clock high low }
{
    let mut name = [b'-'; 33];
    let mut time = [0u8; 16];
    let _ = write_time(clock, &mut time);
    let front = hex8(high);
    let back = hex8(low);
    copy_into(&mut name, 0, &time);
    copy_into(&mut name, 17, &front);
    copy_into(&mut name, 25, &back);
    name
}

// Makes the name of the record with a number. Numbers of a million or more share the names of smaller ones.
pub fn record_name(number: u32) -> [u8; 6]
    ensures { result ≡ record_name number }
{
    let tens = number / 10;
    let hundreds = tens / 10;
    let thousands = hundreds / 10;
    let ten_thousands = thousands / 10;
    [
        decimal_digit(ten_thousands / 10),
        decimal_digit(ten_thousands),
        decimal_digit(thousands),
        decimal_digit(hundreds),
        decimal_digit(tens),
        decimal_digit(number),
    ]
}

// Makes the name of the record with a number while it is being filed.
pub fn part_name(number: u32) -> [u8; 11]
    ensures { result ≡ part_name number }
{
    let name = record_name(number);
    [
        name[0], name[1], name[2], name[3], name[4], name[5], b'.', b'p', b'a', b'r', b't',
    ]
}
