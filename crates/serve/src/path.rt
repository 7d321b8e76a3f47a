// The names of files that are being written.
ghost use Rattle.std.specs.Prelude.{◌≡◌, ◌≤◌, length};

// Returns the decimal digit of `n` at `unit`.
fn digit(n: usize, unit: usize) -> u8
    requires { 1 ≤ unit }
{
    b'0' + (n / unit % 10) as u8
}

// Returns the name of a file that is being written, for `create_temp`: the number of this process, `process`, in ten digits, and what is
// replaced.
pub(crate) fn part_name(process: u32) -> [u8; 22]
    ensures { 22 ≡ length result }
{
    let n = process as usize;
    [
        b'.',
        b'p',
        b'u',
        b't',
        b'-',
        digit(n, 1000000000),
        digit(n, 100000000),
        digit(n, 10000000),
        digit(n, 1000000),
        digit(n, 100000),
        digit(n, 10000),
        digit(n, 1000),
        digit(n, 100),
        digit(n, 10),
        digit(n, 1),
        b'-',
        b'X',
        b'X',
        b'X',
        b'X',
        b'X',
        b'X',
    ]
}
