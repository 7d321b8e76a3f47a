// The window over the last 64 checks of passwords (docs/PROTOCOL.md#eight-wrong): one number, a set bit for each wrong one, the latest
// check its lowest bit. The source has no such rule.
ghost use Rattle.std.specs.Prelude.{◌≡◌, List, take, count_ones, nat_le};
ghost use Rattle.journal.specs.Checks.{Check, window_length, most_wrong, shifted, wrongs, too_many_of, window_of};

// The highest bit of the window, which is lost when a further check comes.
const HIGHEST_BIT: u64 = 0x8000000000000000;

// From so many wrong checks on in the window, a Connect with a response is stopped.
const MOST_WRONG: u32 = 8;

// Returns the window with one check more.
pub fn pushed(window: u64, wrong: bool) -> u64
    ensures { result ≡ shifted window wrong }
{
    let kept = window % HIGHEST_BIT;
    if wrong { kept * 2 + 1 } else { kept * 2 }
}

// Returns how many of the last 64 checks were wrong: the window's set bits, which for the window of a history are its own count.
pub fn wrong_count(window: u64) -> u32
    ensures value { result ≡ count_ones window }
    ensures counted { (h : List Check) → window ≡ window_of h → result ≡ wrongs (take window_length h) }
{
    u64::count_ones(window)
}

// Tells whether eight or more of the last 64 checks were wrong.
pub fn too_many(window: u64) -> bool
    ensures value { result ≡ nat_le most_wrong (count_ones window) }
    ensures counted { (h : List Check) → window ≡ window_of h → result ≡ too_many_of h }
{
    MOST_WRONG <= wrong_count(window)
}
