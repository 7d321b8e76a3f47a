// The checks of passwords over all connections: whether another may be made, by the letters before it (docs/PROTOCOL.md#eight-wrong).
ghost use Rattle.std.specs.Prelude.{◌≡◌, ◌-◌};
ghost use Rattle.journal.specs.Checks.{is_wrong, bit, wrongs};
ghost use Rattle.filing.specs.Tries.{letter_check, history_of, last_letters, check_allowed};

// The letter of a right password.
const RIGHT: u8 = b'r';

// The letter of a check that was stopped.
const STOP: u8 = b's';

// How many letters count.
const WINDOW: usize = 64;

// From this number of wrong letters on, no password is checked.
const MOST_WRONG: usize = 8;

// Returns 1 for a letter that stands for a wrong check, as any does but two, and 0 for these.
fn wrong_number(letter: u8) -> usize
    ensures { result ≡ bit (is_wrong (letter_check letter)) }
{
    if letter == RIGHT {
        return 0;
    }
    if letter == STOP {
        return 0;
    }
    1
}

// Counts the letters that stand for wrong checks.
fn wrong_letters(letters: &[u8]) -> usize
    ensures { result ≡ wrongs (history_of letters.now) }
{
    let mut i = 0;
    let mut count = 0;
    while i < letters.len() {
        count += wrong_number(letters[i]);
        i += 1;
    }
    count
}

// Returns where the last 64 of `n` letters begin.
fn window_at(n: usize) -> usize
    ensures { result ≡ n - 64 }
{
    if n < WINDOW { 0 } else { n - WINDOW }
}

// Tells whether a password may be checked behind these letters, of which the last 64 count.
pub fn is_check_allowed(letters: &[u8]) -> bool
    ensures { result ≡ check_allowed (last_letters letters.now) }
{
    let from = window_at(letters.len());
    wrong_letters(&letters[from..]) < MOST_WRONG
}
