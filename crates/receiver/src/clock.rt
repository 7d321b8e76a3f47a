// The clock, and random bytes.
use packet::header::be32_at;
use std::random::RandomSource;
use std::time::Clock;

// Returns the whole seconds since 1970, or 0 if they are not known.
fn seconds(rt: &impl Clock) -> u64 {
    match rt.since_1970() {
        Ok(time) => time.as_secs(),
        Err(_) => 0,
    }
}

// Returns the seconds since 1970, or 0 if they are not known or have over 32 bits.
pub(crate) fn now(rt: &impl Clock) -> u32 {
    let number = seconds(rt);
    if number <= 4294967295 {
        return number as u32;
    }
    0
}

// 64 random bits, or none.
#[derive(Clone, Copy)]
pub(crate) enum Bits {
    Fresh { high: u32, low: u32 },
    Missing,
}

// Draws 64 bits of the kernel's.
pub(crate) fn draw_bits(rt: &impl RandomSource) -> Bits {
    let mut bytes = [0u8; 8];
    if rt.fill_bytes(&mut bytes).is_ok() {
        return Bits::Fresh {
            high: be32_at(&bytes, 0),
            low: be32_at(&bytes, 4),
        };
    }
    Bits::Missing
}
