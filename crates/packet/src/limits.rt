// The limits of the protocol and of the engine.

// The longest packet: its length field has 16 bits (the source's MAXIMUM_PACKET_LENGTH).
pub const MAX_PACKET: usize = 65535;

// The smallest limit that a device may name, and the one that holds before a Connect (the source's MINIMUM_PACKET_LENGTH).
pub const MIN_PACKET: u16 = 255;

// What a packet of that length holds after its first three bytes, and a header with a length field after its own three.
pub const MAX_CAPACITY: usize = 65532;

// The longest value under a tag, whose length is one byte.
pub const MAX_TAG_VALUE: usize = 255;

// How many connections the engine keeps open at once; the source's set has no bound.
pub const MAX_CONNECTIONS: usize = 64;

// The longest realm: a tag's value has 255 bytes at most, and the realm's charset is the first of them.
pub const MAX_REALM: usize = 254;
