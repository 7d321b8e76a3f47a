// The digests for C and Rust.
#![tactic(auto)]

ghost use Rattle.std.specs.Prelude.{◌≡◌};
ghost use Rattle.digest.specs.Md5.{digest_of, octets16, numbers16, request_digest};

use digest::md5::Octets16;

#[repr(C)]
#[derive(Clone, Copy)]
pub struct Value {
    pub first: u64,
    pub second: u64,
}

// Stores the MD5 digest of `message` in `out`.
#[unsafe(no_mangle)]
pub extern "C" fn digest_md5(message: &[u8], out: &mut [u8; 16])
    ensures { out.new ≡ digest_of message.now }
{
    *out = digest::md5::digest(message);
}

// Computes OBEX's request digest for `password` and a nonce in two halves of eight bytes each, the first byte the highest.
#[unsafe(no_mangle)]
pub extern "C" fn digest_request(first: u64, second: u64, password: &[u8]) -> Value
    ensures { record { first = result.first; second = result.second }
        ≡ numbers16 (request_digest (octets16 (record { first = first; second = second })) password.now) }
{
    let d = digest::md5::request_digest(Octets16 { first, second }, password);
    Value {
        first: d.first,
        second: d.second,
    }
}
