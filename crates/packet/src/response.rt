// Response codes (IrOBEX 1.5, section 3.2.1; docs/PROTOCOL.md#reply-codes). The low seven bits are a code derived from an HTTP status, the
// top bit is the Final bit. A code is passed as a number without that bit.
ghost use Rattle.std.specs.Prelude.{◌≡◌};
ghost use Rattle.packet.specs.Codes.{is_code, is_success, sent_code};

use crate::opcode::FINAL_BIT;

// Continue the operation (HTTP 100).
pub const CONTINUE: u8 = 0x10;

// The operation succeeded (HTTP 200).
pub const SUCCESS: u8 = 0x20;

// Created (HTTP 201).
pub const CREATED: u8 = 0x21;

// Accepted (HTTP 202).
pub const ACCEPTED: u8 = 0x22;

// Non Authoritative Information (HTTP 203).
pub const NON_AUTHORITATIVE_INFORMATION: u8 = 0x23;

// No Content (HTTP 204).
pub const NO_CONTENT: u8 = 0x24;

// Reset Content (HTTP 205).
pub const RESET_CONTENT: u8 = 0x25;

// Partial Content (HTTP 206).
pub const PARTIAL_CONTENT: u8 = 0x26;

// Multiple Choices (HTTP 300).
pub const MULTIPLE_CHOICES: u8 = 0x30;

// Moved Permanently (HTTP 301).
pub const MOVED_PERMANENTLY: u8 = 0x31;

// Moved Temporarily (HTTP 302).
pub const MOVED_TEMPORARILY: u8 = 0x32;

// See Other (HTTP 303).
pub const SEE_OTHER: u8 = 0x33;

// Not Modified (HTTP 304).
pub const NOT_MODIFIED: u8 = 0x34;

// Use Proxy (HTTP 305).
pub const USE_PROXY: u8 = 0x35;

// The server could not understand the request (HTTP 400).
pub const BAD_REQUEST: u8 = 0x40;

// Authentication is required (HTTP 401).
pub const UNAUTHORIZED: u8 = 0x41;

// Payment Required (HTTP 402).
pub const PAYMENT_REQUIRED: u8 = 0x42;

// The operation is understood and refused (HTTP 403).
pub const FORBIDDEN: u8 = 0x43;

// Not Found (HTTP 404).
pub const NOT_FOUND: u8 = 0x44;

// Method Not Allowed (HTTP 405).
pub const METHOD_NOT_ALLOWED: u8 = 0x45;

// Not Acceptable (HTTP 406).
pub const NOT_ACCEPTABLE: u8 = 0x46;

// Proxy Authentication Required (HTTP 407).
pub const PROXY_AUTHENTICATION_REQUIRED: u8 = 0x47;

// Request Time Out (HTTP 408).
pub const REQUEST_TIME_OUT: u8 = 0x48;

// Conflict (HTTP 409).
pub const CONFLICT: u8 = 0x49;

// Gone (HTTP 410).
pub const GONE: u8 = 0x4A;

// Length Required (HTTP 411).
pub const LENGTH_REQUIRED: u8 = 0x4B;

// Precondition Failed (HTTP 412).
pub const PRECONDITION_FAILED: u8 = 0x4C;

// The object is over the limit (HTTP 413).
pub const REQUESTED_ENTITY_TOO_LARGE: u8 = 0x4D;

// Request URL Too Large (HTTP 414).
pub const REQUEST_URL_TOO_LARGE: u8 = 0x4E;

// Unsupported Media Type (HTTP 415).
pub const UNSUPPORTED_MEDIA_TYPE: u8 = 0x4F;

// The server failed; also the answer in place of a reply that the peer cannot receive (HTTP 500).
pub const INTERNAL_SERVER_ERROR: u8 = 0x50;

// The server knows no such operation (HTTP 501).
pub const NOT_IMPLEMENTED: u8 = 0x51;

// Bad Gateway (HTTP 502).
pub const BAD_GATEWAY: u8 = 0x52;

// The service is not available; also the answer to a Connection Id that is not open (HTTP 503).
pub const SERVICE_UNAVAILABLE: u8 = 0x53;

// Gateway Timeout (HTTP 504).
pub const GATEWAY_TIMEOUT: u8 = 0x54;

// HTTP Version Not Supported (HTTP 505).
pub const HTTP_VERSION_NOT_SUPPORTED: u8 = 0x55;

// The database is full; OBEX alone has this code.
pub const DATABASE_FULL: u8 = 0x60;

// The database is locked; OBEX alone has this code.
pub const DATABASE_LOCKED: u8 = 0x61;

// The byte that is sent for Continue: the code with the Final bit.
pub const CONTINUE_BYTE: u8 = CONTINUE | FINAL_BIT;

// The byte that is sent for Success: the code with the Final bit.
pub const SUCCESS_BYTE: u8 = SUCCESS | FINAL_BIT;

// The byte that is sent for Requested Entity Too Large: the code with the Final bit.
pub const REQUESTED_ENTITY_TOO_LARGE_BYTE: u8 = REQUESTED_ENTITY_TOO_LARGE | FINAL_BIT;

// The byte that is sent for Internal Server Error: the code with the Final bit.
pub const INTERNAL_SERVER_ERROR_BYTE: u8 = INTERNAL_SERVER_ERROR | FINAL_BIT;

// Tells whether `b` is one of the 38 codes of the table. The host may answer with these alone.
pub fn is_code(b: u8) -> bool
    ensures { result ≡ is_code b }
{
    matches!(
        b,
        CONTINUE
            | SUCCESS..=PARTIAL_CONTENT
            | MULTIPLE_CHOICES..=USE_PROXY
            | BAD_REQUEST..=HTTP_VERSION_NOT_SUPPORTED
            | DATABASE_FULL..=DATABASE_LOCKED,
    )
}

// Tells whether `b` lies in the range of the success codes, as the source tests it; not every number of the range is a code.
#[tactic(auto, unfolding(crate::specs::Codes::is_success))]
pub fn is_success(b: u8) -> bool
    ensures { result ≡ is_success b }
{
    matches!(b, SUCCESS..=0x2F)
}

// Returns the byte that is sent for `code`: the code with the Final bit, which OBEX responses always set.
pub fn to_byte(code: u8) -> u8
    ensures { result ≡ sent_code code }
{
    code | FINAL_BIT
}
