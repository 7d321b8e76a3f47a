// Packets of the object exchange protocol (IrOBEX 1.5), leaves first: bytes that name things, tag lists, headers, whole packets, and digest
// authentication.
#![tactic(auto)]

pub mod action;
pub mod auth;
pub mod flags;
pub mod header;
pub mod header_id;
pub mod limits;
pub mod opcode;
pub mod packet;
pub mod response;
pub mod srm;
pub mod store;
pub mod tlv;
