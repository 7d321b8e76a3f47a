// The digest of authentication: MD5, which IrOBEX 1.5 mandates (section 3.6.3), and the request digest made with it.
#![tactic(auto)]

pub mod md5;
