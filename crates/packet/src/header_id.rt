// Header ids (IrOBEX 1.5, section 2.1; the source's HeaderID). The two top bits of an id give the encoding of its value.

// The number of objects, which a Connect announces.
pub const COUNT: u8 = 0xC0;

// The name of the object, often a file name.
pub const NAME: u8 = 0x01;

// The type of the object, as a MIME type.
pub const TYPE: u8 = 0x42;

// The length of the object in bytes.
pub const LENGTH: u8 = 0xC3;

// A date and time stamp by ISO 8601, the preferred form.
pub const TIME: u8 = 0x44;

// A date and time stamp of four bytes, for compatibility only.
pub const LEGACY_TIME: u8 = 0xC4;

// A text that describes the object or the response.
pub const DESCRIPTION: u8 = 0x05;

// The name of the service that the operation is directed to.
pub const TARGET: u8 = 0x46;

// An HTTP 1.x header.
pub const HTTP: u8 = 0x47;

// A chunk of the object.
pub const BODY: u8 = 0x48;

// The last chunk of the object.
pub const END_OF_BODY: u8 = 0x49;

// The OBEX application that answers, which tells whether one talks to a peer.
pub const WHO: u8 = 0x4A;

// The connection, if several share one transport.
pub const CONNECTION_ID: u8 = 0xCB;

// Parameters of the application, a tag list.
pub const APPLICATION_PARAMETERS: u8 = 0x4C;

// A digest-challenge, a tag list.
pub const AUTHENTICATE_CHALLENGE: u8 = 0x4D;

// A digest-response, a tag list.
pub const AUTHENTICATE_RESPONSE: u8 = 0x4E;

// The creator of the object.
pub const CREATOR_ID: u8 = 0xCF;

// The network client on stateless networks.
pub const WANUUID: u8 = 0x50;

// The OBEX object class of the object.
pub const OBJECT_CLASS: u8 = 0x51;

// Parameters of session commands, a tag list.
pub const SESSION_PARAMETERS: u8 = 0x52;

// The sequence number of a packet of a reliable session.
pub const SESSION_SEQUENCE_NUMBER: u8 = 0x93;

// The action that an Action operation performs.
pub const ACTION_ID: u8 = 0x94;

// The name of the destination of an Action operation.
pub const DEST_NAME: u8 = 0x15;

// The bit masks of permissions.
pub const PERMISSIONS: u8 = 0xD6;

// Single Response Mode (SRM) is asked for or confirmed.
pub const SINGLE_RESPONSE_MODE: u8 = 0x97;

// The parameter of SRM.
pub const SINGLE_RESPONSE_MODE_PARAMETERS: u8 = 0x98;
