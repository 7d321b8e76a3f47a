// What a receiver has decided: one value, from which the call is made and from which the log's entry is made.
use digest::md5::Octets16;

// What is known of the password that is asked for.
#[derive(Clone, Copy)]
pub enum Secret {
    // The user is known, and the password is what is lent.
    Known,
    // There is no such user.
    Unknown,
    // Eight of the last 64 checks over all connections were wrong, so that none is made: no password is right.
    Stopped,
}

// The call that is made next. The bytes that go with it are lent beside it.
#[derive(Clone, Copy)]
pub enum Answer {
    // The bytes that are lent came from the client.
    Offer,
    // The client's stream has ended.
    End,
    // The system has taken all bytes of the reply.
    Sent,
    // The request is answered with this code, and no headers.
    Reply(u8),
    // A Get is answered with an object of so many bytes, which a Length header tells.
    Object(u32),
    // The bytes that are lent are the next ones of the object, none at its end.
    Body,
    // The object cannot be read on.
    BodyFailed,
    // An Abort was heard of.
    Acknowledge,
    // A password is given, or none.
    Password(Secret),
    // A challenge is made with this nonce, and with the realm that is lent.
    Nonce(Octets16),
    // The client's challenge is answered: the first so many bytes of what is lent are the user id, if there are any, the others the password.
    Credentials(usize),
    // The client's challenge is not answered.
    NoCredentials,
}

// What is done next.
#[derive(Clone, Copy)]
pub enum Decision {
    // This call is made.
    Make(Answer),
    // No call is made any more. The number stands in the log: 81 if the client is gone, 82 if there are no random bytes.
    Leave(u8),
}
