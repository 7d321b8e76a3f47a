// The user's end: the calls on the client, and what is printed of them.
ghost use Rattle.std.specs.Prelude.{◌≤◌, length};

use crate::script::{CLIENT, Call, Lent, Moment, STORE};
use crate::show::LONGEST;
use crate::{Due, Pair};
use client::calls;
use client_model::{CallResult, Client, Outcome, Settings};
use lines::store::{between, front_mut, place};

// The client, what its last call returned, and its stores, with how much is lent of each.
#[derive(Drop)]
pub struct User {
    pub client: Client,
    pub outcome: Outcome,
    pub lent: Lent,
    pub packet: [u8; STORE],
    pub headers: [u8; STORE],
    pub body: [u8; STORE],
    request: [u8; STORE],
}

impl User {
    // Returns a user whose client has not started: it has no stores yet.
    pub(crate) fn new() -> User {
        let took = calls::start(CLIENT, &mut [], &mut [], &mut [], &mut []);
        User {
            client: took.client,
            outcome: took.outcome,
            lent: Lent::WHOLE,
            packet: [0u8; STORE],
            headers: [0u8; STORE],
            body: [0u8; STORE],
            request: [0u8; STORE],
        }
    }

    // Starts a client.
    pub(crate) fn start(&mut self, settings: Settings) {
        let took = calls::start(
            settings,
            &mut self.packet,
            &mut self.headers,
            &mut self.body,
            &mut self.request,
        );
        self.client = took.client;
        self.outcome = took.outcome;
    }

    // Makes a call with the stores as far as they are lent. `bytes` are those that it hands over.
    fn call(&mut self, call: Call, bytes: &[u8]) -> CallResult {
        let c = self.client;
        let packet = front_mut(&mut self.packet, self.lent.packet);
        let headers = front_mut(&mut self.headers, self.lent.headers);
        let body = front_mut(&mut self.body, self.lent.body);
        let request = front_mut(&mut self.request, self.lent.request);
        match call {
            Call::Connect => calls::connect(c, bytes, packet, headers, body, request),
            Call::Disconnect => calls::disconnect(c, bytes, packet, headers, body, request),
            Call::Put { has_body } => {
                calls::put(c, bytes, has_body, packet, headers, body, request)
            }
            Call::Get => calls::get(c, bytes, packet, headers, body, request),
            Call::Sent => calls::request_sent(c, packet, headers, body, request),
            Call::Body => calls::body_given(c, bytes, packet, headers, body, request),
            Call::Bytes(_) => {
                // Some bytes are put into the packet store first, as by a user that reads straight into it, so that sessions try both ways.
                let n = place(packet, c.begun, first_half(bytes));
                calls::bytes_offered(c, n, &bytes[n..], packet, headers, body, request)
            }
            Call::Taken => calls::part_taken(c, packet, headers, body, request),
            Call::Abort => calls::abort(c, packet, headers, body, request),
            Call::Ended => calls::stream_ended(c, packet, headers, body, request),
        }
    }
}

// Returns which of the bytes are put into the packet store before the call: half of them, if their number is odd.
pub(crate) fn first_half(bytes: &[u8]) -> &[u8]
    ensures { length result.now ≤ length bytes.now }
{
    if bytes.len() % 2 == 0 {
        &[]
    } else {
        &bytes[..bytes.len() / 2]
    }
}

fn room_of(outcome: Outcome) -> usize {
    if let Outcome::Read { room } = outcome {
        room
    } else {
        0
    }
}

// Whether an operation is over with an outcome, or the call that was to begin it was refused.
fn is_over(outcome: Outcome) -> bool {
    !matches!(
        outcome,
        Outcome::Send { .. } | Outcome::WantsBytes | Outcome::Read { .. } | Outcome::Part { .. }
    )
}

// Whether an Abort was refused in the midst of an operation, which goes on.
fn goes_on(call: Call, is_named: bool, outcome: Outcome) -> bool {
    !is_named && matches!(call, Call::Abort) && matches!(outcome, Outcome::Refused(_))
}

impl Pair {
    // Makes a call on the client: prints what comes before it, passes a packet on, makes the call and prints what it returned. `is_named`
    // says that a line of the script names the call.
    pub(crate) fn call(&mut self, call: Call, is_named: bool) {
        let before = self.user.outcome;
        if is_named {
            self.print_words(call);
        } else {
            self.print_before(call);
        }
        if let Call::Sent = call {
            self.send();
        }
        let took = match call {
            Call::Bytes(n) => self.user.call(call, self.down.front(n)),
            Call::Body => self.user.call(
                call,
                self.content.front(self.words.as_slice(), room_of(before)),
            ),
            _ => self
                .user
                .call(call, between(self.words.as_slice(), 0, self.headers)),
        };
        self.print_after(call, took);
        self.user.client = took.client;
        self.abort.is_due = false;
        if goes_on(call, is_named, took.outcome) {
            return;
        }
        self.user.outcome = took.outcome;
        self.due = if is_over(took.outcome) {
            Due::Line
        } else {
            Due::Link
        };
        // The client has just come to a moment, if bytes of an unfinished response were not all that came.
        self.is_fresh = took.client.begun == 0;
        match call {
            Call::Bytes(_) => self.down.take(took.taken),
            Call::Body => self.content.give(room_of(before)),
            _ => {}
        }
    }

    // Prints what comes before a call that no line of the script names.
    fn print_before(&mut self, call: Call) {
        let outcome = self.user.outcome;
        match call {
            Call::Sent => {
                self.out.put(b"up ");
                self.out.put_hex(between(&self.user.request, 0, length_of(outcome)), LONGEST);
                self.out.put(b"\n");
            }
            Call::Body => {
                self.out.put(b"read ");
                self.out.put_number(room_of(outcome));
                self.out.put(b" given ");
                self.out.put_number(self.content.size(room_of(outcome)));
                self.out.put(b"\n");
            }
            Call::Abort => match Moment::of(outcome) {
                Some(moment) => self.print_words(moment),
                None => self.print_words(call),
            },
            Call::Ended => self.print_words(call),
            _ => {}
        }
    }

    // Sends the packet in the request store up. Without a server it goes nowhere.
    fn send(&mut self) {
        if !self.is_alone {
            self.up.push(between(&self.user.request, 0, length_of(self.user.outcome)));
        }
    }

    // Prints the response that a call took the rest of, and what the call returned.
    fn print_after(&mut self, call: Call, took: CallResult) {
        if matches!(call, Call::Bytes(_)) && took.taken != 0 && took.client.begun == 0 {
            self.out.put(b"down ");
            self.out
                .put_hex(between(&self.user.packet, 0, took.client.length), LONGEST);
            self.out.put(b"\n");
        }
        self.print_outcome(took.outcome);
    }
}

fn length_of(outcome: Outcome) -> usize {
    if let Outcome::Send { length } = outcome {
        length
    } else {
        0
    }
}
