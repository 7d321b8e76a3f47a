// What this host answers: files for Puts and Gets, codes without headers for the rest, no password and no credentials.
use crate::file::Opened;
use crate::folder::folder_of;
use crate::{file, log};
use engine::calls;
use files::path::front;
use packet::response::SUCCESS;
use server::{CallResult, Engine, HostRequest};
use std::env::Env;
use std::fs::Files;
use std::io;
use std::io::Read;
use std::random::RandomSource;

// How many bytes of a file are read at most at once: a packet never has room for more.
pub const CHUNK: usize = 65536;

// The system's number of the error of a file that is not open.
const EBADF: i32 = 9;

// Writes a Put's body to the file of its Name, in the folder of the service that the request names, and replies with what became of it.
fn put<R: Env + Files + RandomSource>(
    rt: &R,
    err: &impl Print,
    process: u32,
    e: Engine,
    kept: usize,
    content: Option<usize>,
    tables: &mut [u64; 320],
    packet: &mut [u8; 65535],
    headers: &mut [u8; 65535],
    body: &mut [u8; 1048576],
    reply: &mut [u8; 65535],
) -> CallResult {
    let folder = folder_of(rt, e.target);
    let code = file::put_body(
        rt,
        err,
        process,
        folder,
        front(headers, kept),
        content,
        body,
    );
    calls::reply_given(e, code, b"", tables, packet, headers, body, reply)
}

// Gives the engine an object if the file of a Get could be opened, which is sent from then on, and otherwise the code that says why not.
fn give<F: Drop>(
    sent: &mut Option<F>,
    e: Engine,
    opened: Opened<F>,
    tables: &mut [u64; 320],
    packet: &mut [u8; 65535],
    headers: &mut [u8; 65535],
    body: &mut [u8; 1048576],
    reply: &mut [u8; 65535],
) -> CallResult {
    match opened {
        Opened::File(file) => {
            *sent = Some(file);
            calls::object_given(e, b"", true, packet, headers, body, reply)
        }
        Opened::Code(code) => calls::reply_given(
            e, code, b"", tables, packet, headers, body, reply,
        ),
    }
}

// Answers a Get with the file of its Name, in the folder of the service that the request names.
fn get<R: Files>(
    rt: &R,
    err: &impl Print,
    sent: &mut Option<R::File>,
    e: Engine,
    kept: usize,
    tables: &mut [u64; 320],
    packet: &mut [u8; 65535],
    headers: &mut [u8; 65535],
    body: &mut [u8; 1048576],
    reply: &mut [u8; 65535],
) -> CallResult {
    let opened = file::get(rt, err, folder_of(rt, e.target), front(headers, kept));
    *sent = None;
    give(sent, e, opened, tables, packet, headers, body, reply)
}

// Reads once, at most `room` bytes.
fn read_some<F: Read>(sent: &mut Option<F>, room: usize, store: &mut [u8]) -> io::Result<usize> {
    let Some(file) = sent else {
        return Err(io::Error::from_raw_os_error(EBADF));
    };
    if room < store.len() {
        return file.read(&mut store[0..room]);
    }
    file.read(store)
}

// Reads once, at most `room` bytes. A file that cannot be read, which is told, or gives no more bytes, is closed.
fn read_on<F: Read + Drop>(
    err: &impl Print,
    sent: &mut Option<F>,
    room: usize,
    store: &mut [u8],
) -> io::Result<usize> {
    let got = read_some(sent, room, store);
    match &got {
        Ok(n) => {
            if *n == 0 {
                *sent = None;
            }
        }
        Err(e) => {
            log::get_failed(err, e);
            *sent = None;
        }
    }
    got
}

// Answers with the next bytes of the file, as many as the reply has room for, and none at its end, or tells the engine that the file cannot
// be read on. `chunk` is where they are read to.
fn read<F: Read + Drop>(
    err: &impl Print,
    sent: &mut Option<F>,
    e: Engine,
    room: usize,
    chunk: &mut [u8; CHUNK],
    packet: &mut [u8; 65535],
    headers: &mut [u8; 65535],
    body: &mut [u8; 1048576],
    reply: &mut [u8; 65535],
) -> CallResult {
    match read_on(err, sent, room, chunk) {
        Ok(n) => calls::body_given(e, front(chunk, n), packet, headers, body, reply),
        Err(_) => calls::body_failed(e, packet, headers, body, reply),
    }
}

// Answers a request. `sent` is the file that is being sent, which any request but a Put and a Read ends. SetPath is granted and does
// nothing: clients send it first, and there is one folder for a service.
pub(crate) fn answer<R: Env + Files + RandomSource>(
    rt: &R,
    err: &impl Print,
    sent: &mut Option<R::File>,
    process: u32,
    e: Engine,
    request: HostRequest,
    chunk: &mut [u8; CHUNK],
    tables: &mut [u64; 320],
    packet: &mut [u8; 65535],
    headers: &mut [u8; 65535],
    body: &mut [u8; 1048576],
    reply: &mut [u8; 65535],
) -> CallResult {
    match request {
        HostRequest::Put {
            kept,
            body: content,
        } => put(
            rt, err, process, e, kept, content, tables, packet, headers, body, reply,
        ),
        HostRequest::Get { kept } => get(
            rt, err, sent, e, kept, tables, packet, headers, body, reply,
        ),
        HostRequest::Read { room } => read(err, sent, e, room, chunk, packet, headers, body, reply),
        HostRequest::SetPath {
            length: _,
            backup: _,
            no_create: _,
        } => {
            log::request(err, request);
            let took = calls::reply_given(e, SUCCESS, b"", tables, packet, headers, body, reply);
            *sent = None;
            took
        }
        _ => {
            log::request(err, request);
            let took = host::answers::answer(rt, e, request, tables, packet, headers, body, reply);
            *sent = None;
            took
        }
    }
}
