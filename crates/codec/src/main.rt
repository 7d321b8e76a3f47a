// Answers stored questions on the records below the engine, a line each, in the words of the original's `oracle leaf`.
#![tactic(auto)]

ghost use Rattle.std.specs.Prelude.{◌<◌};

mod digests;
mod headers;
mod packets;
mod show;
mod unsent;

use digests::{challenge, digest, respond, response_list, verify, write_challenge};
use headers::{put_headers, tags};
use lines::input::lines_of;
use lines::word::{byte_at, number, unhex, word_of};
use packets::{answered, code, fields_of, first, packet_length, parsed, reply, request};
use show::Pieces;
use std::io;
use std::io::Write;
use unsent::queue;

// What a line asks about.
#[derive(Clone, Copy)]
enum Question {
    First,
    Code,
    Length,
    Tags,
    Headers,
    Packet,
    Challenge,
    ResponseList,
    Verify,
    WriteChallenge,
    Respond,
    Request,
    Response,
    Digest,
    Answer,
    ConnectAnswer,
    Queue,
}

// A word that names no question.
#[derive(Clone, Copy)]
struct UnknownQuestion;

impl TryFrom<&[u8]> for Question {
    type Error = UnknownQuestion;

    fn try_from(word: &[u8]) -> Result<Self, UnknownQuestion> {
        Ok(match word {
            b"first" => Question::First,
            b"code" => Question::Code,
            b"length" => Question::Length,
            b"tags" => Question::Tags,
            b"headers" => Question::Headers,
            b"packet" => Question::Packet,
            b"challenge" => Question::Challenge,
            b"response-list" => Question::ResponseList,
            b"verify" => Question::Verify,
            b"write-challenge" => Question::WriteChallenge,
            b"respond" => Question::Respond,
            b"request" => Question::Request,
            b"response" => Question::Response,
            b"digest" => Question::Digest,
            b"answer" => Question::Answer,
            b"connect-answer" => Question::ConnectAnswer,
            b"queue" => Question::Queue,
            _ => return Err(UnknownQuestion),
        })
    }
}

// Returns `value`, or nothing if `word` is the one that says that there is none.
fn unless<'a>(word: &[u8], none: &[u8], value: &'a [u8]) -> Option<&'a [u8]> {
    if word == none { None } else { Some(value) }
}

// Answers the line `s`, of which `a` to `d` are the words 1 to 4 as bytes.
fn answer(
    out: &mut impl Write,
    s: &[u8],
    a: &[u8],
    b: &[u8],
    c: &[u8],
    d: &[u8],
) -> io::Result<()> {
    let Ok(question) = Question::try_from(word_of(s, 0)) else {
        return write!(out, "bad question");
    };
    match question {
        Question::First => first(out, byte_at(a, 0)),
        Question::Code => code(out, byte_at(a, 0)),
        Question::Length => packet_length(out, a),
        Question::Tags => tags(out, a),
        Question::Headers => put_headers(out, a),
        Question::Packet => parsed(out, a),
        Question::Challenge => challenge(out, a),
        Question::ResponseList => response_list(out, a),
        Question::Verify => verify(out, a, b, c),
        Question::WriteChallenge => write_challenge(
            out,
            a,
            word_of(s, 2) == b"1".as_slice(),
            word_of(s, 3) == b"1".as_slice(),
            unless(word_of(s, 4), b"none", d),
        ),
        Question::Respond => respond(out, a, unless(word_of(s, 2), b"nouser", b), c),
        Question::Request => request(
            out,
            byte_at(a, 0),
            word_of(s, 2) == b"final".as_slice(),
            fields_of(unless(word_of(s, 3), b"default", c)),
            d,
        ),
        Question::Response => reply(out, byte_at(a, 0), unless(word_of(s, 3), b"none", c), d),
        Question::Digest => digest(out, a, b),
        Question::Answer => answered(out, a, false),
        Question::ConnectAnswer => answered(out, a, true),
        Question::Queue => queue(
            out,
            number(word_of(s, 1)),
            b,
            unless(word_of(s, 3), b"none", c),
            word_of(s, 4),
        ),
    }
}

// Answers the line `s`, whose words 1 to 4 stand for at most `N` bytes each.
fn line_within<const N: usize>(out: &mut impl Write, s: &[u8]) -> io::Result<()>
    requires { N < 1000000 }
{
    let mut a = [0u8; N];
    let mut b = [0u8; N];
    let mut c = [0u8; N];
    let mut d = [0u8; N];
    let na = unhex(word_of(s, 1), &mut a);
    let nb = unhex(word_of(s, 2), &mut b);
    let nc = unhex(word_of(s, 3), &mut c);
    let nd = unhex(word_of(s, 4), &mut d);
    answer(out, s, &a[..na], &b[..nb], &c[..nc], &d[..nd])
}

// Answers one line. A line of less than 2000 bytes without a group has short words.
fn line(out: &mut impl Write, s: &[u8], is_cut: bool) -> io::Result<()> {
    if is_cut {
        return write!(out, "bad question\n");
    }
    if s.len() < 2000 && !s.contains(&b'*') {
        line_within::<1024>(out, s)?;
    } else {
        line_within::<140000>(out, s)?;
    }
    write!(out, "\n")
}

// Answers the lines of standard input. A line that is longer than the store is no question.
fn main(rt: HostRuntime) {
    let mut input = [0u8; 300000];
    let mut out = Pieces { to: &rt };
    lines_of(&mut rt.stdin(), &mut input, |s, is_cut| {
        let _ = line(&mut out, s, is_cut);
    });
}
