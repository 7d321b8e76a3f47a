// Answers questions about the parts of a record, one question a line and one answer a line. A line that is no question of these, or has not
// its form, is answered `bad question`.
#![tactic(auto)]

mod answer;
mod blocks;
mod clocks;
mod question;
mod readings;

use crate::answer::bad_question;
use crate::question::{Question, question_of};
use lines::input::lines_of;
use lines::word::{after, find};

// Answers one line. One that was cut, as longer than the store, is no question.
fn line(rt: &impl Print, s: &[u8], is_cut: bool) {
    let gap = find(s, 0, b' ');
    let rest = &s[after(s, gap)..];
    let asked = if is_cut { None } else { question_of(&s[..gap]) };
    match asked {
        Some(Question::Write) => blocks::answer(rt, blocks::write, rest),
        Some(Question::Read) => blocks::answer(rt, blocks::read, rest),
        Some(Question::Store) => readings::answer(rt, samples::encode, rest),
        Some(Question::Restore) => readings::answer(rt, samples::decode, rest),
        Some(Question::Time) => clocks::time(rt, rest),
        Some(Question::Legacy) => clocks::legacy(rt, rest),
        Some(Question::Roll) => clocks::roll(rt, rest),
        None => bad_question(rt),
    }
}

// Answers the lines of standard input. A line of 262,144 bytes and its end fit in the store.
fn main(rt: HostRuntime) {
    let mut input = [0u8; 262145];
    lines_of(
        &mut rt.stdin(),
        &mut input,
        |s, is_cut| line(&rt, s, is_cut),
    );
}
