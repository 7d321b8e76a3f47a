// The verdict on a record, by what the client was answered and what is filed.
ghost use Rattle.std.specs.Prelude.{◌≡◌};
ghost use Rattle.audit.specs.Verdict.{is_same, absent_word, there_word, word_of, one_more, is_grave, is_kept, counted_by, with_grave, added};

use crate::compare::What;
use std::num::wrapping_add_usize;

// The code of success without its top bit.
const SUCCESS: usize = 0x20;

// What is found of a record below the session's folder.
#[derive(Clone, Copy)]
pub(crate) enum Found {
    // Neither its folder nor a part of it.
    Absent,
    // A folder that did not get the record's name.
    Part,
    // Its folder, which is this beside the log.
    There(What),
}

// The verdict.
#[derive(Clone, Copy)]
pub(crate) enum Word {
    // The client was told success, and the record is not there.
    Missing,
    NotFiled,
    // Not filed to its end.
    NotFiledPart,
    Same,
    // The client was not told success, and the record is there.
    SameFiled,
    Differs(What),
}

// How many records there are, how many are as the log has them, and how many grave words were said.
#[derive(Clone, Copy)]
pub(crate) struct Counts {
    pub records: usize,
    pub same: usize,
    pub grave: usize,
}

// Tells whether nothing differs.
pub(crate) fn is_same(what: What) -> bool
    ensures { result ≡ is_same what }
{
    matches!(what, What::Same)
}

// Returns the verdict on a record that has no folder of its name.
fn absent_word(code: usize, has_part: bool) -> Word
    ensures { result ≡ absent_word code has_part }
{
    if code == SUCCESS {
        return Word::Missing;
    }
    if has_part {
        return Word::NotFiledPart;
    }
    Word::NotFiled
}

// Returns the verdict on a record that has a folder of its name.
fn there_word(code: usize, what: What) -> Word
    ensures { result ≡ there_word code what }
{
    if !is_same(what) {
        return Word::Differs(what);
    }
    if code == SUCCESS {
        return Word::Same;
    }
    Word::SameFiled
}

// Returns the verdict on a record that was answered with `code`.
pub(crate) fn word_of(code: usize, found: Found) -> Word
    ensures { result ≡ word_of code found }
{
    match found {
        Found::Absent => absent_word(code, false),
        Found::Part => absent_word(code, true),
        Found::There(what) => there_word(code, what),
    }
}

// Tells whether a verdict is grave.
pub(crate) fn is_grave(word: Word) -> bool
    ensures { result ≡ is_grave word }
{
    matches!(word, Word::Missing | Word::Differs(_))
}

// Tells whether a record is filed as the log has it.
fn is_kept(word: Word) -> bool
    ensures { result ≡ is_kept word }
{
    matches!(word, Word::Same | Word::SameFiled)
}

// Returns `n`, and one more if `b`.
fn plus(n: usize, b: bool) -> usize
    ensures { result ≡ one_more n b }
{
    if b {
        return wrapping_add_usize(n, 1);
    }
    n
}

// Returns the counts with one record more.
pub(crate) fn counted(c: Counts, word: Word) -> Counts
    ensures { result ≡ counted_by c word }
{
    Counts {
        records: plus(c.records, true),
        same: plus(c.same, is_kept(word)),
        grave: plus(c.grave, is_grave(word)),
    }
}

// Returns the counts with one grave word more, if `b`.
pub(crate) fn with_grave(c: Counts, b: bool) -> Counts
    ensures { result ≡ with_grave c b }
{
    Counts {
        grave: plus(c.grave, b),
        ..c
    }
}

// Returns the counts of two sessions together.
pub(crate) fn added(a: Counts, b: Counts) -> Counts
    ensures { result ≡ added a b }
{
    Counts {
        records: wrapping_add_usize(a.records, b.records),
        same: wrapping_add_usize(a.same, b.same),
        grave: wrapping_add_usize(a.grave, b.grave),
    }
}
