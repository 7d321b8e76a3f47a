// The order in which a record is filed (docs/ARCHIVE.md, "Filing a record").
ghost use Rattle.std.specs.Prelude.{◌≡◌};
ghost use Rattle.filing.specs.Plan.{next_step, code_for};

use packet::response::{DATABASE_FULL, DATABASE_LOCKED, SUCCESS};

// A step of a filing.
#[derive(Clone, Copy)]
pub enum Step {
    // The part folder is made.
    MakePart,
    // A file is made, written, synchronised and closed: the headers, the body, the note.
    WriteHeaders,
    WriteBody,
    WriteNote,
    // The part folder's names are synchronised; so is the log.
    SyncPart,
    SyncLog,
    // The part folder takes the record's name.
    Rename,
    // The session folder's names are synchronised.
    SyncSession,
    // No step: each went well, and the record is filed.
    Filed,
}

// How a filing came out.
#[derive(Clone, Copy)]
pub struct Filing {
    // Every step was carried out and went well.
    pub filed: bool,
    // A step failed for want of room.
    pub full: bool,
}

// Returns the step behind `step`.
pub fn next_step(step: Step, has_body: bool) -> Step
    ensures { result ≡ next_step step has_body }
{
    match step {
        Step::MakePart => Step::WriteHeaders,
        Step::WriteHeaders => if has_body {
            Step::WriteBody
        } else {
            Step::WriteNote
        },
        Step::WriteBody => Step::WriteNote,
        Step::WriteNote => Step::SyncPart,
        Step::SyncPart => Step::SyncLog,
        Step::SyncLog => Step::Rename,
        Step::Rename => Step::SyncSession,
        Step::SyncSession => Step::Filed,
        Step::Filed => Step::Filed,
    }
}

// Returns the code of the answer to a Put: success only if the record is filed.
pub fn code_for(filing: Filing) -> u8
    ensures { result ≡ code_for filing.filed filing.full }
{
    if filing.filed {
        return SUCCESS;
    }
    if filing.full {
        return DATABASE_FULL;
    }
    DATABASE_LOCKED
}
