// Blocks for the archive, for C and Rust. Each function returns the number of the answer, 0 for a result at the front of `target`. A
// result's length follows from its blocks: 512 bytes for each 490 of the body that are begun.
#![tactic(auto)]

ghost use Rattle.std.specs.Prelude.{◌≡◌};
ghost use Rattle.archive.specs.Reading.{read_into};
ghost use Rattle.archive.specs.Writing.{written};
ghost use Rattle.archive_c.specs.Told.{told, told_reading, told_writing};

// Writes the body `source` as blocks to the front of `target`.
// Stays beside `archive_read`: C calls each by its name.
#[unsafe(no_mangle)]
pub extern "C" fn archive_write(source: &[u8], target: &mut [u8]) -> usize
    ensures { told result target.new ≡ told_writing (written source.now target.old) }
{
    archive::block::wrote_number(archive::block::write(source, target))
}

// Reads the body of the blocks `source` to the front of `target`.
#[unsafe(no_mangle)]
pub extern "C" fn archive_read(source: &[u8], target: &mut [u8]) -> usize
    ensures { told result target.new ≡ told_reading (read_into source.now target.old) }
{
    archive::block::body_number(archive::block::read(source, target))
}
