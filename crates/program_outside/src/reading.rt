ghost use Rattle.std.specs.Prelude.{◌≡◌, ◌≤◌, length, vec_len, Err, IfOk, IfErr, IsErr};
ghost use Rattle.program_outside.specs.Outside.{SourceFailed, GaveAtMost, IsRead, IsReadOnce, source_at, source_of};
ghost use Rattle.program_outside.specs.declared.reading.ReadError.TheVariants.{NoMemory};

use dn_base::{Failed, Memory, Source, StdSource};
use std::alloc::{AllocError, Global};
use std::io::Read;

/// Why no text was read.
#[derive(Clone, Copy)]
pub enum ReadError {
    /// A read of the source failed.
    Failed,
    /// There wasn't enough memory.
    NoMemory,
}

impl From<AllocError> for ReadError {
    ghost from_gives = { λ _ error. error ≡ NoMemory };

    fn from(_error: AllocError) -> ReadError {
        ReadError::NoMemory
    }
}

impl From<Memory> for ReadError {
    ghost from_gives = { λ _ error. error ≡ NoMemory };

    fn from(_error: Memory) -> ReadError {
        ReadError::NoMemory
    }
}

/// Up to this length in bytes the room for a text grows by doubling.
const MOST_DOUBLED: usize = 1 << 24;

/// Makes room for more of a text. A large text gets all the room that it may need at once. So no text larger than 32 MiB is
/// copied, and a text and its copy never need much more memory than the longest text does.
fn make_room(text: &mut Vec<u8>, most: usize) -> Result<(), AllocError>
    requires { length text.old.items ≤ most }
    ensures items { text.new.items ≡ text.old.items }
    ensures len { vec_len text.new ≡ vec_len text.old }
{
    if text.len() < MOST_DOUBLED {
        return Ok(());
    }
    text.reserve_exact(most - text.len())
}

/// Reads the source to its end, or until `most` bytes have come. It takes no more than these, also if it fails.
///
/// The room for the text grows by doubling up to 32 MiB. A larger text gets the room for `most` bytes at once.
///
/// # Errors
/// `Failed` if a read fails. `NoMemory` if there is no room for the text; no read has failed then.
pub fn read_text<S: Source>(
    alloc: Global,
    most: usize,
    source: &mut S,
) -> Result<Vec<u8>, ReadError>
    ensures text { IfOk result (λ text. IsRead (source_of S.Source source.old) (source_of S.Source source.new) most text.items) }
    ensures failed { IfErr result (λ error. error ≡ ReadError.Failed
        → SourceFailed (source_of S.Source source.old) (source_of S.Source source.new)) }
    ensures memory { IfErr result (λ error. error ≡ ReadError.NoMemory → S.faults source.new ≡ S.faults source.old) }
    ensures few { GaveAtMost (source_of S.Source source.old) (source_of S.Source source.new) most }
{
    let mut text = Vec::new(alloc);
    let mut buf = [0; 4096];
    while text.len() < most {
        make_room(&mut text, most)?;
        let want = (most - text.len()).min(4096);
        match source.read(&mut buf[..want]) {
            Ok(0) => return Ok(text),
            Ok(count) => text.extend_from_slice(&buf[..count])?,
            Err(Failed) => return Err(ReadError::Failed),
        }
    }
    Ok(text)
}

/// Reads what was opened to its end, or until `most` bytes have come.
///
/// # Errors
/// `Failed` if it couldn't be opened, or a read fails. `NoMemory` if there is no room for the text.
pub fn read_opened<R: Read + Drop, E: Drop>(
    alloc: Global,
    most: usize,
    opened: Result<R, E>,
) -> Result<Vec<u8>, ReadError>
    ensures unopened { IsErr opened → result ≡ Err ReadError.Failed }
    ensures text { IfOk opened (λ reader. IfOk result (λ text. IsReadOnce (source_at (R.remaining reader) 0) most text.items)) }
    ensures within { IfOk result (λ text. length text.items ≤ most) }
{
    match opened {
        Ok(reader) => read_text(alloc, most, &mut StdSource::new(reader)),
        Err(_) => Err(ReadError::Failed),
    }
}
