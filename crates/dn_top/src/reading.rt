ghost use Rattle.std.specs.Prelude.{◌≡◌, ◌+◌, IfOk, IfErr, IfSome};
ghost use Rattle.dn_top.specs.Command.{OptionsInRange};
ghost use Rattle.program_outside.specs.Outside.{SourceFailed, GaveAtMost, IsUntouched, source_of};
ghost use Rattle.dn_top.specs.Answers.{most_read};
ghost use Rattle.dn_top.specs.Serving.{IsObtained};

use crate::options::{Mode, Options};
use dn_base::{MOST_OF_DOCUMENT, MOST_OF_TEXT, Source};
use program_outside::{ReadError, read_text};
use std::alloc::Global;
use work_gen::work;

/// How many bytes each mode reads at most, one more than its text or document may have; `None` for a mode that generates its
/// text.
fn most_of(mode: Mode) -> Option<usize>
    ensures { result ≡ most_read mode }
{
    match mode {
        Mode::Run => Some(MOST_OF_TEXT + 1),
        Mode::Work => None,
        Mode::Check => Some(MOST_OF_TEXT + 1),
        Mode::List => Some(MOST_OF_TEXT + 1),
        Mode::Flat => Some(MOST_OF_TEXT + 1),
        Mode::Trace => Some(MOST_OF_TEXT + 1),
        Mode::Replay => Some(MOST_OF_DOCUMENT + 1),
        Mode::Time => Some(MOST_OF_TEXT + 1),
        Mode::Prove => Some(MOST_OF_TEXT + 1),
    }
}

/// The text that options are about: the generated one, or what the source has.
pub(crate) fn take_text<S: Source>(
    alloc: Global,
    options: &Options,
    source: &mut S,
) -> Result<Vec<u8>, ReadError>
    requires { OptionsInRange options.now }
    ensures text { IfOk result (λ text. IsObtained options.now (source_of S.Source source.old) (source_of S.Source source.new) text.items) }
    ensures failed { IfErr result (λ error. error ≡ ReadError.Failed
        → SourceFailed (source_of S.Source source.old) (source_of S.Source source.new)) }
    ensures memory { IfErr result (λ error. error ≡ ReadError.NoMemory → S.faults source.new ≡ S.faults source.old) }
    ensures few { IfSome (most_read options.now.mode) (GaveAtMost (source_of S.Source source.old) (source_of S.Source source.new)) }
    ensures unread { most_read options.now.mode ≡ None
        → IsUntouched (source_of S.Source source.old) (source_of S.Source source.new) }
{
    match most_of(options.mode) {
        Some(most) => read_text(alloc, most, source),
        None => Ok(work(alloc, options.size)?),
    }
}
