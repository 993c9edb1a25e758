ghost use Rattle.std.specs.Prelude.{◌≡◌, map, string_bytes, IfOk};
ghost use Rattle.denovo_c.specs.Words.{block_words};

use dn_base::Memory;
use std::alloc::Global;

/// The arguments that a block of bytes holds, each ended by a zero byte; the last one may lack it. Where a word isn't UTF-8, each
/// fault of it is replaced by U+FFFD, which no command takes.
///
/// # Errors
/// `Memory` if there is no room for the words.
pub fn words_in(alloc: Global, block: &[u8]) -> Result<Vec<String>, Memory>
    ensures { IfOk result (λ words. map string_bytes words.items ≡ block_words block.now) }
{
    let mut words = Vec::new(alloc);
    let mut begun = Vec::new(alloc);
    for byte in block {
        if *byte == 0 {
            words.push(String::from_utf8_lossy(alloc, begun.as_slice())?)?;
            begun.clear();
        } else {
            begun.push(*byte)?;
        }
    }
    let last = begun.as_slice();
    if !last.is_empty() {
        words.push(String::from_utf8_lossy(alloc, last)?)?;
    }
    Ok(words)
}
