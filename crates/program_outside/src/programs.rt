ghost use Rattle.std.specs.Prelude.{◌≡◌, ◌≤◌, ℕ, List, Option, Some, None, IfOk, IfErr, map, string_bytes};
ghost use Rattle.program_outside.specs.Serving.{IsEnough};
ghost use Rattle.program_outside.specs.declared.words.WordsFault.TheVariants.{Usage};

use crate::WordsFault;
use crate::ends::{EndStatus, Output};
use dn_base::Memory;
use std::alloc::Global;

/// What is made of a text, by what is asked for.
///
/// `can_answer` says what `answer` may be called for, and `IsAnswer` which outputs answer what is asked for and a text. Of a text
/// at most the first `most_read` bytes are read.
pub trait Answers {
    ghost use Rattle.program_outside.specs.declared.ends.Output.{Output};

    type Asked: Drop;

    type Status: EndStatus;

    ghost can_answer: { Self.Asked → Type 0 };

    ghost IsAnswer: { Self.Asked → List ℕ → Output Self.Status → Type 0 };

    ghost most_read: { ℕ };

    /// How many bytes of a text are read at most: one more than a text may have that isn't refused for its size. They are enough:
    /// what answers them answers the whole text.
    fn reads_at_most() -> usize
        ensures value { result ≡ most_read }
        ensures within { result ≤ 536870913 }
        ensures enough { (asked : Self.Asked) → IsEnough (IsAnswer asked) most_read };

    /// The answer to a text.
    ///
    /// # Errors
    /// `Memory` where there is no room.
    fn answer(
        alloc: Global,
        asked: &Self::Asked,
        text: &[u8],
    ) -> Result<Output<Self::Status>, Memory>
        requires { can_answer asked.now }
        ensures { IfOk result (IsAnswer asked.now text.now) };
}

/// A program whose arguments alone say what is made of the text that the source has.
///
/// `asked_by` is what words ask for, or None if the command doesn't take them.
pub trait Program: Answers {
    ghost asked_by: { List (List ℕ) → Option Self.Asked };

    /// What the words ask for. The program's own name isn't among them.
    ///
    /// # Errors
    /// `Usage` if the command doesn't take the words, `Memory` if there is no room to read them.
    fn read_words(alloc: Global, words: &[String]) -> Result<Self::Asked, WordsFault>
        ensures taken { IfOk result (λ asked. asked_by (map string_bytes words.now) ≡ Some asked) }
        ensures ready { IfOk result Self.can_answer }
        ensures usage { IfErr result (λ fault. fault ≡ Usage → asked_by (map string_bytes words.now) ≡ None) };
}
