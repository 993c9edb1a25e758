ghost use Rattle.std.specs.Prelude.{◌≡◌, ℕ, List, Option, None, IfOk, IfErr, OnOk};
ghost use Rattle.dn_base.specs.Faults.{Rose};
ghost use Rattle.explain_top.specs.Texts.{IsTextRead};

use program_outside::{ReadError, read_opened};
use std::alloc::Global;
use std::fs;
use std::rt::Files;

/// Where texts with names come from.
///
/// `text` is the bytes of the text of a name, or None if they aren't told. `faults` counts the reads that failed. It never
/// falls.
pub trait Texts {
    ghost text: { Self → List ℕ → Option (List ℕ) };

    ghost faults: { Self → ℕ };

    /// Reads the text with this name to its end, or until `most` bytes have come.
    ///
    /// # Errors
    /// `Failed` if there is no text with this name, or it can't be read; this raises the count of faults, up to its greatest
    /// value. `NoMemory` if there is no room for it; the count of faults stays then.
    fn read(&mut self, alloc: Global, name: &str, most: usize) -> Result<Vec<u8>, ReadError>
        ensures text { IfOk result (λ found. IsTextRead (text self.old name.now) most found.items) }
        ensures faultless { OnOk result (faults self.new ≡ faults self.old) }
        ensures failed { IfErr result (λ error. error ≡ ReadError.Failed → Rose (faults self.old) (faults self.new)) }
        ensures memory { IfErr result (λ error. error ≡ ReadError.NoMemory → faults self.new ≡ faults self.old) };
}

/// The files of the host. It counts each file that it can't read as a fault, and doesn't tell contracts the bytes of files.
#[derive(Drop)]
pub(crate) struct HostFiles<'r, R> {
    rt: &'r R,
    faults: u64,
}

impl<'r, R: Files> HostFiles<'r, R> {
    /// The files of this runtime, with no fault so far.
    pub(crate) fn new(rt: &'r R) -> HostFiles<'r, R> {
        HostFiles { rt, faults: 0 }
    }
}

impl<'r, R: Files> Texts for HostFiles<'r, R> {
    ghost text = { λ _ _. None };

    ghost faults = { λ s. s.faults };

    fn read(&mut self, alloc: Global, name: &str, most: usize) -> Result<Vec<u8>, ReadError> {
        let read = read_opened(alloc, most, fs::open(self.rt, name));
        if let Err(ReadError::Failed) = read {
            self.faults = self.faults.saturating_add(1);
        }
        read
    }
}
