ghost use Rattle.std.specs.Prelude.{◌≡◌, ◌<◌, [], IfOk, OnOk};
ghost use Rattle.registration_protocol.specs.Setting.{setting};
ghost use Rattle.machine_rules.specs.State.{home_at};
ghost use Rattle.machine_rules.specs.Memory.{kept_value, word_value, memory_of};
ghost use Rattle.dn_machine.specs.Content.{state_of};

use crate::content::Content;
use crate::{pending_among, value_at};
use dn_base::{Memory, WordId, remainder};
use registration_protocol::Context;
use registry_bank::BankWord;
use std::alloc::Global;

impl Content {
    /// What the home of a word holds for it; None where there is nothing.
    fn home(&self, context: &Context<'_>, word: WordId) -> Option<BankWord>
        requires banks { 0 < (setting context.now).shape.banks }
        ensures { result ≡ home_at (state_of (setting context.now) self.now) word.0 }
    {
        let place = remainder(word.0, context.shape.banks);
        match self.banks.as_slice().get(place as usize) {
            Some(bank) => bank.word(word),
            None => None,
        }
    }

    /// The value that the home of a word holds, or that its owner's entry has.
    fn kept_value(&self, context: &Context<'_>, word: WordId) -> u32
        requires banks { 0 < (setting context.now).shape.banks }
        ensures { result ≡ kept_value (state_of (setting context.now) self.now) word.0 (home_at (state_of (setting context.now) self.now) word.0) }
    {
        match self.home(context, word) {
            None => 0,
            Some(BankWord::Home(value)) => value,
            Some(BankWord::Reg(core)) => value_at(self.nodes.as_slice(), core, word),
        }
    }

    /// The value of a data word.
    #[tactic(auto, unfolding(machine_rules::specs::Memory::word_value))]
    pub(crate) fn word(&self, context: &Context<'_>, word: WordId) -> u32
        requires banks { 0 < (setting context.now).shape.banks }
        ensures { result ≡ word_value (state_of (setting context.now) self.now) word.0 }
    {
        match pending_among(self.nodes.as_slice(), word) {
            Some(value) => value,
            None => self.kept_value(context, word),
        }
    }

    /// Adds all data words to no words.
    fn push_words(&self, context: &Context<'_>, out: &mut Vec<u32>) -> Result<(), Memory>
        requires none { out.old.items ≡ [] }
        requires banks { 0 < (setting context.now).shape.banks }
        ensures { OnOk result (out.new.items ≡ memory_of (state_of (setting context.now) self.now)) }
    {
        let program = context.decoded.program();
        let words = program.memory.len() as u32;
        for word in 0..words {
            out.push(self.word(context, WordId(word)))?;
        }
        Ok(())
    }

    /// All data words.
    ///
    /// # Errors
    /// `Memory` where there is no room.
    pub(crate) fn memory(&self, alloc: Global, context: &Context<'_>) -> Result<Vec<u32>, Memory>
        requires banks { 0 < (setting context.now).shape.banks }
        ensures { IfOk result (λ memory. memory.items ≡ memory_of (state_of (setting context.now) self.now)) }
    {
        let mut memory = Vec::new(alloc);
        self.push_words(context, &mut memory)?;
        Ok(memory)
    }
}
