ghost use Rattle.std.specs.Prelude.{◌≡◌, ℕ, map, replicate, ◌+◌, ◌*◌, ◌/◌, ◌%◌, ◌<◌, ◌≤◌, ◌&&◌, ◌==◌, nat_lt, Some, None, IfOk, length, slice_get, slice_set, option_copied, if◌then◌else◌};
ghost use Rattle.queue_lock.specs.Lock.{Lock, free_lock, acquired, released};
ghost use Rattle.message_net.specs.Mail.{to_core};
ghost use Rattle.registry_bank.specs.declared.bank.BankWord.TheVariants.{Home};
ghost use Rattle.registry_bank.specs.Bank.{BankParts, initial_bank, own_of, is_here, bank_word, bank_lock, lock_index, with_word, with_lock, reads, registers, takes_back, acquires, releases, grants, hands_on, from_core, bank_gets};

use dn_base::{BankId, CoreId, LockId, MOST_WORDS, Memory, WordId, quotient, remainder};
use message_net::{Message, Outgoing};
use queue_lock::LockHome;
use std::alloc::Global;
use std::marker::Model;
use write_signature::Signature;

/// What a bank holds for one of its words.
#[derive(Clone, Copy, Debug, PartialEq, Eq)]
pub enum BankWord {
    /// The value of the word.
    Home(u32),
    /// The core that has the word registered, and so its value.
    Reg(CoreId),
}

/// A bank of the shared memory. Number `n` of the words, or of the locks, has its home at bank `n mod banks`.
///
/// Contracts see the bank's number, how many banks and cores there are, and the bank's words and locks in their order.
#[derive(Drop)]
pub struct Bank {
    bank: BankId,
    banks: u32,
    cores: u32,
    words: Vec<BankWord>,
    locks: Vec<LockHome>,
}

impl Model for Bank {
    ghost use Rattle.std.specs.Prelude.{◌<◌, ◌≤◌};
    ghost use Rattle.registry_bank.specs.Bank.{BankParts};

    ghost Value = { BankParts };

    ghost view = { λ b. record { bank = b.bank.0; banks = b.banks; cores = b.cores; words = b.words.items; locks = b.locks.items } };

    ghost invariant = { λ b. 0 < b.banks };
}

/// A message to a core.
#[inline(always)]
fn send(core: CoreId, message: Message) -> Option<Outgoing>
    ensures { result ≡ to_core core message }
{
    Some(Outgoing::to_core(core, message))
}

/// The words of a bank, in their order, when a run begins.
fn own_words(alloc: Global, bank: u32, banks: u32, memory: &[u32]) -> Result<Vec<BankWord>, Memory>
    requires bank { bank < banks }
    requires banks { banks ≤ 16 }
    requires memory { length memory.now ≤ MOST_WORDS }
    ensures { IfOk result (λ words. words.items ≡ map (λ (value : ℕ). Home value) (own_of bank banks 0 memory.now)) }
{
    let mut words = Vec::new(alloc);
    let mut next = bank as usize;
    while next < memory.len() {
        words.push(BankWord::Home(memory[next]))?;
        next += banks as usize;
    }
    Ok(words)
}

/// The locks of a bank, in their order, when a run begins.
fn own_locks(
    alloc: Global,
    bank: u32,
    banks: u32,
    cores: u32,
    locks: u32,
) -> Result<Vec<LockHome>, Memory>
    requires bank { bank < banks }
    requires banks { banks ≤ 16 }
    requires some { 1 ≤ cores }
    requires cores { cores ≤ 16 }
    requires locks { locks ≤ 32 }
    ensures { IfOk result (λ homes. homes.items ≡ own_of bank banks 0 (replicate locks (free_lock cores))) }
{
    let mut homes = Vec::new(alloc);
    let mut next = bank;
    while next < locks {
        homes.push(LockHome::new(alloc, cores)?)?;
        next += banks;
    }
    Ok(homes)
}

/// The core asks for the lock at this place, and is granted it where it is free.
fn acquire_at(locks: &mut [LockHome], place: usize, lock: LockId, core: CoreId) -> Option<Outgoing>
    requires { place < length locks.old }
    ensures { (state : Lock) → slice_get locks.old place ≡ Some state
        → (locks.new ≡ slice_set locks.old place (acquired state core).0) × (result ≡ grants lock core (acquired state core).1) }
{
    let home = &mut locks[place];
    let signature = home.acquire(core)?;
    send(core, Message::Grant { lock, signature })
}

/// The core gives up the lock at this place, and the first that waits for it is granted it.
fn release_at(
    locks: &mut [LockHome],
    place: usize,
    lock: LockId,
    core: CoreId,
    signature: Signature,
) -> Option<Outgoing>
    requires { place < length locks.old }
    ensures { (state : Lock) → slice_get locks.old place ≡ Some state
        → (locks.new ≡ slice_set locks.old place (released state core signature).0) × (result ≡ hands_on lock (released state core signature).1) }
{
    let home = &mut locks[place];
    let (next, signature) = home.release(core, signature)?;
    send(next, Message::Grant { lock, signature })
}

impl Bank {
    /// Bank `bank` of a machine with `banks` banks and `cores` cores, 1 to 16 each. `memory` is the whole initial memory, of at
    /// most 65,536 words, and `locks`, at most 32, the number of all locks; the bank keeps its own part of both. Each of its
    /// words has its value, and each of its locks is free.
    ///
    /// # Errors
    /// `Memory` where there is no room.
    pub fn new(
        alloc: Global,
        bank: BankId,
        banks: u32,
        cores: u32,
        memory: &[u32],
        locks: u32,
    ) -> Result<Bank, Memory>
        requires bank { bank.0 < banks }
        requires banks { banks ≤ 16 }
        requires some { 1 ≤ cores }
        requires cores { cores ≤ 16 }
        requires memory { length memory.now ≤ MOST_WORDS }
        requires locks { locks ≤ 32 }
        ensures { IfOk result (λ b. b ≡ initial_bank bank.0 banks cores memory.now locks) }
    {
        Ok(Bank {
            bank,
            banks,
            cores,
            words: own_words(alloc, bank.0, banks, memory)?,
            locks: own_locks(alloc, bank.0, banks, cores, locks)?,
        })
    }

    /// The bank's number. Takes no memory.
    pub fn number(&self) -> BankId
        ensures { result.0 ≡ self.now.bank }
    {
        self.bank
    }

    /// What the bank holds for a word; None exactly where the word isn't one of this bank's. Takes no memory.
    #[inline(always)]
    pub fn word(&self, word: WordId) -> Option<BankWord>
        ensures { result ≡ bank_word self.now word.0 }
    {
        if remainder(word.0, self.banks) == self.bank.0 {
            self.words
                .get(quotient(word.0, self.banks) as usize)
                .copied()
        } else {
            None
        }
    }

    /// A lock at its home; None exactly if the bank isn't the lock's home. Takes no memory.
    pub fn lock(&self, lock: LockId) -> Option<&LockHome>
        ensures { option_copied result ≡ bank_lock self.now lock.0 }
    {
        if remainder(lock.0, self.banks) == self.bank.0 {
            self.locks.get(quotient(lock.0, self.banks) as usize)
        } else {
            None
        }
    }

    /// Gives one of the bank's words another content.
    #[inline(always)]
    fn put(&mut self, word: WordId, content: BankWord)
        requires { word.0 / self.old.banks < length self.old.words }
        ensures { self.new ≡ with_word self.old word.0 content }
    {
        self.words[quotient(word.0, self.banks) as usize] = content;
    }

    /// A core asks for the value of a word: it gets it, or the registrant is told to send it.
    #[inline(always)]
    fn read(&self, word: WordId, reader: CoreId) -> Option<Outgoing>
        ensures { result ≡ (reads self.now word reader (bank_word self.now word.0)).1 }
    {
        match self.word(word)? {
            BankWord::Home(value) => send(reader, Message::DataReply { word, value }),
            BankWord::Reg(registrant) => send(registrant, Message::ReadFwd { word, reader }),
        }
    }

    /// A core asks to be the registrant of a word, and becomes it; an earlier registrant is told.
    #[inline(always)]
    fn register(&mut self, word: WordId, core: CoreId) -> Option<Outgoing>
        ensures bank { self.new ≡ (registers self.old word core (bank_word self.old word.0)).0 }
        ensures sent { result ≡ (registers self.old word core (bank_word self.old word.0)).1 }
    {
        let content = self.word(word)?;
        self.put(word, BankWord::Reg(core));
        match content {
            BankWord::Reg(registrant) if registrant != core => send(
                registrant,
                Message::RegFwd { word, core },
            ),
            _ => send(core, Message::RegAck { word }),
        }
    }

    /// A core writes a word back. Its value is taken if the core is the registrant; the core is acknowledged in any case.
    fn take_back(&mut self, word: WordId, value: u32, core: CoreId) -> Option<Outgoing>
        ensures bank { self.new ≡ (takes_back self.old word value core (bank_word self.old word.0)).0 }
        ensures sent { result ≡ (takes_back self.old word value core (bank_word self.old word.0)).1 }
    {
        if self.word(word)? == BankWord::Reg(core) {
            self.put(word, BankWord::Home(value));
        }
        send(core, Message::WbAck { word })
    }

    /// The index of a lock among the bank's own; None if the bank isn't its home.
    fn lock_index(&self, lock: LockId) -> Option<usize>
        ensures { result ≡ lock_index self.now lock.0 }
    {
        let index = quotient(lock.0, self.banks) as usize;
        if remainder(lock.0, self.banks) == self.bank.0 && index < self.locks.len() {
            Some(index)
        } else {
            None
        }
    }

    /// A core asks for a lock, and is granted it where it is free.
    fn acquire(&mut self, lock: LockId, core: CoreId) -> Option<Outgoing>
        ensures bank { self.new ≡ (acquires self.old lock core (bank_lock self.old lock.0)).0 }
        ensures sent { result ≡ (acquires self.old lock core (bank_lock self.old lock.0)).1 }
    {
        let index = self.lock_index(lock)?;
        acquire_at(self.locks.as_mut_slice(), index, lock, core)
    }

    /// A core gives up a lock, and the first that waits for it is granted it.
    fn release(&mut self, lock: LockId, core: CoreId, signature: Signature) -> Option<Outgoing>
        ensures bank { self.new ≡ (releases self.old lock core signature (bank_lock self.old lock.0)).0 }
        ensures sent { result ≡ (releases self.old lock core signature (bank_lock self.old lock.0)).1 }
    {
        let index = self.lock_index(lock)?;
        release_at(self.locks.as_mut_slice(), index, lock, core, signature)
    }

    /// The bank's answer to a message, which may change what it holds.
    ///
    /// A read of a word that is at home is answered with its value; otherwise it is forwarded to the word's registrant. A core
    /// that asks to register a word becomes its registrant at once. The bank tells it so, or tells an earlier registrant, which
    /// then tells the core. A write-back changes the word only if it comes from the registrant, but is always acknowledged.
    /// Acquires and releases change the lock; a core that gets the lock by one is sent a grant.
    ///
    /// Nothing happens if the word, the lock or the core isn't this bank's or this machine's, and for all other kinds of
    /// message. Takes no memory.
    #[tactic(auto, unfolding(crate::specs::Bank::bank_gets))]
    #[inline(always)]
    pub fn handle(&mut self, message: Message) -> Option<Outgoing>
        ensures bank { self.new ≡ (bank_gets self.old message).0 }
        ensures sent { result ≡ (bank_gets self.old message).1 }
    {
        match message {
            Message::ReadReq { word, reader } if reader.0 < self.cores => self.read(word, reader),
            Message::RegReq { word, core } if core.0 < self.cores => self.register(word, core),
            Message::WriteBack { word, value, core } if core.0 < self.cores => self.take_back(
                word, value, core,
            ),
            Message::Acquire { lock, core } if core.0 < self.cores => self.acquire(lock, core),
            Message::Release {
                lock,
                core,
                signature,
            } if core.0 < self.cores => self.release(lock, core, signature),
            _ => None,
        }
    }
}

/// Compiles only if the type may be sent to another thread and shared with it.
fn crosses<T: Send + Sync>(_value: &T) {}

/// A bank may be sent to another thread, and shared with it. Nobody calls this; the check of its body proves it.
fn bank_crosses(bank: &Bank) {
    crosses(bank);
}
