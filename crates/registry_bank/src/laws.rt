//! Theorems of a bank's messages, for proofs about the machine. A theorem is a function without effect; its contract states the
//! theorem.
ghost use Rattle.std.specs.Prelude.{◌≡◌, ℕ, false, None, ◌<◌, ◌≤◌, ◌==◌, Some, List, if◌then◌else◌, length};
ghost use Rattle.dn_base.specs.declared.ids.CoreId.{CoreId};
ghost use Rattle.dn_base.specs.declared.ids.WordId.{WordId};
ghost use Rattle.dn_base.specs.declared.ids.LockId.{LockId};
ghost use Rattle.write_signature.specs.declared.signature.Signature.{Signature};
ghost use Rattle.queue_lock.specs.Lock.{Lock};
ghost use Rattle.message_net.specs.declared.actor.Actor.TheVariants.{Core};
ghost use Rattle.message_net.specs.declared.message.Message.{Message};
ghost use Rattle.message_net.specs.declared.message.Message.TheVariants.{ReadReq, RegReq, WriteBack, Acquire, Release};
ghost use Rattle.message_net.specs.declared.message.Outgoing.{Outgoing};
ghost use Rattle.registry_bank.specs.declared.bank.BankWord.{BankWord};
ghost use Rattle.registry_bank.specs.Bank.{BankParts, IsNewBank, IsBank, initial_bank, bank_word, bank_lock, with_word, with_lock, bank_gets, is_for_bank, after_register, after_write_back, after_acquire, after_release};

/// When a run begins, each word of the bank has its value in the initial memory, and each of its locks is free.
pub fn an_opened_bank_holds_the_first_memory()
    ensures { (bank banks cores : ℕ) (memory : List ℕ) (locks : ℕ) → bank < banks
        → IsNewBank bank banks cores memory locks (initial_bank bank banks cores memory locks) }
{}

/// A bank of a machine stays one, whatever the message, and what it sends goes to cores of the machine.
pub fn a_bank_stays_the_machines()
    ensures initial { (bank banks cores : ℕ) (memory : List ℕ) (locks : ℕ) → bank < banks → IsBank (initial_bank bank banks cores memory locks) }
    ensures kept { (b : BankParts) (m : Message) → IsBank b → IsBank (bank_gets b m).0 }
    ensures answers { (b : BankParts) (m : Message) (out : Outgoing) → IsBank b → (bank_gets b m).1 ≡ Some out
        → (core : CoreId) × (out.to ≡ Core core) × (core.0 < b.cores) }
{}

/// A message of a kind that banks don't handle changes nothing.
pub fn other_kinds_change_nothing()
    ensures { (b : BankParts) (m : Message) → is_for_bank m ≡ false → bank_gets b m ≡ (b, None) }
{}

/// If one word of a bank changes, no other word changes, and no lock.
pub fn a_word_changes_alone()
    ensures words { (b : BankParts) (w v : ℕ) (old new : BankWord) → 0 < b.banks → bank_word b w ≡ Some old
        → bank_word (with_word b w new) v ≡ (if w == v then Some new else bank_word b v) }
    ensures locks { (b : BankParts) (w l : ℕ) (new : BankWord) → bank_lock (with_word b w new) l ≡ bank_lock b l }
{}

/// If one lock of a bank changes, no other lock changes, and no word.
pub fn a_lock_changes_alone()
    ensures locks { (b : BankParts) (l m : ℕ) (old new : Lock) → 0 < b.banks → bank_lock b l ≡ Some old
        → bank_lock (with_lock b l new) m ≡ (if l == m then Some new else bank_lock b m) }
    ensures words { (b : BankParts) (l w : ℕ) (new : Lock) → bank_word (with_lock b l new) w ≡ bank_word b w }
{}

/// What each word has after each message: RegReq and WriteBack change their own word, and nothing else changes a word.
pub fn words_change_by_their_own_messages()
    ensures read { (b : BankParts) (word : WordId) (reader : CoreId) → (bank_gets b (ReadReq word reader)).0 ≡ b }
    ensures register { (b : BankParts) (word : WordId) (core : CoreId) (w : ℕ) → 0 < b.banks → core.0 < b.cores
        → bank_word (bank_gets b (RegReq word core)).0 w ≡ (if word.0 == w then after_register core (bank_word b w) else bank_word b w) }
    ensures write_back { (b : BankParts) (word : WordId) (value : ℕ) (core : CoreId) (w : ℕ) → 0 < b.banks → core.0 < b.cores
        → bank_word (bank_gets b (WriteBack word value core)).0 w
        ≡ (if word.0 == w then after_write_back core value (bank_word b w) else bank_word b w) }
    ensures acquire { (b : BankParts) (lock : LockId) (core : CoreId) (w : ℕ) → bank_word (bank_gets b (Acquire lock core)).0 w ≡ bank_word b w }
    ensures release { (b : BankParts) (lock : LockId) (core : CoreId) (signature : Signature) (w : ℕ)
        → bank_word (bank_gets b (Release lock core signature)).0 w ≡ bank_word b w }
{}

/// What each lock has after each message: Acquire and Release change their own lock, and nothing else changes a lock.
pub fn locks_change_by_their_own_messages()
    ensures register { (b : BankParts) (word : WordId) (core : CoreId) (l : ℕ) → bank_lock (bank_gets b (RegReq word core)).0 l ≡ bank_lock b l }
    ensures write_back { (b : BankParts) (word : WordId) (value : ℕ) (core : CoreId) (l : ℕ)
        → bank_lock (bank_gets b (WriteBack word value core)).0 l ≡ bank_lock b l }
    ensures acquire { (b : BankParts) (lock : LockId) (core : CoreId) (l : ℕ) → 0 < b.banks → core.0 < b.cores
        → bank_lock (bank_gets b (Acquire lock core)).0 l ≡ (if lock.0 == l then after_acquire core (bank_lock b l) else bank_lock b l) }
    ensures release { (b : BankParts) (lock : LockId) (core : CoreId) (signature : Signature) (l : ℕ) → 0 < b.banks → core.0 < b.cores
        → bank_lock (bank_gets b (Release lock core signature)).0 l
        ≡ (if lock.0 == l then after_release core signature (bank_lock b l) else bank_lock b l) }
{}

/// No message changes the bank's number, or the numbers of banks, cores, words and locks.
pub fn a_bank_keeps_its_shape()
    ensures number { (b : BankParts) (m : Message) → (bank_gets b m).0.bank ≡ b.bank }
    ensures banks { (b : BankParts) (m : Message) → (bank_gets b m).0.banks ≡ b.banks }
    ensures cores { (b : BankParts) (m : Message) → (bank_gets b m).0.cores ≡ b.cores }
    ensures words { (b : BankParts) (m : Message) → length (bank_gets b m).0.words ≡ length b.words }
    ensures locks { (b : BankParts) (m : Message) → length (bank_gets b m).0.locks ≡ length b.locks }
{}
