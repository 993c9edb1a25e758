//! Theorems of a node's events, for proofs about the machine. A theorem is a function without effect; its contract states the
//! theorem.
ghost use Rattle.std.specs.Prelude.{◌≡◌, ℕ, ◌+◌, ◌<◌, ◌==◌, Bool, Option, Some, None, IfSome, true, false, length, slice_get, if◌then◌else◌};
ghost use Rattle.dn_base.specs.declared.ids.CoreId.{CoreId};
ghost use Rattle.dn_base.specs.declared.ids.LockId.{LockId};
ghost use Rattle.dn_base.specs.declared.ids.PhaseId.{PhaseId};
ghost use Rattle.dn_base.specs.declared.ids.WordId.{WordId};
ghost use Rattle.region_table.specs.declared.declared.TaskDecl.{TaskDecl};
ghost use Rattle.region_table.specs.Tasks.{declared};
ghost use Rattle.rv_core.specs.declared.task.TaskState.{TaskState};
ghost use Rattle.rv_core.specs.declared.need.Need.{Need};
ghost use Rattle.rv_core.specs.declared.need.Need.TheVariants.{Acquire as NeedsAcquire, Store as NeedsStore};
ghost use Rattle.rv_core.specs.Need.{need_of};
ghost use Rattle.rv_core.specs.Step.{advanced};
ghost use Rattle.write_signature.specs.declared.signature.Signature.{Signature};
ghost use Rattle.write_signature.specs.Signature.{tag, empty, in_phase};
ghost use Rattle.message_net.specs.declared.message.Message.{Message};
ghost use Rattle.message_net.specs.declared.message.Message.TheVariants.{RegAck, RegFwd, ReadFwd, WbAck, DataReply, Grant, Go};
ghost use Rattle.message_net.specs.declared.event.Event.{Event};
ghost use Rattle.word_cache.specs.declared.row.Entry.{Entry};
ghost use Rattle.word_cache.specs.declared.row.Entry.TheVariants.{Valid};
ghost use Rattle.word_cache.specs.Cache.{IsCache, has_room, entry_after_phase, entry_after_grant};
ghost use Rattle.registration_protocol.specs.declared.node.NodeWait.TheVariants.{Reading, Filled, Locking};
ghost use Rattle.registration_protocol.specs.Node.{NodeParts, Setting, need_now, entry_of, signature_of, initial_node};
ghost use Rattle.registration_protocol.specs.Fit.{IsContext, Fits};
ghost use Rattle.registration_protocol.specs.OwnEvents.{IsStill, lets, may_instr, may_evict, may_arrive, stored, noted_at, instr_row, instructed, written_by, written_now, evicted, arrives, own_event};
ghost use Rattle.registration_protocol.specs.Messages.{node_gets, becomes, guarded_by, written_in, holds_now, begins};
ghost use Rattle.registration_protocol.specs.Changes.{on_reg_ack, on_reg_fwd, on_wb_ack, on_evict, is_from_keeper, KeepsPhase, KeepsTask};
ghost use Rattle.registration_protocol.specs.Parts.{IsWaiting, MayInstruct, MayEvict, MayArrive, accessed, task_by, Instructs, Retires, Acquires, MayCome, retired_so_far, held_locks};
ghost use Rattle.registration_protocol.specs.Names.{NamesOwn, IsFor};

/// An acknowledgement, a RegFwd and an eviction change only the entry of their word, and a ReadFwd changes nothing.
pub fn one_entry_changes()
    ensures ack { (C : Setting) (n : NodeParts) (word : WordId) (v : ℕ) → entry_of (node_gets C n (RegAck word)).0 v ≡ (if word.0 == v then on_reg_ack (entry_of n v) else entry_of n v) }
    ensures forward { (C : Setting) (n : NodeParts) (word : WordId) (core : CoreId) (v : ℕ) → entry_of (node_gets C n (RegFwd word core)).0 v ≡ (if word.0 == v then on_reg_fwd (entry_of n v) else entry_of n v) }
    ensures back { (C : Setting) (n : NodeParts) (word : WordId) (v : ℕ) → entry_of (node_gets C n (WbAck word)).0 v ≡ (if word.0 == v then on_wb_ack (entry_of n v) else entry_of n v) }
    ensures evict { (C : Setting) (n : NodeParts) (word : WordId) (v : ℕ) → entry_of (evicted C n word).0 v ≡ (if word.0 == v then on_evict (entry_of n v) else entry_of n v) }
    ensures read { (C : Setting) (n : NodeParts) (word : WordId) (reader : CoreId) → (node_gets C n (ReadFwd word reader)).0 ≡ n }
{}

/// They leave the task, the wait, the signatures, the phase and the flags.
pub fn the_task_stays()
    ensures ack { (C : Setting) (n : NodeParts) (word : WordId) → KeepsTask n (node_gets C n (RegAck word)).0 }
    ensures forward { (C : Setting) (n : NodeParts) (word : WordId) (core : CoreId) → KeepsTask n (node_gets C n (RegFwd word core)).0 }
    ensures back { (C : Setting) (n : NodeParts) (word : WordId) → KeepsTask n (node_gets C n (WbAck word)).0 }
    ensures evict { (C : Setting) (n : NodeParts) (word : WordId) → KeepsTask n (evicted C n word).0 }
{}

/// If the node waits for the value of a word, and the word has no entry but room, the value becomes a copy without a mark. No
/// other word's entry changes.
pub fn a_value_is_a_copy()
    ensures { (C : Setting) (n : NodeParts) (word : WordId) (value v : ℕ) → n.waiting ≡ Reading word → entry_of n word.0 ≡ None → has_room n.cache word.0 ≡ true
        → entry_of (node_gets C n (DataReply word value)).0 v ≡ (if word.0 == v then Some (Valid value false) else entry_of n v) }
{}

/// A store that retires gives its word the new entry, and no other word's entry changes.
pub fn a_store_writes_one_entry()
    ensures { (C : Setting) (n : NodeParts) (d : TaskDecl) (t : TaskState) (word : WordId) (e : Entry) (v : ℕ) → entry_of (stored C n d t word e) v ≡ (if word.0 == v then Some e else entry_of n v) }
{}

/// The word that a store writes depends only on the entry of the word.
pub fn a_store_writes_one_word()
    ensures { (C : Setting) (n : NodeParts) (t : TaskState) (word : WordId) (whole : Bool) → n.task ≡ Some t → need_now C n ≡ Some (NeedsStore word whole)
        → written_now C n ≡ written_by C t word whole (entry_of n word.0) }
{}

/// Only the barrier controller's messages and an arrival change a node's phase and flags.
pub fn a_node_keeps_its_phase()
    ensures instr { (C : Setting) (n : NodeParts) → KeepsPhase n (instructed C n).0 }
    ensures evict { (C : Setting) (n : NodeParts) (word : WordId) → KeepsPhase n (evicted C n word).0 }
    ensures receive { (C : Setting) (n : NodeParts) (m : Message) → is_from_keeper m ≡ false → KeepsPhase n (node_gets C n m).0 }
{}

/// The facts that `may_instr`, `may_evict` and `may_arrive` imply.
pub fn a_permission_tells_of_its_node()
    ensures instr { (C : Setting) (n : NodeParts) → may_instr C n ≡ true → MayInstruct C n }
    ensures evict { (C : Setting) (n : NodeParts) (w : ℕ) → may_evict C n w ≡ true → MayEvict C n w }
    ensures arrive { (n : NodeParts) → may_arrive n ≡ true → MayArrive n }
{}

/// A node's own event is enabled.
pub fn an_own_event_may_come()
    ensures { (C : Setting) (n : NodeParts) (e : Event) → own_event C n ≡ Some e → MayCome C n e }
{}

/// An instruction is the row of its need. What it changes, sends and reads follows, part by part, from the need and from the
/// entry of the word that it accesses.
pub fn an_instruction_part_by_part()
    ensures row { (C : Setting) (n : NodeParts) (d : TaskDecl) (t : TaskState) (x : Need) → declared C.program n.phase n.core ≡ Some d → n.task ≡ Some t → need_now C n ≡ Some x
        → instructed C n ≡ instr_row C n d t x }
    ensures parts { (C : Setting) (n : NodeParts) (d : TaskDecl) (t : TaskState) (x : Need) → n.task ≡ Some t
        → Instructs C n d t x (accessed n x) (instr_row C n d t x).0 (instr_row C n d t x).1 }
    ensures task { (C : Setting) (d : TaskDecl) (t : TaskState) (x : Need) (e : Option Entry) → need_of C.program d C.fuel t ≡ x → Retires t x e (task_by C t x e) }
{}

/// A grant of the lock that the node waits for: its task acquires the lock. The new entry of each word depends only on its old
/// one, and so does each signature.
pub fn a_grant_part_by_part()
    ensures row { (C : Setting) (n : NodeParts) (t : TaskState) (lock : LockId) (s : Signature) → n.waiting ≡ Locking lock → n.task ≡ Some t
        → node_gets C n (Grant lock s) ≡ holds_now C n t lock s }
    ensures entries { (C : Setting) (n : NodeParts) (t : TaskState) (lock : LockId) (s : Signature) (w : ℕ) → IsCache n.cache
        → entry_of (holds_now C n t lock s).0 w ≡ entry_after_grant s n.phase (guarded_by (slice_get C.plans n.phase) lock.0) w (entry_of n w) }
    ensures signatures { (C : Setting) (n : NodeParts) (t : TaskState) (lock : LockId) (s : Signature) (l : ℕ) → lock.0 < length n.signatures
        → signature_of (holds_now C n t lock s).0 l ≡ (if lock.0 == l then in_phase n.phase s else signature_of n l) }
    ensures task { (C : Setting) (n : NodeParts) (t : TaskState) (lock : LockId) → n.task ≡ Some t → need_now C n ≡ Some (NeedsAcquire lock)
        → Acquires C t lock (advanced C.program t) }
{}

/// The next phase begins: the new entry of each word depends only on its old one, every signature is empty, and the task has
/// retired nothing and holds no lock.
pub fn a_phase_begins_part_by_part()
    ensures row { (C : Setting) (n : NodeParts) (phase : PhaseId) → n.arrived ≡ true → n.halted ≡ false → phase.0 ≡ n.phase + 1 → phase.0 < length C.program.phases
        → node_gets C n (Go phase) ≡ becomes (begins C n phase.0) }
    ensures entries { (C : Setting) (n : NodeParts) (phase w : ℕ) → IsCache n.cache
        → entry_of (begins C n phase) w ≡ entry_after_phase (written_in (slice_get C.plans n.phase)) w (entry_of n w) }
    ensures signatures { (C : Setting) (n : NodeParts) (phase lock : ℕ) → signature_of (begins C n phase) lock ≡ empty phase }
    ensures task { (C : Setting) (n : NodeParts) (phase : ℕ) → (retired_so_far (begins C n phase).task ≡ 0) × (held_locks (begins C n phase).task ≡ 0) }
{}

/// A node's signatures are of its phase, and a store puts its word into those of the locks that guard it.
pub fn signatures_are_of_the_phase()
    ensures tag { (C : Setting) (n : NodeParts) (lock : ℕ) → Fits C n → tag (signature_of n lock) ≡ n.phase }
    ensures stored { (C : Setting) (n : NodeParts) (d : TaskDecl) (t : TaskState) (word : WordId) (e : Entry) (lock : ℕ) → lock < length n.signatures
        → signature_of (stored C n d t word e) lock ≡ noted_at d t.held word.0 n.phase lock (signature_of n lock) }
{}

/// A node fits its context when a run begins, and after every event.
pub fn a_node_stays_fit()
    ensures initial { (C : Setting) (core : ℕ) → core < C.shape.cores → Fits C (initial_node C core) }
    ensures instr { (C : Setting) (n : NodeParts) → Fits C n → may_instr C n ≡ true → Fits C (instructed C n).0 }
    ensures evict { (C : Setting) (n : NodeParts) (word : WordId) → Fits C n → Fits C (evicted C n word).0 }
    ensures arrive { (C : Setting) (n : NodeParts) → Fits C n → Fits C (arrives n).0 }
    ensures receive { (C : Setting) (n : NodeParts) (m : Message) → Fits C n → Fits C (node_gets C n m).0 }
{}

/// What a node sends goes to an actor of the machine, and names a word, a lock and a core of the machine.
pub fn mails_are_of_the_machine()
    ensures instr { (C : Setting) (n : NodeParts) → IsContext C → n.core < C.shape.cores → may_instr C n ≡ true → IfSome (instructed C n).1.sent (IsFor C) }
    ensures evict { (C : Setting) (n : NodeParts) (word : WordId) → IsContext C → n.core < C.shape.cores → word.0 < length C.program.memory → IfSome (evicted C n word).1 (IsFor C) }
    ensures arrive { (C : Setting) (n : NodeParts) → n.core < C.shape.cores → IfSome (arrives n).1 (IsFor C) }
    ensures receive { (C : Setting) (n : NodeParts) (m : Message) → IsContext C → NamesOwn C m → IfSome (node_gets C n m).1.sent (IsFor C) }
{}

/// A node that isn't halted, hasn't arrived and has no own event waits for a value or a lock, or has an entry that is pending or
/// leaving. If the value of a word has come, its instruction is enabled.
pub fn a_still_node_waits()
    ensures { (C : Setting) (n : NodeParts) → Fits C n → 0 < C.shape.ways → n.arrived ≡ false → n.halted ≡ false → IsStill C n
        → ((word : WordId) → n.waiting ≡ Filled word → lets n (need_now C n) ≡ true) → IsWaiting n }
{}
