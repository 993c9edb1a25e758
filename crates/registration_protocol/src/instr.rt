ghost use Rattle.std.specs.Prelude.{◌≡◌, ◌≢◌, ◌↔◌, ◌<◌, ◌≤◌, ◌||◌, true, false, Some, None, length, IfSome};
ghost use Rattle.std.specs.Option.{is_some, option_map};
ghost use Rattle.region_table.specs.declared.declared.TaskDecl.{TaskDecl as ATask};
ghost use Rattle.region_table.specs.Plan.{uses_plainly};
ghost use Rattle.rv_core.specs.Kinds.{IsLoad, IsStore, IsAdvance};
ghost use Rattle.rv_core.specs.Need.{need_of};
ghost use Rattle.rv_core.specs.Step.{advanced, loaded_of, merged_of};
ghost use Rattle.rv_core.specs.Task.{stopped};
ghost use Rattle.rv_core.specs.declared.task.TaskState.{TaskState};
ghost use Rattle.rv_core.specs.declared.need.Need.TheVariants.{Local as NeedsNothing};
ghost use Rattle.message_net.specs.declared.message.Message.TheVariants.{Acquire as AcquireOf, Release as ReleaseOf};
ghost use Rattle.message_net.specs.Mail.{to_home};
ghost use Rattle.word_cache.specs.declared.row.Entry.TheVariants.{Registered as AsRegistered};
ghost use Rattle.word_cache.specs.Cache.{has_room, IsProbe, lookup, put};
ghost use Rattle.registration_protocol.specs.Fit.{IsContext, Fits, IsNeed, Computes};
ghost use Rattle.registration_protocol.specs.Node.{need_now, entry_of, signature_of};
ghost use Rattle.registration_protocol.specs.declared.node.NodeWait.TheVariants.{None as WaitsForNothing, Locking};
ghost use Rattle.registration_protocol.specs.OwnEvents.{may_access, lets, may_instr, misses, me, stored, registers_word, load_row, store_row, instr_row, instructed, noted};
ghost use Rattle.registration_protocol.specs.Setting.{setting};

use crate::node::{Node, NodeWait, Step, send_home};
use crate::setting::{Context, declaration};
use crate::signatures::note;
use dn_base::{LoadSeen, LockId, PhaseId, Sequence, WordId};
use message_net::{Message, Outgoing};
use region_table::TaskDecl;
use rv_core::{End, Need, TaskState};
use word_cache::{Entry, Probe, WordCache};
use write_signature::Signature;

/// Whether the task may use the word whatever locks it holds.
#[inline(always)]
fn is_plain(task: &TaskDecl, word: WordId) -> bool
    ensures { result ≡ uses_plainly task.now word.0 }
{
    task.effects.reads.contains(word) || task.effects.writes.contains(word)
}

/// The next instruction retires: it needs nothing, or is a store, an acquire or a release.
#[inline(always)]
fn advance(task: &mut Option<TaskState>, context: &Context<'_>, declared: &TaskDecl, need: &Need)
    requires look { IfSome task.old (IsNeed (setting context.now) declared.now need.now) }
    requires kind { IsAdvance need.now }
    ensures { task.new ≡ option_map (advanced (setting context.now).program) task.old }
{
    if let Some(task) = task {
        context.decoded.advance(task, declared, context.fuel);
    }
}

/// Completes the next instruction of a task that goes on, if it needs nothing besides the task's own registers. Otherwise it does
/// nothing. Returns whether it completed one.
#[inline(always)]
fn compute(task: &mut Option<TaskState>, context: &Context<'_>) -> bool
    requires { IfSome task.old (λ t. t.retired ≤ (setting context.now).fuel) }
    ensures done { result ≡ true → (t : TaskState) × Computes (setting context.now) task.old t × (task.new ≡ Some (advanced (setting context.now).program t)) }
    ensures left { result ≡ false → task.new ≡ task.old }
    ensures other { result ≡ false → (t : TaskState) (d : ATask) → task.old ≡ Some t → t.end ≡ None
        → need_of (setting context.now).program d (setting context.now).fuel t ≢ NeedsNothing }
{
    match task {
        Some(task) if task.end.is_none() => context.decoded.compute(task, context.fuel),
        _ => false,
    }
}

/// The next instruction retires, a load of a word of this value.
#[inline(always)]
fn load(
    task: &mut Option<TaskState>,
    context: &Context<'_>,
    declared: &TaskDecl,
    need: &Need,
    value: u32,
)
    requires look { IfSome task.old (IsNeed (setting context.now) declared.now need.now) }
    requires kind { IsLoad need.now }
    ensures { task.new ≡ option_map (loaded_of (setting context.now).program value) task.old }
{
    if let Some(task) = task {
        context.decoded.loaded(task, declared, context.fuel, value);
    }
}

/// The task ends.
#[inline(always)]
fn stop(task: &mut Option<TaskState>, cause: End)
    requires { IfSome task.old (λ t. (t.end ≡ None) × (t.retired < 4294967295)) }
    ensures { task.new ≡ option_map (stopped cause) task.old }
{
    if let Some(task) = task {
        task.stop(cause);
    }
}

/// Notes a store of the task to the word in the signatures of the locks.
#[inline(always)]
fn sign(
    signatures: &mut Sequence<Signature>,
    task: &Option<TaskState>,
    declared: &TaskDecl,
    word: WordId,
    phase: PhaseId,
)
    requires { length signatures.old ≤ 32 }
    ensures { (t : TaskState) → task.now ≡ Some t → signatures.new ≡ noted declared.now t.held word.0 phase.0 0 signatures.old }
{
    if let Some(task) = task {
        note(signatures, declared, task.held, word, phase);
    }
}

/// The target of a store: the word's value so far, and what the cache's probe told.
#[derive(Clone, Copy)]
struct Target {
    word: WordId,
    probe: Probe,
    old: u32,
}

/// Gives the word this entry, at the place that the probe told.
#[inline(always)]
fn enter(cache: &mut WordCache, word: WordId, probe: Probe, entry: Entry)
    requires probe { IsProbe probe (lookup word.0 cache.old.pairs) (has_room cache.old word.0) }
    requires room { (is_some (lookup word.0 cache.old.pairs) || has_room cache.old word.0) ≡ true }
    ensures { cache.new ≡ record cache.old { pairs = put word entry cache.old.pairs } }
{
    match probe {
        Probe::Hit { place, .. } => cache.set_at(Some(place), word, entry),
        Probe::Room { place } => cache.add_at(Some(place), word, entry),
        Probe::Full => unreachable!(),
    }
}

impl Node {
    /// The node asks a word's home for its value.
    #[inline(always)]
    fn miss(&mut self, context: &Context<'_>, word: WordId) -> Outgoing
        requires { 0 < (setting context.now).shape.banks }
        ensures node { self.new ≡ (misses (setting context.now) self.old word).0 }
        ensures step { record { sent = Some result; seen = None } ≡ (misses (setting context.now) self.old word).1 }
    {
        self.wait = NodeWait::Reading(word);
        let reader = self.core;
        send_home(context, word.0, Message::ReadReq { word, reader })
    }

    /// The task loads a word of this value.
    #[inline(always)]
    fn see(
        &mut self,
        context: &Context<'_>,
        declared: &TaskDecl,
        need: &Need,
        word: WordId,
        value: u32,
    ) -> LoadSeen
        requires look { IfSome self.old.task (IsNeed (setting context.now) declared.now need.now) }
        requires kind { IsLoad need.now }
        ensures node { self.new ≡ record self.old { task = option_map (loaded_of (setting context.now).program value) self.old.task; waiting = WaitsForNothing } }
        ensures seen { result ≡ record { word = word; value = value } }
    {
        load(&mut self.task, context, declared, need, value);
        self.wait = NodeWait::None;
        LoadSeen { word, value }
    }

    /// A load of the word.
    #[inline(always)]
    fn load(
        &mut self,
        context: &Context<'_>,
        declared: &TaskDecl,
        need: &Need,
        word: WordId,
        sent: &mut Option<Outgoing>,
    ) -> Option<LoadSeen>
        requires none { sent.old ≡ None }
        requires banks { 0 < (setting context.now).shape.banks }
        requires look { IfSome self.old.task (IsNeed (setting context.now) declared.now need.now) }
        requires kind { IsLoad need.now }
        ensures node { (t : TaskState) → self.old.task ≡ Some t → self.new ≡ (load_row (setting context.now) self.old declared.now t word (entry_of self.old word.0)).0 }
        ensures step { (t : TaskState) → self.old.task ≡ Some t
            → record { sent = sent.new; seen = result } ≡ (load_row (setting context.now) self.old declared.now t word (entry_of self.old word.0)).1 }
    {
        let Probe::Hit { place, entry } = self.cache.probe(word) else {
            *sent = Some(self.miss(context, word));
            return None;
        };
        match entry {
            Entry::Valid { value, marked } => {
                let entry = Entry::Valid {
                    value,
                    marked: marked || is_plain(declared, word),
                };
                self.cache.set_at(Some(place), word, entry);
                Some(self.see(context, declared, need, word, value))
            }
            Entry::Registered { value, .. } => {
                self.cache.touch_at(Some(place), word);
                Some(self.see(context, declared, need, word, value))
            }
            Entry::Leaving(_) => None,
        }
    }

    /// The word after the task's store, where the word's value was `old`.
    #[inline(always)]
    fn word_after(&self, context: &Context<'_>, declared: &TaskDecl, need: &Need, old: u32) -> u32
        requires look { IfSome self.now.task (IsNeed (setting context.now) declared.now need.now) }
        requires kind { IsStore need.now }
        ensures { (t : TaskState) → self.now.task ≡ Some t → result ≡ merged_of (setting context.now).program old t }
    {
        match &self.task {
            Some(task) => context.decoded.merged(task, declared, context.fuel, old),
            None => old,
        }
    }

    /// A store to the word retires. The core is the word's owner then, or is to be it.
    #[inline(always)]
    fn write(
        &mut self,
        context: &Context<'_>,
        declared: &TaskDecl,
        need: &Need,
        target: Target,
        pending: bool,
    )
        requires look { IfSome self.old.task (IsNeed (setting context.now) declared.now need.now) }
        requires kind { IsStore need.now }
        requires locks { length self.old.signatures ≤ 32 }
        requires probe { IsProbe target.probe (entry_of self.old target.word.0) (has_room self.old.cache target.word.0) }
        requires room { (is_some (entry_of self.old target.word.0) || has_room self.old.cache target.word.0) ≡ true }
        ensures { (t : TaskState) → self.old.task ≡ Some t
            → self.new ≡ stored (setting context.now) self.old declared.now t target.word (AsRegistered (merged_of (setting context.now).program target.old t) pending) }
    {
        let Target { word, probe, old } = target;
        let value = self.word_after(context, declared, need, old);
        sign(&mut self.signatures, &self.task, declared, word, self.phase);
        let entry = Entry::Registered { value, pending };
        enter(&mut self.cache, word, probe, entry);
        advance(&mut self.task, context, declared, need);
        self.wait = NodeWait::None;
    }

    /// A store to the word retires, and asks the word's home to make the core its owner.
    #[inline(always)]
    fn register(
        &mut self,
        context: &Context<'_>,
        declared: &TaskDecl,
        need: &Need,
        target: Target,
    ) -> Outgoing
        requires banks { 0 < (setting context.now).shape.banks }
        requires look { IfSome self.old.task (IsNeed (setting context.now) declared.now need.now) }
        requires kind { IsStore need.now }
        requires locks { length self.old.signatures ≤ 32 }
        requires probe { IsProbe target.probe (entry_of self.old target.word.0) (has_room self.old.cache target.word.0) }
        requires room { (is_some (entry_of self.old target.word.0) || has_room self.old.cache target.word.0) ≡ true }
        ensures node { (t : TaskState) → self.old.task ≡ Some t
            → self.new ≡ (registers_word (setting context.now) self.old declared.now t target.word (merged_of (setting context.now).program target.old t)).0 }
        ensures step { (t : TaskState) → self.old.task ≡ Some t
            → record { sent = Some result; seen = None } ≡ (registers_word (setting context.now) self.old declared.now t target.word (merged_of (setting context.now).program target.old t)).1 }
    {
        let word = target.word;
        let core = self.core;
        self.write(context, declared, need, target, true);
        send_home(context, word.0, Message::RegReq { word, core })
    }

    /// A store to the word, which has no entry; `whole` where it gives all four bytes.
    #[inline(always)]
    fn store_new(
        &mut self,
        context: &Context<'_>,
        declared: &TaskDecl,
        need: &Need,
        word: WordId,
        probe: Probe,
        whole: bool,
    ) -> Outgoing
        requires banks { 0 < (setting context.now).shape.banks }
        requires look { IfSome self.old.task (IsNeed (setting context.now) declared.now need.now) }
        requires kind { IsStore need.now }
        requires locks { length self.old.signatures ≤ 32 }
        requires probe { IsProbe probe (entry_of self.old word.0) (has_room self.old.cache word.0) }
        requires room { has_room self.old.cache word.0 ≡ true }
        ensures node { (t : TaskState) → self.old.task ≡ Some t → self.new ≡ (store_row (setting context.now) self.old declared.now t word whole None).0 }
        ensures step { (t : TaskState) → self.old.task ≡ Some t
            → record { sent = Some result; seen = None } ≡ (store_row (setting context.now) self.old declared.now t word whole None).1 }
    {
        if !whole {
            return self.miss(context, word);
        }

        let target = Target {
            word,
            probe,
            old: 0,
        };
        self.register(context, declared, need, target)
    }

    /// A store to the word; `whole` where it gives all four bytes.
    #[inline(always)]
    fn store(
        &mut self,
        context: &Context<'_>,
        declared: &TaskDecl,
        need: &Need,
        word: WordId,
        whole: bool,
        sent: &mut Option<Outgoing>,
    )
        requires none { sent.old ≡ None }
        requires banks { 0 < (setting context.now).shape.banks }
        requires look { IfSome self.old.task (IsNeed (setting context.now) declared.now need.now) }
        requires kind { IsStore need.now }
        requires locks { length self.old.signatures ≤ 32 }
        requires access { may_access self.old word.0 (entry_of self.old word.0) ≡ true }
        ensures node { (t : TaskState) → self.old.task ≡ Some t → self.new ≡ (store_row (setting context.now) self.old declared.now t word whole (entry_of self.old word.0)).0 }
        ensures step { (t : TaskState) → self.old.task ≡ Some t
            → record { sent = sent.new; seen = None } ≡ (store_row (setting context.now) self.old declared.now t word whole (entry_of self.old word.0)).1 }
    {
        let probe = self.cache.probe(word);
        let Probe::Hit { entry, .. } = probe else {
            *sent = Some(self.store_new(context, declared, need, word, probe, whole));
            return;
        };
        match entry {
            Entry::Valid { value, .. } => {
                let target = Target {
                    word,
                    probe,
                    old: value,
                };
                *sent = Some(self.register(context, declared, need, target));
            }
            Entry::Registered { value, pending } => {
                let target = Target {
                    word,
                    probe,
                    old: value,
                };
                self.write(context, declared, need, target, pending);
            }
            Entry::Leaving(_) => {}
        }
    }

    /// The node asks the lock's home for the lock.
    fn acquire(&mut self, context: &Context<'_>, lock: LockId) -> Outgoing
        requires { 0 < (setting context.now).shape.banks }
        ensures node { self.new ≡ record self.old { waiting = Locking lock } }
        ensures sent { Some result ≡ to_home (setting context.now).shape.banks lock.0 (AcquireOf lock (me self.old)) }
    {
        self.wait = NodeWait::Locking(lock);
        let core = self.core;
        send_home(context, lock.0, Message::Acquire { lock, core })
    }

    /// The signature that the node keeps for a lock; for a lock that the program doesn't have, the empty one of its phase.
    /// Takes no memory.
    pub fn signature(&self, lock: LockId) -> Signature
        ensures { result ≡ signature_of self.now lock.0 }
    {
        match self.signatures.get(lock.0 as usize) {
            Some(signature) => *signature,
            None => Signature::empty(self.phase),
        }
    }

    /// The node gives the lock back to its home, with the words that were written under it.
    fn release(&self, context: &Context<'_>, lock: LockId) -> Outgoing
        requires { 0 < (setting context.now).shape.banks }
        ensures { Some result ≡ to_home (setting context.now).shape.banks lock.0 (ReleaseOf lock (me self.now) (signature_of self.now lock.0)) }
    {
        let core = self.core;
        let signature = self.signature(lock);
        send_home(
            context,
            lock.0,
            Message::Release {
                lock,
                core,
                signature,
            },
        )
    }

    /// The instruction of this look. What it sends is put into the caller's place, which has nothing: so the many that send nothing
    /// move no message.
    fn perform(
        &mut self,
        context: &Context<'_>,
        declared: &TaskDecl,
        need: &Need,
        sent: &mut Option<Outgoing>,
    ) -> Option<LoadSeen>
        requires none { sent.old ≡ None }
        requires banks { 0 < (setting context.now).shape.banks }
        requires most { (setting context.now).fuel ≤ 32768 }
        requires look { IfSome self.old.task (IsNeed (setting context.now) declared.now need.now) }
        requires locks { length self.old.signatures ≤ 32 }
        requires lets { lets self.old (Some need.now) ≡ true }
        ensures node { (t : TaskState) → self.old.task ≡ Some t → self.new ≡ (instr_row (setting context.now) self.old declared.now t need.now).0 }
        ensures step { (t : TaskState) → self.old.task ≡ Some t
            → record { sent = sent.new; seen = result } ≡ (instr_row (setting context.now) self.old declared.now t need.now).1 }
    {
        match *need {
            Need::Local => {
                advance(&mut self.task, context, declared, need);
                None
            }
            Need::End { cause } => {
                stop(&mut self.task, cause);
                None
            }
            Need::Load { word } => self.load(context, declared, need, word, sent),
            Need::Store { word, whole } => {
                self.store(context, declared, need, word, whole, sent);
                None
            }
            Need::Acquire { lock } => {
                *sent = Some(self.acquire(context, lock));
                None
            }
            Need::Release { lock } => {
                advance(&mut self.task, context, declared, need);
                *sent = Some(self.release(context, lock));
                None
            }
        }
    }

    /// The node's next instruction, if it needs nothing besides the task's own registers. Returns whether it was such a one.
    #[tactic(auto, unfolding(crate::specs::OwnEvents::instructed))]
    #[inline(always)]
    fn instruct_alone(&mut self, context: &Context<'_>) -> bool
        requires fits { Fits (setting context.now) self.old }
        ensures which { (result ≡ true) ↔ (need_now (setting context.now) self.old ≡ Some NeedsNothing) }
        ensures done { result ≡ true → self.new ≡ (instructed (setting context.now) self.old).0 }
        ensures silent { result ≡ true → record { sent = None; seen = None } ≡ (instructed (setting context.now) self.old).1 }
        ensures left { result ≡ false → self.new ≡ self.old }
    {
        compute(&mut self.task, context)
    }

    /// Completes the node's next instruction, which may go on, if it needs nothing besides the task's own registers. Such an instruction
    /// sends nothing and reads nothing. Otherwise it does nothing. Returns whether it completed one. Takes no memory.
    #[inline(always)]
    pub fn compute(&mut self, context: &Context<'_>) -> bool
        requires context { IsContext (setting context.now) }
        requires fits { Fits (setting context.now) self.old }
        requires may { may_instr (setting context.now) self.old ≡ true }
        ensures which { (result ≡ true) ↔ (need_now (setting context.now) self.old ≡ Some NeedsNothing) }
        ensures done { result ≡ true → self.new ≡ (instructed (setting context.now) self.old).0 }
        ensures silent { result ≡ true → record { sent = None; seen = None } ≡ (instructed (setting context.now) self.old).1 }
        ensures left { result ≡ false → self.new ≡ self.old }
        ensures fits { Fits (setting context.now) self.new }
    {
        self.instruct_alone(context)
    }

    /// The node's next instruction, by what it needs.
    #[tactic(auto, unfolding(crate::specs::OwnEvents::instructed))]
    #[inline(always)]
    fn by_need(&mut self, context: &Context<'_>, sent: &mut Option<Outgoing>) -> Option<LoadSeen>
        requires none { sent.old ≡ None }
        requires context { IsContext (setting context.now) }
        requires fits { Fits (setting context.now) self.old }
        requires may { may_instr (setting context.now) self.old ≡ true }
        ensures node { self.new ≡ (instructed (setting context.now) self.old).0 }
        ensures step { record { sent = sent.new; seen = result } ≡ (instructed (setting context.now) self.old).1 }
    {
        let task = self.task.as_ref()?;
        let declared = declaration(context.decoded.program(), self.phase, self.core)?;
        if task.end.is_some() {
            return None;
        }
        let need = context.decoded.need(task, declared, context.fuel);
        self.perform(context, declared, &need, sent)
    }

    /// The node's next instruction. Most instructions need nothing: such a one is completed by one look, without the task's declaration.
    #[inline(always)]
    fn next(&mut self, context: &Context<'_>, sent: &mut Option<Outgoing>) -> Option<LoadSeen>
        requires none { sent.old ≡ None }
        requires context { IsContext (setting context.now) }
        requires fits { Fits (setting context.now) self.old }
        requires may { may_instr (setting context.now) self.old ≡ true }
        ensures node { self.new ≡ (instructed (setting context.now) self.old).0 }
        ensures step { record { sent = sent.new; seen = result } ≡ (instructed (setting context.now) self.old).1 }
    {
        if self.instruct_alone(context) {
            None
        } else {
            self.by_need(context, sent)
        }
    }

    /// The node's next instruction, as `instr_into` makes it, for a caller that has called `compute` before, which made none: it isn't
    /// tried again. Takes no memory.
    #[inline(always)]
    pub fn other_instr_into(
        &mut self,
        context: &Context<'_>,
        sent: &mut Option<Outgoing>,
    ) -> Option<LoadSeen>
        requires context { IsContext (setting context.now) }
        requires fits { Fits (setting context.now) self.old }
        requires may { may_instr (setting context.now) self.old ≡ true }
        ensures node { self.new ≡ (instructed (setting context.now) self.old).0 }
        ensures step { record { sent = sent.new; seen = result } ≡ (instructed (setting context.now) self.old).1 }
        ensures fits { Fits (setting context.now) self.new }
    {
        *sent = None;
        self.by_need(context, sent)
    }

    /// The node's next instruction, as `instr` makes it. What it sends is put into the caller's place, and the load that it completed
    /// is given back. Takes no memory.
    #[inline(always)]
    pub fn instr_into(
        &mut self,
        context: &Context<'_>,
        sent: &mut Option<Outgoing>,
    ) -> Option<LoadSeen>
        requires context { IsContext (setting context.now) }
        requires fits { Fits (setting context.now) self.old }
        requires may { may_instr (setting context.now) self.old ≡ true }
        ensures node { self.new ≡ (instructed (setting context.now) self.old).0 }
        ensures step { record { sent = sent.new; seen = result } ≡ (instructed (setting context.now) self.old).1 }
        ensures fits { Fits (setting context.now) self.new }
    {
        *sent = None;
        self.next(context, sent)
    }

    /// The node's next instruction, which may go on: it retires, or asks for what it lacks, or ends the task. A load of a word
    /// that the task uses plainly marks the word's copy. A store enters its word in the signature of each held lock that
    /// guards it. Takes no memory.
    #[inline(always)]
    pub fn instr(&mut self, context: &Context<'_>) -> Step
        requires context { IsContext (setting context.now) }
        requires fits { Fits (setting context.now) self.old }
        requires may { may_instr (setting context.now) self.old ≡ true }
        ensures node { self.new ≡ (instructed (setting context.now) self.old).0 }
        ensures step { result ≡ (instructed (setting context.now) self.old).1 }
        ensures fits { Fits (setting context.now) self.new }
    {
        let mut sent = None;
        let seen = self.instr_into(context, &mut sent);
        Step { sent, seen }
    }
}
