ghost use Rattle.std.specs.Prelude.{◌≡◌, ◌↔◌, ℕ, true, false, None, Some, IfSome, ◌&&◌};
ghost use Rattle.rv_core.specs.declared.need.Need.TheVariants.{Local as NeedsNothing};
ghost use Rattle.word_cache.specs.Cache.{may_go};
ghost use Rattle.registration_protocol.specs.Fit.{IsContext, Fits};
ghost use Rattle.registration_protocol.specs.Node.{need_now, entry_of, is_active, waits_for_nothing};
ghost use Rattle.registration_protocol.specs.OwnEvents.{lets, wanted_by, makes_room, may_evict, may_arrive, evicted, victim_for, eviction, arrival, own_event, IsStill, shown_by, end_of};
ghost use Rattle.registration_protocol.specs.Outlook.{is_clear, lacked};
ghost use Rattle.registration_protocol.specs.Setting.{setting};

use crate::node::{Node, NodeWait};
use crate::outlook::Outlook;
use crate::setting::Context;
use dn_base::{WordId, remainder};
use message_net::{Event, Outgoing};
use rv_core::{End, EndShown, TaskEnd};
use word_cache::Entry;

/// How a task stands, by its end and its node's wait; None if it hasn't ended and waits for no lock.
fn end_shown(end: Option<End>, wait: NodeWait) -> Option<EndShown>
    ensures { result ≡ shown_by end wait }
{
    match end {
        Some(end) => Some(EndShown::from(end)),
        None => match wait {
            NodeWait::Locking(lock) => Some(EndShown::Waits { lock }),
            _ => None,
        },
    }
}

impl Node {
    /// Whether the word's entry may be evicted.
    #[inline(always)]
    fn may_go(&self, word: WordId) -> bool
        ensures { result ≡ may_go (entry_of self.now word.0) }
    {
        match self.cache.get(word) {
            Some(Entry::Valid { .. }) => true,
            Some(Entry::Registered { pending, .. }) => !pending,
            _ => false,
        }
    }

    /// Whether the node's flags and its wait let it evict a word.
    #[inline(always)]
    fn is_idle(&self) -> bool
        ensures { result ≡ (is_active self.now && waits_for_nothing self.now.waiting) }
    {
        !(self.halted || self.arrived) && self.wait == NodeWait::None
    }

    /// Whether the node may evict the word to make room for the wanted one, if there is one.
    fn may_make_room(&self, context: &Context<'_>, word: WordId, wanted: Option<WordId>) -> bool
        requires context { IsContext (setting context.now) }
        requires fits { Fits (setting context.now) self.now }
        ensures { result ≡ (is_active self.now && waits_for_nothing self.now.waiting && makes_room self.now word.0 wanted) }
    {
        let sets = context.shape.sets;
        match wanted {
            Some(wanted) => self.is_idle()
                && remainder(word.0, sets) == remainder(wanted.0, sets)
                && self.may_go(word),
            None => false,
        }
    }

    /// Whether the node may evict the word: its next instruction lacks a place for a word of the same set, it waits for
    /// nothing, and the word is Valid, or Registered and not pending. Takes no memory.
    pub fn may_evict(&self, context: &Context<'_>, word: WordId) -> bool
        requires context { IsContext (setting context.now) }
        requires fits { Fits (setting context.now) self.now }
        ensures { result ≡ may_evict (setting context.now) self.now word.0 }
    {
        self.may_make_room(
            context,
            word,
            self.outlook(self.need(context)).missing_word(),
        )
    }

    /// Evicts a word, as `evict` does. What is sent is put into the caller's place. Takes no memory.
    #[inline(always)]
    pub fn evict_into(&mut self, context: &Context<'_>, word: WordId, sent: &mut Option<Outgoing>)
        requires context { IsContext (setting context.now) }
        requires fits { Fits (setting context.now) self.old }
        requires may { may_evict (setting context.now) self.old word.0 ≡ true }
        ensures node { self.new ≡ (evicted (setting context.now) self.old word).0 }
        ensures sent { sent.new ≡ (evicted (setting context.now) self.old word).1 }
        ensures fits { Fits (setting context.now) self.new }
    {
        *sent = None;
        self.give_up(context, word, sent);
    }

    /// Evicts a word, which must be allowed (`may_evict`): a copy is removed, and a registered word is written back to its
    /// home. Takes no memory.
    pub fn evict(&mut self, context: &Context<'_>, word: WordId) -> Option<Outgoing>
        requires context { IsContext (setting context.now) }
        requires fits { Fits (setting context.now) self.old }
        requires may { may_evict (setting context.now) self.old word.0 ≡ true }
        ensures node { self.new ≡ (evicted (setting context.now) self.old word).0 }
        ensures sent { result ≡ (evicted (setting context.now) self.old word).1 }
        ensures fits { Fits (setting context.now) self.new }
    {
        let mut sent = None;
        self.evict_into(context, word, &mut sent);
        sent
    }

    /// Whether the node's task goes on, and its next instruction needs nothing besides the task's own registers.
    #[inline(always)]
    fn computes(&self, context: &Context<'_>) -> bool
        requires { Fits (setting context.now) self.now }
        ensures { result ≡ true → need_now (setting context.now) self.now ≡ Some NeedsNothing }
    {
        match &self.task {
            Some(task) if task.end.is_none() => context.decoded.computes(task, context.fuel),
            _ => false,
        }
    }

    /// The outlook for the node's next instruction. Most instructions need nothing; that is found without the task's declaration.
    #[inline(always)]
    fn outlook_now(&self, context: &Context<'_>) -> Outlook
        requires { Fits (setting context.now) self.now }
        ensures goes { is_clear result ≡ lets self.now (need_now (setting context.now) self.now) }
        ensures lacked { lacked result ≡ wanted_by self.now (need_now (setting context.now) self.now) }
    {
        if self.computes(context) {
            Outlook::Goes
        } else {
            self.outlook(self.need(context))
        }
    }

    /// The cache's victim for the wanted word, if there is one.
    #[inline(always)]
    fn victim(&self, wanted: Option<WordId>) -> Option<WordId>
        ensures value { result ≡ victim_for self.now wanted }
        ensures evictable { IfSome result (λ w. may_go (entry_of self.now w.0) ≡ true) }
    {
        match wanted {
            Some(wanted) => self.cache.victim(wanted),
            None => None,
        }
    }

    /// The eviction that the node makes next, whose next instruction lacks a place for the wanted word, if there is one. The
    /// cache's victim is of that word's set, and may go, so neither is tested. The context is there for the clauses alone.
    #[inline(always)]
    fn eviction(&self, context: &Context<'_>, wanted: Option<WordId>) -> Option<Event>
        requires wanted { wanted ≡ wanted_by self.now (need_now (setting context.now) self.now) }
        ensures value { result ≡ eviction (setting context.now) self.now }
        ensures none { (result ≡ None) ↔ ((w : ℕ) → may_evict (setting context.now) self.now w ≡ false) }
    {
        let victim = self.victim(wanted)?;
        if self.is_idle() {
            Some(Event::Evict(self.core, victim))
        } else {
            None
        }
    }

    /// The node's arrival, where it may arrive.
    #[inline(always)]
    fn arrival(&self) -> Option<Event>
        ensures value { result ≡ arrival self.now }
        ensures none { (result ≡ None) ↔ (may_arrive self.now ≡ false) }
    {
        if self.may_arrive() {
            Some(Event::Arrive(self.core))
        } else {
            None
        }
    }

    /// What the node does next by itself: its instruction where that may go on, else the eviction of the cache's victim for
    /// the word that lacks a place, else its arrival at the barrier. Takes no memory.
    #[inline(always)]
    pub fn own(&self, context: &Context<'_>) -> Option<Event>
        requires context { IsContext (setting context.now) }
        requires fits { Fits (setting context.now) self.now }
        ensures event { result ≡ own_event (setting context.now) self.now }

        // None exactly if none of its own events may come
        ensures none { (result ≡ None) ↔ IsStill (setting context.now) self.now }
    {
        // A node that waits for a value or a lock makes neither an instruction nor an eviction.
        if !self.is_ready() {
            return self.arrival();
        }
        let outlook = self.outlook_now(context);
        if outlook.is_clear() {
            return Some(Event::Instr(self.core));
        }
        match self.eviction(context, outlook.missing_word()) {
            Some(event) => Some(event),
            None => self.arrival(),
        }
    }

    /// How the node's task stands, and how many instructions it has retired; None exactly if the node has no task, or its
    /// task is running and waits for no lock. Takes no memory.
    pub fn task_end(&self) -> Option<TaskEnd>
        ensures { result ≡ end_of self.now self.now.task }
    {
        let task = self.task.as_ref()?;
        let end = end_shown(task.end, self.wait)?;
        Some(TaskEnd {
            phase: self.phase,
            core: self.core,
            end,
            retired: task.retired,
        })
    }
}
