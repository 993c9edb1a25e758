ghost use Rattle.std.specs.Prelude.{◌≡◌, ◌<◌, ◌≤◌, true, false, length, slice_get, slice_set, Some, None};
ghost use Rattle.message_net.specs.declared.actor.Actor.TheVariants.{Core as TheCore, Bank as TheBank, Keeper as TheKeeper};
ghost use Rattle.message_net.specs.declared.event.EventKind.TheVariants.{Instr as InstrKind};
ghost use Rattle.message_net.specs.declared.event.Event.TheVariants.{Instr as AnInstr, Evict as AnEvict, Arrive as AnArrive, Handle as HandleOf};
ghost use Rattle.registration_protocol.specs.Node.{NodeParts};
ghost use Rattle.registration_protocol.specs.OwnEvents.{me, own_event};
ghost use Rattle.registration_protocol.specs.Setting.{setting};
ghost use Rattle.machine_rules.specs.Next.{sends, next, enabled, gets, grant_of_mail, granted_by, observed, core_gets, bank_handles, keeper_handles};
ghost use Rattle.phase_barrier.specs.Barrier.{keeper_gets};
ghost use Rattle.dn_machine.specs.Content.{state_of, KnowsOwn, IsWhole};

use crate::content::Content;
use crate::places::{
    arrive_at, compute_at, evict_at, handle_at, instr_at, instruct_at, own_at, receive_at,
};
use crate::posting::{send, send_letters};
use dn_base::{BankId, CoreId, Grant, WordId};
use machine_rules::Stepped;
use message_net::{Actor, Event, EventKind, MailId, Message, Outgoing};
use registration_protocol::Context;

/// What an event tells that reads nothing and grants nothing.
#[inline(always)]
fn silent(kind: EventKind) -> Stepped
    ensures { result ≡ record { kind = kind; seen = None; granted = None } }
{
    Stepped {
        kind,
        seen: None,
        granted: None,
    }
}

impl Content {
    /// What a core sends is in flight, and what it does next by itself is found again.
    #[inline(always)]
    fn core_sends(&mut self, context: &Context<'_>, core: CoreId, sent: &Option<Outgoing>)
        requires whole { IsWhole (state_of (setting context.now) self.old) }
        requires core { core.0 < length self.old.nodes.items }
        requires spare { 1 ≤ self.old.pool.spare }
        ensures state { state_of (setting context.now) self.new ≡ sends (state_of (setting context.now) self.old) (TheCore core) sent.now }
        ensures own { (n : NodeParts) → slice_get self.old.nodes.items core.0 ≡ Some n
            → self.new.own ≡ slice_set self.old.own core.0 (own_event (setting context.now) n) }
    {
        let place = core.0 as usize;
        send(
            &mut self.pool,
            &mut self.numbers,
            place,
            Actor::Core(core),
            sent,
        );
        let own = own_at(self.nodes.as_slice(), place, context);
        self.own.set(place, own);
    }

    /// What a core sends is in flight, and nothing else changes. The context is there for the clauses alone.
    #[inline(always)]
    fn core_posts(&mut self, context: &Context<'_>, core: CoreId, sent: &Option<Outgoing>)
        requires whole { IsWhole (state_of (setting context.now) self.old) }
        requires core { core.0 < length self.old.nodes.items }
        requires spare { 1 ≤ self.old.pool.spare }
        ensures state { state_of (setting context.now) self.new ≡ sends (state_of (setting context.now) self.old) (TheCore core) sent.now }
        ensures own { self.new.own ≡ self.old.own }
    {
        send(
            &mut self.pool,
            &mut self.numbers,
            core.0 as usize,
            Actor::Core(core),
            sent,
        );
    }

    /// What a core sends that got a message is in flight, and what it does next by itself is known. A core whose instruction is
    /// enabled keeps it, so that it isn't looked for.
    #[inline(always)]
    fn core_got(&mut self, context: &Context<'_>, core: CoreId, sent: &Option<Outgoing>)
        requires whole { IsWhole (state_of (setting context.now) self.old) }
        requires core { core.0 < length self.old.nodes.items }
        requires spare { 1 ≤ self.old.pool.spare }
        requires stays { (n : NodeParts) (c : CoreId) → slice_get self.old.nodes.items core.0 ≡ Some n
            → slice_get self.old.own core.0 ≡ Some (Some (AnInstr c)) → own_event (setting context.now) n ≡ Some (AnInstr c) }
        ensures state { state_of (setting context.now) self.new ≡ sends (state_of (setting context.now) self.old) (TheCore core) sent.now }
        ensures own { (n : NodeParts) → slice_get self.old.nodes.items core.0 ≡ Some n
            → self.new.own ≡ slice_set self.old.own core.0 (own_event (setting context.now) n) }
    {
        if self.own.has_instr(core) {
            self.core_posts(context, core, sent);
            return;
        }
        self.core_sends(context, core, sent);
    }

    /// What a core sends that evicted a word is in flight, and what it does next by itself is known. If it sends nothing, the
    /// word has made room for the one that its instruction lacks.
    #[inline(always)]
    fn core_evicted(&mut self, context: &Context<'_>, core: CoreId, sent: &Option<Outgoing>)
        requires whole { IsWhole (state_of (setting context.now) self.old) }
        requires core { core.0 < length self.old.nodes.items }
        requires spare { 1 ≤ self.old.pool.spare }
        requires room { (n : NodeParts) → slice_get self.old.nodes.items core.0 ≡ Some n → sent.now ≡ None
            → own_event (setting context.now) n ≡ Some (AnInstr (me n)) }
        ensures state { state_of (setting context.now) self.new ≡ sends (state_of (setting context.now) self.old) (TheCore core) sent.now }
        ensures own { (n : NodeParts) → slice_get self.old.nodes.items core.0 ≡ Some n
            → self.new.own ≡ slice_set self.old.own core.0 (own_event (setting context.now) n) }
    {
        if sent.is_some() {
            self.core_sends(context, core, sent);
            return;
        }
        let place = core.0 as usize;
        let own = instr_at(self.nodes.as_slice(), place);
        self.own.set(place, Some(own));
    }

    /// Completes the next instruction of a core, which may go on, if it needs nothing besides the task's own registers. Otherwise it
    /// does nothing. Returns whether it completed one.
    #[inline(always)]
    fn compute(&mut self, context: &Context<'_>, core: CoreId) -> bool
        requires whole { IsWhole (state_of (setting context.now) self.old) }
        requires known { KnowsOwn (setting context.now) self.old }
        requires may { enabled (state_of (setting context.now) self.old) (AnInstr core) ≡ true }
        requires spare { 1 ≤ self.old.pool.spare }
        ensures state { result ≡ true → state_of (setting context.now) self.new ≡ next (state_of (setting context.now) self.old) (AnInstr core) }
        ensures observed { result ≡ true → record { kind = InstrKind; seen = None; granted = None } ≡ observed (state_of (setting context.now) self.old) (AnInstr core) }
        ensures known { result ≡ true → KnowsOwn (setting context.now) self.new }
        ensures left { result ≡ false → (state_of (setting context.now) self.new ≡ state_of (setting context.now) self.old)
            × (self.new.own ≡ self.old.own) × (self.new.pool ≡ self.old.pool) }
    {
        if !compute_at(&mut self.nodes, core.0 as usize, context) {
            return false;
        }
        self.core_sends(context, core, &None);
        true
    }

    /// The next instruction of a core, which may go on, where `compute` completed none.
    #[inline(always)]
    fn instruct_by_need(&mut self, context: &Context<'_>, core: CoreId) -> Stepped
        requires whole { IsWhole (state_of (setting context.now) self.old) }
        requires known { KnowsOwn (setting context.now) self.old }
        requires may { enabled (state_of (setting context.now) self.old) (AnInstr core) ≡ true }
        requires spare { 1 ≤ self.old.pool.spare }
        ensures state { state_of (setting context.now) self.new ≡ next (state_of (setting context.now) self.old) (AnInstr core) }
        ensures observed { result ≡ observed (state_of (setting context.now) self.old) (AnInstr core) }
        ensures known { KnowsOwn (setting context.now) self.new }
    {
        let mut sent = None;
        let seen = instruct_at(&mut self.nodes, core.0 as usize, context, &mut sent);
        self.core_sends(context, core, &sent);
        Stepped {
            kind: EventKind::Instr,
            seen,
            granted: None,
        }
    }

    /// The next instruction of a core, which may go on. Most instructions need nothing, and so send nothing: for these no place for a
    /// message is made ready.
    #[inline(always)]
    pub(crate) fn instruct(&mut self, context: &Context<'_>, core: CoreId) -> Stepped
        requires whole { IsWhole (state_of (setting context.now) self.old) }
        requires known { KnowsOwn (setting context.now) self.old }
        requires may { enabled (state_of (setting context.now) self.old) (AnInstr core) ≡ true }
        requires spare { 1 ≤ self.old.pool.spare }
        ensures state { state_of (setting context.now) self.new ≡ next (state_of (setting context.now) self.old) (AnInstr core) }
        ensures observed { result ≡ observed (state_of (setting context.now) self.old) (AnInstr core) }
        ensures known { KnowsOwn (setting context.now) self.new }
    {
        if self.compute(context, core) {
            return silent(EventKind::Instr);
        }
        self.instruct_by_need(context, core)
    }

    /// A core, which may, evicts a word.
    #[inline(always)]
    pub(crate) fn evict(&mut self, context: &Context<'_>, core: CoreId, word: WordId) -> Stepped
        requires whole { IsWhole (state_of (setting context.now) self.old) }
        requires known { KnowsOwn (setting context.now) self.old }
        requires may { enabled (state_of (setting context.now) self.old) (AnEvict core word) ≡ true }
        requires spare { 1 ≤ self.old.pool.spare }
        ensures state { state_of (setting context.now) self.new ≡ next (state_of (setting context.now) self.old) (AnEvict core word) }
        ensures observed { result ≡ observed (state_of (setting context.now) self.old) (AnEvict core word) }
        ensures known { KnowsOwn (setting context.now) self.new }
    {
        let sent = evict_at(&mut self.nodes, core.0 as usize, context, word);
        self.core_evicted(context, core, &sent);
        silent(EventKind::Evict)
    }

    /// A core, which may, arrives at the barrier.
    #[inline(always)]
    pub(crate) fn arrive(&mut self, context: &Context<'_>, core: CoreId) -> Stepped
        requires whole { IsWhole (state_of (setting context.now) self.old) }
        requires known { KnowsOwn (setting context.now) self.old }
        requires may { enabled (state_of (setting context.now) self.old) (AnArrive core) ≡ true }
        requires spare { 1 ≤ self.old.pool.spare }
        ensures state { state_of (setting context.now) self.new ≡ next (state_of (setting context.now) self.old) (AnArrive core) }
        ensures observed { result ≡ observed (state_of (setting context.now) self.old) (AnArrive core) }
        ensures known { KnowsOwn (setting context.now) self.new }
    {
        let sent = arrive_at(&mut self.nodes, core.0 as usize, context);
        self.core_sends(context, core, &Some(sent));
        silent(EventKind::Arrive)
    }

    /// A core gets a message, where it is there; the lock that it is granted by it.
    #[inline(always)]
    fn core_gets(&mut self, context: &Context<'_>, core: CoreId, message: &Message) -> Option<Grant>
        requires whole { IsWhole (state_of (setting context.now) self.old) }
        requires known { KnowsOwn (setting context.now) self.old }
        requires spare { 1 ≤ self.old.pool.spare }
        ensures state { state_of (setting context.now) self.new ≡ core_gets (state_of (setting context.now) self.old) core message.now (slice_get self.old.nodes.items core.0) }
        ensures granted { result ≡ granted_by (setting context.now) message.now (slice_get self.old.nodes.items core.0) }
        ensures known { KnowsOwn (setting context.now) self.new }
    {
        let place = core.0 as usize;
        if place >= self.nodes.len() {
            return None;
        }
        let received = receive_at(&mut self.nodes, place, context, *message);
        self.core_got(context, core, &received.sent);
        received.granted
    }

    /// A bank gets a message, where it is there.
    #[inline(always)]
    fn bank_gets(&mut self, context: &Context<'_>, bank: BankId, message: &Message)
        requires whole { IsWhole (state_of (setting context.now) self.old) }
        requires known { KnowsOwn (setting context.now) self.old }
        requires spare { 1 ≤ self.old.pool.spare }
        ensures state { state_of (setting context.now) self.new ≡ bank_handles (state_of (setting context.now) self.old) (TheBank bank) bank.0 message.now (slice_get self.old.banks.items bank.0) }
        ensures known { KnowsOwn (setting context.now) self.new }
    {
        if bank.0 as usize >= self.banks.len() {
            return;
        }
        let sent = handle_at(&mut self.banks, bank.0 as usize, *message);
        let from = Actor::Bank(bank);
        let index = from.index(context.shape.cores, context.shape.banks);
        send(&mut self.pool, &mut self.numbers, index, from, &sent);
    }

    /// The barrier controller gets a message.
    fn keeper_gets(&mut self, context: &Context<'_>, message: &Message)
        requires whole { IsWhole (state_of (setting context.now) self.old) }
        requires known { KnowsOwn (setting context.now) self.old }
        requires spare { (setting context.now).shape.cores ≤ self.old.pool.spare }
        ensures state { state_of (setting context.now) self.new ≡ keeper_handles (state_of (setting context.now) self.old) (keeper_gets self.old.keeper message.now) }
        ensures known { KnowsOwn (setting context.now) self.new }
    {
        let verdict = self.keeper.handle(*message);
        let cores = context.shape.cores;
        let index = Actor::Keeper.index(cores, context.shape.banks);
        send_letters(&mut self.pool, &mut self.numbers, index, cores, verdict);
    }

    /// An actor gets a message; the lock that a core is granted by it.
    #[inline(always)]
    pub(crate) fn deliver(
        &mut self,
        context: &Context<'_>,
        to: Actor,
        message: &Message,
    ) -> Option<Grant>
        requires whole { IsWhole (state_of (setting context.now) self.old) }
        requires known { KnowsOwn (setting context.now) self.old }
        requires spare { (setting context.now).shape.cores ≤ self.old.pool.spare }
        ensures state { state_of (setting context.now) self.new ≡ gets (state_of (setting context.now) self.old) to message.now }
        ensures granted { result ≡ grant_of_mail (state_of (setting context.now) self.old) to message.now }
        ensures known { KnowsOwn (setting context.now) self.new }
    {
        match to {
            Actor::Core(core) => self.core_gets(context, core, message),
            Actor::Bank(bank) => {
                self.bank_gets(context, bank, message);
                None
            }
            Actor::Keeper => {
                self.keeper_gets(context, message);
                None
            }
        }
    }

    /// The message with this id, which is in flight, is handled by the actor that it goes to.
    pub(crate) fn handle(&mut self, context: &Context<'_>, id: MailId) -> Stepped
        requires whole { IsWhole (state_of (setting context.now) self.old) }
        requires known { KnowsOwn (setting context.now) self.old }
        requires may { enabled (state_of (setting context.now) self.old) (HandleOf id) ≡ true }
        requires spare { (setting context.now).shape.cores ≤ self.old.pool.spare }
        ensures state { state_of (setting context.now) self.new ≡ next (state_of (setting context.now) self.old) (HandleOf id) }
        ensures observed { result ≡ observed (state_of (setting context.now) self.old) (HandleOf id) }
        ensures known { KnowsOwn (setting context.now) self.new }
    {
        match self.pool.take(id) {
            None => silent(EventKind::Instr),
            Some(mail) => {
                let granted = self.deliver(context, mail.to, &mail.message);
                Stepped {
                    kind: mail.message.kind(),
                    seen: None,
                    granted,
                }
            }
        }
    }

    /// An event, which is enabled.
    #[inline(always)]
    pub(crate) fn act(&mut self, context: &Context<'_>, event: Event) -> Stepped
        requires whole { IsWhole (state_of (setting context.now) self.old) }
        requires known { KnowsOwn (setting context.now) self.old }
        requires may { enabled (state_of (setting context.now) self.old) event ≡ true }
        requires spare { (setting context.now).shape.cores ≤ self.old.pool.spare }
        ensures state { state_of (setting context.now) self.new ≡ next (state_of (setting context.now) self.old) event }
        ensures observed { result ≡ observed (state_of (setting context.now) self.old) event }
        ensures known { KnowsOwn (setting context.now) self.new }
    {
        match event {
            Event::Instr(core) => self.instruct(context, core),
            Event::Evict(core, word) => self.evict(context, core, word),
            Event::Arrive(core) => self.arrive(context, core),
            Event::Handle(id) => self.handle(context, id),
        }
    }
}
