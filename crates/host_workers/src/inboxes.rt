//! The messages in flight, each in the inbox of its receiver, in the form in which the objects of a hall have them.
ghost use Rattle.std.specs.Prelude.{◌≡◌, ◌<◌, ◌+◌, ◌++◌, ◌∷◌, [], length, map, flat_map, All, IfOk, OnOk};
ghost use Rattle.std.specs.List.{range_with_len};
ghost use Rattle.message_net.specs.Pool.{AreDistinct};
ghost use Rattle.host_workers.specs.Rounds.{mail_in};
ghost use Rattle.host_workers.specs.Inboxes.{inboxes_of, put_at, put_in, AreFirstInboxes, all_mails_in, all_posted, bank_parts, bank_inbox, bank_number, bank_clock, port_mails, AreObjectsOf, AreAtFirst};

use bank_hall::{BankActor, HallParts, KeeperActor, Port};
use dn_base::{BankId, CoreId, Memory, Shape};
use grant_log::Posted;
use message_net::{Actor, Pool};
use phase_barrier::Keeper;
use registry_bank::Bank;
use std::alloc::Global;

/// The inboxes of the cores and of the banks in the order of their numbers, and the barrier controller's.
#[derive(Drop)]
pub(crate) struct Inboxes {
    pub(crate) cores: Vec<Vec<Posted>>,
    pub(crate) banks: Vec<Vec<Posted>>,
    pub(crate) keeper: Vec<Posted>,
}

/// The objects of a closed hall taken apart: the banks, the barrier controller, the numbers of their next messages (the banks' in
/// their order, then the barrier controller's), and all inboxes.
#[derive(Drop)]
pub(crate) struct Objects {
    pub(crate) banks: Vec<Bank>,
    pub(crate) keeper: Keeper,
    pub(crate) next: Vec<u32>,
    pub(crate) inboxes: Inboxes,
}

/// `count` inboxes without messages.
fn empty_inboxes(alloc: Global, count: u32) -> Result<Vec<Vec<Posted>>, Memory>
    ensures { IfOk result (λ inboxes. map (λ v. v.items) inboxes.items ≡ map (λ i. []) (range_with_len 0 count)) }
{
    let mut inboxes = Vec::new(alloc);
    for _place in 0..count {
        inboxes.push(Vec::new(alloc))?;
    }
    Ok(inboxes)
}

/// Puts a message at the end of the inbox at an index, if there is one.
fn put_at(inboxes: &mut Vec<Vec<Posted>>, place: usize, posted: Posted) -> Result<(), Memory>
    ensures { OnOk result (map (λ v. v.items) inboxes.new.items ≡ put_at posted place (map (λ v. v.items) inboxes.old.items)) }
{
    if place < inboxes.len() {
        inboxes[place].push(posted)?;
    }
    Ok(())
}

/// Adds the messages of an inbox to a pool.
fn post_all(pool: &mut Pool, inbox: &[Posted]) -> Result<(), Memory>
    requires distinct { AreDistinct (pool.old.mails ++ map mail_in inbox.now) }
    requires few { length (pool.old.mails ++ map mail_in inbox.now) < 4294967295 }
    ensures { OnOk result (pool.new.mails ≡ pool.old.mails ++ map mail_in inbox.now) }
{
    for posted in inbox {
        pool.post(posted.mail)?;
    }
    Ok(())
}

/// Adds the messages of several inboxes to a pool, one inbox after the other.
fn post_each(pool: &mut Pool, inboxes: &[Vec<Posted>]) -> Result<(), Memory>
    requires distinct { AreDistinct (pool.old.mails ++ all_mails_in (map (λ v. v.items) inboxes.now)) }
    requires few { length (pool.old.mails ++ all_mails_in (map (λ v. v.items) inboxes.now)) < 4294967295 }
    ensures { OnOk result (pool.new.mails ≡ pool.old.mails ++ all_mails_in (map (λ v. v.items) inboxes.now)) }
{
    for inbox in inboxes {
        post_all(pool, inbox.as_slice())?;
    }
    Ok(())
}

/// Each bank with its inbox and the number of its next message, and a clock at 0.
fn bank_actors(
    alloc: Global,
    mut banks: Vec<Bank>,
    mut inboxes: Vec<Vec<Posted>>,
    next: &[u32],
) -> Result<Vec<BankActor>, Memory>
    requires inboxes { length inboxes.items ≡ length banks.items }
    requires numbers { length next.now ≡ length banks.items }
    ensures banks { IfOk result (λ actors. map bank_parts actors.items ≡ banks.items) }
    ensures inboxes { IfOk result (λ actors. map bank_inbox actors.items ≡ map (λ v. v.items) inboxes.items) }
    ensures numbers { IfOk result (λ actors. map bank_number actors.items ≡ next.now) }
    ensures clocks { IfOk result (λ actors. All (λ a. bank_clock a ≡ 0) actors.items) }
{
    let mut actors = Vec::new(alloc);
    while let Some(bank) = banks.pop() {
        let place = banks.len();
        let Some(inbox) = inboxes.pop() else {
            unreachable!()
        };
        actors.insert(0, BankActor::new(bank, inbox, next[place], 0))?;
    }
    Ok(actors)
}

/// A port for each inbox.
fn core_ports(alloc: Global, mut inboxes: Vec<Vec<Posted>>) -> Result<Vec<Port>, Memory>
    ensures { IfOk result (λ ports. map port_mails ports.items ≡ map (λ v. v.items) inboxes.items) }
{
    let mut ports = Vec::new(alloc);
    while let Some(inbox) = inboxes.pop() {
        ports.insert(0, Port::new(inbox))?;
    }
    Ok(ports)
}

impl Inboxes {
    /// The inboxes of a machine's actors, without messages.
    fn empty(alloc: Global, shape: Shape) -> Result<Inboxes, Memory>
        ensures { IfOk result (λ inboxes. AreFirstInboxes shape [] (inboxes_of inboxes)) }
    {
        Ok(Inboxes {
            cores: empty_inboxes(alloc, shape.cores)?,
            banks: empty_inboxes(alloc, shape.banks)?,
            keeper: Vec::new(alloc),
        })
    }

    /// Puts a message at the end of the inbox of its receiver, if that has one.
    fn put(&mut self, posted: Posted) -> Result<(), Memory>
        ensures { OnOk result (inboxes_of self.new ≡ put_in posted posted.mail.to (inboxes_of self.old)) }
    {
        match posted.mail.to {
            Actor::Core(core) => put_at(&mut self.cores, core.0 as usize, posted),
            Actor::Bank(bank) => put_at(&mut self.banks, bank.0 as usize, posted),
            Actor::Keeper => {
                self.keeper.push(posted)?;
                Ok(())
            }
        }
    }

    /// The inboxes of a machine's actors when a round begins: each message in flight, in the pool's order and with stamp 0, in
    /// the inbox of its receiver. One pass over the pool makes them.
    ///
    /// # Errors
    /// `Memory` where there is no room.
    pub(crate) fn new(alloc: Global, pool: &Pool, shape: Shape) -> Result<Inboxes, Memory>
        ensures { IfOk result (λ inboxes. AreFirstInboxes shape pool.now.mails (inboxes_of inboxes)) }
    {
        let mut inboxes = Inboxes::empty(alloc, shape)?;
        for place in 0..pool.count() {
            inboxes.put(Posted {
                mail: pool.at(place),
                stamp: 0,
            })?;
        }
        Ok(inboxes)
    }

    /// The objects of a hall: the banks and the barrier controller with their inboxes, the numbers of their next messages and
    /// clocks at 0, and the cores' ports. `next` has the numbers of the banks' next messages in their order, and then the barrier
    /// controller's.
    ///
    /// # Errors
    /// `Memory` where there is no room.
    pub(crate) fn objects(
        self,
        alloc: Global,
        banks: Vec<Bank>,
        keeper: Keeper,
        next: &[u32],
    ) -> Result<HallParts, Memory>
        requires banks { length self.banks.items ≡ length banks.items }
        requires numbers { length next.now ≡ length banks.items + 1 }
        ensures objects { IfOk result (λ parts. AreObjectsOf banks.items keeper (inboxes_of self) next.now parts.banks.items parts.ports.items parts.keeper) }
        ensures clocks { IfOk result (λ parts. AreAtFirst parts.banks.items parts.keeper) }
    {
        let count = banks.len();
        Ok(HallParts {
            banks: bank_actors(alloc, banks, self.banks, &next[..count])?,
            ports: core_ports(alloc, self.cores)?,
            keeper: KeeperActor::new(keeper, self.keeper, next[count], 0),
        })
    }

    /// The pool of all messages in the inboxes. No two of them have the same id.
    ///
    /// # Errors
    /// `Memory` where there is no room.
    pub(crate) fn pool(&self, alloc: Global) -> Result<Pool, Memory>
        requires distinct { AreDistinct (map mail_in (all_posted (inboxes_of self.now))) }
        requires few { length (all_posted (inboxes_of self.now)) < 4294967295 }
        ensures { IfOk result (λ pool. pool.mails ≡ map mail_in (all_posted (inboxes_of self.now))) }
    {
        let mut pool = Pool::new(alloc);
        post_each(&mut pool, self.cores.as_slice())?;
        post_each(&mut pool, self.banks.as_slice())?;
        post_all(&mut pool, self.keeper.as_slice())?;
        Ok(pool)
    }
}

/// The banks, their inboxes and the numbers of their next messages, each in the banks' order.
#[derive(Drop)]
struct Homes {
    banks: Vec<Bank>,
    inboxes: Vec<Vec<Posted>>,
    next: Vec<u32>,
}

impl Homes {
    /// No banks.
    fn none(alloc: Global) -> Homes
        ensures banks { result.banks.items ≡ [] }
        ensures inboxes { map (λ v. v.items) result.inboxes.items ≡ [] }
        ensures numbers { result.next.items ≡ [] }
    {
        Homes {
            banks: Vec::new(alloc),
            inboxes: Vec::new(alloc),
            next: Vec::new(alloc),
        }
    }

    /// Puts a bank's actor, taken apart, before the others.
    fn add(&mut self, actor: BankActor) -> Result<(), Memory>
        ensures banks { OnOk result (self.new.banks.items ≡ bank_parts actor ∷ self.old.banks.items) }
        ensures inboxes { OnOk result (map (λ v. v.items) self.new.inboxes.items ≡ bank_inbox actor ∷ map (λ v. v.items) self.old.inboxes.items) }
        ensures numbers { OnOk result (self.new.next.items ≡ bank_number actor ∷ self.old.next.items) }
    {
        let (bank, inbox, number, _clock) = actor.parts();
        self.banks.insert(0, bank)?;
        self.inboxes.insert(0, inbox)?;
        self.next.insert(0, number)?;
        Ok(())
    }
}

/// The bank actors taken apart.
fn homes_of(alloc: Global, mut actors: Vec<BankActor>) -> Result<Homes, Memory>
    ensures banks { IfOk result (λ homes. homes.banks.items ≡ map bank_parts actors.items) }
    ensures inboxes { IfOk result (λ homes. map (λ v. v.items) homes.inboxes.items ≡ map bank_inbox actors.items) }
    ensures numbers { IfOk result (λ homes. homes.next.items ≡ map bank_number actors.items) }
{
    let mut homes = Homes::none(alloc);
    while let Some(actor) = actors.pop() {
        homes.add(actor)?;
    }
    Ok(homes)
}

/// The inboxes of the ports.
fn port_inboxes(alloc: Global, mut ports: Vec<Port>) -> Result<Vec<Vec<Posted>>, Memory>
    ensures { IfOk result (λ inboxes. map (λ v. v.items) inboxes.items ≡ map port_mails ports.items) }
{
    let mut inboxes = Vec::new(alloc);
    while let Some(port) = ports.pop() {
        inboxes.insert(0, port.parts())?;
    }
    Ok(inboxes)
}

/// The objects of a closed hall taken apart.
///
/// # Errors
/// `Memory` where there is no room.
pub(crate) fn take_apart(alloc: Global, parts: HallParts) -> Result<Objects, Memory>
    ensures { IfOk result (λ o. AreObjectsOf o.banks.items o.keeper (inboxes_of o.inboxes) o.next.items parts.banks.items parts.ports.items parts.keeper) }
{
    let HallParts {
        banks,
        ports,
        keeper,
    } = parts;
    let homes = homes_of(alloc, banks)?;
    let cores = port_inboxes(alloc, ports)?;
    let (keeper, inbox, number, _clock) = keeper.parts();
    let mut next = homes.next;
    next.push(number)?;
    Ok(Objects {
        banks: homes.banks,
        keeper,
        next,
        inboxes: Inboxes {
            cores,
            banks: homes.inboxes,
            keeper: inbox,
        },
    })
}
