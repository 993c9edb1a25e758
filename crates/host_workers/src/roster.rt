//! All that workers own of a machine. It is dealt to their crews when a round begins, and gathered when it ends.
ghost use Rattle.std.specs.Prelude.{◌≡◌, ℕ, ◌≤◌, [], ◌∷◌, ◌++◌, map, length, slice_get, Some, IfOk, OnOk};
ghost use Rattle.host_workers.specs.declared.crew.BankLog.{BankLog as OneBank};
ghost use Rattle.host_workers.specs.declared.owned.Owned.{Owned as OneCore};
ghost use Rattle.host_workers.specs.Rosters.{roster_of, IsFreshCore, IsFreshRoster, AreCrewsOf, AreDealt, IsTheDealt, HaveGotCores, HaveGotBanks, HaveGivenCores, HaveGivenBanks, node_of, next_of, core_log, core_ends, bank_log, IsTakenApart};

use crate::EndSeen;
use crate::crew::{BankLog, Crew};
use crate::owned::Owned;
use dn_base::{BankId, CoreId, Memory};
use grant_log::Stamped;
use registration_protocol::Node;
use std::alloc::Global;

/// The cores and the banks of a machine in the order of their numbers, as workers own them, and the notes of the barrier
/// controller's events.
#[derive(Drop)]
pub(crate) struct Roster {
    pub(crate) cores: Vec<Owned>,
    pub(crate) banks: Vec<BankLog>,
    pub(crate) keeper: Vec<Stamped>,
}

/// A roster taken apart, each in the order of the cores' numbers, and all logs: of the cores, of the banks, and the barrier
/// controller's.
#[derive(Drop)]
pub(crate) struct Parted {
    pub(crate) nodes: Vec<Node>,
    pub(crate) next: Vec<u32>,
    pub(crate) ends: Vec<Vec<EndSeen>>,
    pub(crate) logs: Vec<Vec<Stamped>>,
}

/// A core when a round begins: its clock is at 0, and it has no notes.
fn fresh_core(alloc: Global, number: u32, node: Node, next: u32) -> Owned
    ensures core { result.core.0 ≡ number }
    ensures node { result.node ≡ node }
    ensures next { result.next ≡ next }
    ensures clock { result.clock ≡ 0 }
    ensures log { result.log.items ≡ [] }
    ensures ends { result.ends.items ≡ [] }
{
    Owned {
        core: CoreId(number),
        node,
        clock: 0,
        next,
        log: Vec::new(alloc),
        ends: Vec::new(alloc),
    }
}

/// The cores of these nodes when a round begins.
fn fresh_cores(alloc: Global, nodes: Vec<Node>, next: &[u32]) -> Result<Vec<Owned>, Memory>
    requires few { length nodes.items ≤ 16 }
    requires numbers { length nodes.items ≤ length next.now }
    ensures count { IfOk result (λ cores. length cores.items ≡ length nodes.items) }
    ensures places { IfOk result (λ cores. (i : ℕ) (o : OneCore) → slice_get cores.items i ≡ Some o → o.core.0 ≡ i) }
    ensures fresh { IfOk result (λ cores. (i : ℕ) (o : OneCore) → slice_get cores.items i ≡ Some o → IsFreshCore nodes.items next.now i o) }
{
    let mut cores = Vec::new(alloc);
    let mut number: u32 = 0;
    for node in nodes {
        let owned = fresh_core(alloc, number, node, next[number as usize]);
        cores.push(owned)?;
        number += 1;
    }
    Ok(cores)
}

/// `count` banks without notes.
fn fresh_banks(alloc: Global, count: u32) -> Result<Vec<BankLog>, Memory>
    ensures count { IfOk result (λ banks. length banks.items ≡ count) }
    ensures places { IfOk result (λ banks. (i : ℕ) (b : OneBank) → slice_get banks.items i ≡ Some b → b.bank.0 ≡ i) }
    ensures fresh { IfOk result (λ banks. (i : ℕ) (b : OneBank) → slice_get banks.items i ≡ Some b → b.log.items ≡ []) }
{
    let mut banks = Vec::new(alloc);
    for number in 0..count {
        banks.push(BankLog {
            bank: BankId(number),
            log: Vec::new(alloc),
        })?;
    }
    Ok(banks)
}

/// A crew that owns no core and no bank.
fn empty_crew(alloc: Global, worker: u32, keeper: Option<Vec<Stamped>>) -> Crew
    ensures worker { result.worker ≡ worker }
    ensures cores { result.cores.items ≡ [] }
    ensures banks { result.banks.items ≡ [] }
    ensures keeper { result.keeper ≡ keeper }
{
    Crew {
        worker,
        cores: Vec::new(alloc),
        banks: Vec::new(alloc),
        keeper,
    }
}

/// The crews of `workers` workers, without cores and banks.
fn empty_crews(alloc: Global, workers: u32, keeper: Vec<Stamped>) -> Result<Vec<Crew>, Memory>
    requires some { 1 ≤ workers }
    ensures { IfOk result (λ crews. AreCrewsOf workers (record { cores = []; banks = []; keeper = keeper.items }) crews.items) }
{
    let mut crews = Vec::new(alloc);
    crews.push(empty_crew(alloc, 0, Some(keeper)))?;
    for worker in 1..workers {
        crews.push(empty_crew(alloc, worker, None))?;
    }
    Ok(crews)
}

/// Deals cores to the crews, which have none.
fn deal_cores(crews: &mut Vec<Crew>, cores: Vec<Owned>) -> Result<(), Memory>
    requires some { 1 ≤ length crews.old.items }
    ensures count { OnOk result (length crews.new.items ≡ length crews.old.items) }
    ensures dealt { OnOk result (HaveGotCores cores.items crews.old.items crews.new.items) }
{
    for owned in cores {
        let number = owned.core.0 as usize % crews.len();
        crews[number].cores.push(owned)?;
    }
    Ok(())
}

/// Deals banks to the crews, which have none.
fn deal_banks(crews: &mut Vec<Crew>, banks: Vec<BankLog>) -> Result<(), Memory>
    requires some { 1 ≤ length crews.old.items }
    ensures count { OnOk result (length crews.new.items ≡ length crews.old.items) }
    ensures dealt { OnOk result (HaveGotBanks banks.items crews.old.items crews.new.items) }
{
    for owned in banks {
        let number = owned.bank.0 as usize % crews.len();
        crews[number].banks.push(owned)?;
    }
    Ok(())
}

/// Takes all cores back from the crews.
fn gather_cores(alloc: Global, crews: &mut Vec<Crew>, count: u32) -> Result<Vec<Owned>, Memory>
    requires some { 1 ≤ length crews.old.items }
    requires dealt { (banks : ℕ) × AreDealt count banks crews.old.items }
    ensures count { OnOk result (length crews.new.items ≡ length crews.old.items) }
    ensures gathered { IfOk result (λ cores. HaveGivenCores count crews.old.items crews.new.items cores.items) }
{
    let mut cores = Vec::new(alloc);
    for done in 0..count {
        let number = (count - 1 - done) as usize % crews.len();
        let owned = crews[number].cores.pop().unwrap();
        cores.push(owned)?;
    }
    cores.reverse();
    Ok(cores)
}

/// Takes all banks back from the crews.
fn gather_banks(alloc: Global, crews: &mut Vec<Crew>, count: u32) -> Result<Vec<BankLog>, Memory>
    requires some { 1 ≤ length crews.old.items }
    requires dealt { (cores : ℕ) × AreDealt cores count crews.old.items }
    ensures count { OnOk result (length crews.new.items ≡ length crews.old.items) }
    ensures gathered { IfOk result (λ banks. HaveGivenBanks count crews.old.items crews.new.items banks.items) }
{
    let mut banks = Vec::new(alloc);
    for done in 0..count {
        let number = (count - 1 - done) as usize % crews.len();
        let owned = crews[number].banks.pop().unwrap();
        banks.push(owned)?;
    }
    banks.reverse();
    Ok(banks)
}

impl Parted {
    /// No cores and no logs.
    fn none(alloc: Global) -> Parted
        ensures nodes { result.nodes.items ≡ [] }
        ensures next { result.next.items ≡ [] }
        ensures ends { map (λ e. e.items) result.ends.items ≡ [] }
        ensures logs { map (λ l. l.items) result.logs.items ≡ [] }
    {
        Parted {
            nodes: Vec::new(alloc),
            next: Vec::new(alloc),
            ends: Vec::new(alloc),
            logs: Vec::new(alloc),
        }
    }

    /// Adds a core, taken apart.
    fn add(&mut self, owned: Owned) -> Result<(), Memory>
        ensures nodes { OnOk result (self.new.nodes.items ≡ self.old.nodes.items ++ node_of owned ∷ []) }
        ensures next { OnOk result (self.new.next.items ≡ self.old.next.items ++ next_of owned ∷ []) }
        ensures ends { OnOk result (map (λ e. e.items) self.new.ends.items ≡ map (λ e. e.items) self.old.ends.items ++ core_ends owned ∷ []) }
        ensures logs { OnOk result (map (λ l. l.items) self.new.logs.items ≡ map (λ l. l.items) self.old.logs.items ++ core_log owned ∷ []) }
    {
        self.nodes.push(owned.node)?;
        self.next.push(owned.next)?;
        self.ends.push(owned.ends)?;
        self.logs.push(owned.log)?;
        Ok(())
    }
}

/// Takes the cores apart. The logs are only those of the cores.
fn part_cores(alloc: Global, cores: Vec<Owned>) -> Result<Parted, Memory>
    ensures nodes { IfOk result (λ p. p.nodes.items ≡ map node_of cores.items) }
    ensures next { IfOk result (λ p. p.next.items ≡ map next_of cores.items) }
    ensures ends { IfOk result (λ p. map (λ e. e.items) p.ends.items ≡ map core_ends cores.items) }
    ensures logs { IfOk result (λ p. map (λ l. l.items) p.logs.items ≡ map core_log cores.items) }
{
    let mut parted = Parted::none(alloc);
    for owned in cores {
        parted.add(owned)?;
    }
    Ok(parted)
}

/// Adds the logs of the banks.
fn push_logs(logs: &mut Vec<Vec<Stamped>>, banks: Vec<BankLog>) -> Result<(), Memory>
    ensures { OnOk result (map (λ l. l.items) logs.new.items ≡ map (λ l. l.items) logs.old.items ++ map bank_log banks.items) }
{
    for owned in banks {
        logs.push(owned.log)?;
    }
    Ok(())
}

impl Roster {
    /// The roster of these nodes and this many banks when a round begins; `next` has the numbers of the actors' next messages.
    ///
    /// # Errors
    /// `Memory` where there is no room.
    pub(crate) fn new(
        alloc: Global,
        nodes: Vec<Node>,
        banks: u32,
        next: &[u32],
    ) -> Result<Roster, Memory>
        requires cores { length nodes.items ≤ 16 }
        requires banks { banks ≤ 16 }
        requires numbers { length nodes.items ≤ length next.now }
        ensures { IfOk result (λ r. IsFreshRoster nodes.items banks next.now (roster_of r)) }
    {
        Ok(Roster {
            cores: fresh_cores(alloc, nodes, next)?,
            banks: fresh_banks(alloc, banks)?,
            keeper: Vec::new(alloc),
        })
    }

    /// Deals the roster to the crews of 1 to 16 workers. Each gets the cores and banks with its number modulo the number of
    /// workers, and worker 0 the barrier controller's log.
    ///
    /// # Errors
    /// `Memory` where there is no room.
    pub(crate) fn deal(self, alloc: Global, workers: u32) -> Result<Vec<Crew>, Memory>
        requires some { 1 ≤ workers }
        requires few { workers ≤ 16 }
        ensures { IfOk result (λ crews. AreCrewsOf workers (roster_of self) crews.items) }
    {
        let mut crews = empty_crews(alloc, workers, self.keeper)?;
        deal_cores(&mut crews, self.cores)?;
        deal_banks(&mut crews, self.banks)?;
        Ok(crews)
    }

    /// Gathers the crews of all workers again.
    ///
    /// # Errors
    /// `Memory` where there is no room.
    pub(crate) fn gather(
        alloc: Global,
        mut crews: Vec<Crew>,
        cores: u32,
        banks: u32,
    ) -> Result<Roster, Memory>
        requires some { 1 ≤ length crews.items }
        requires dealt { AreDealt cores banks crews.items }
        ensures { IfOk result (λ r. IsTheDealt cores banks crews.items (roster_of r)) }
    {
        let cores = gather_cores(alloc, &mut crews, cores)?;
        let banks = gather_banks(alloc, &mut crews, banks)?;
        let keeper = crews[0].keeper.take().unwrap();
        Ok(Roster {
            cores,
            banks,
            keeper,
        })
    }

    /// Takes the roster apart.
    ///
    /// # Errors
    /// `Memory` where there is no room.
    pub(crate) fn part(self, alloc: Global) -> Result<Parted, Memory>
        ensures { IfOk result (IsTakenApart (roster_of self)) }
    {
        let mut parted = part_cores(alloc, self.cores)?;
        push_logs(&mut parted.logs, self.banks)?;
        parted.logs.push(self.keeper)?;
        Ok(parted)
    }
}
