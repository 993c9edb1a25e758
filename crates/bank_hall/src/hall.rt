ghost use Rattle.std.specs.Prelude.{◌≡◌, ◌<◌, ◌≤◌, ◌^◌, [], ◌∷◌, length, map, All, IfOk, IfErr, OnOk, OnErr};
ghost use Rattle.message_net.specs.declared.actor.Actor.TheVariants.{Core, Bank as Home, Keeper};
ghost use Rattle.turn_lock.specs.History.{entry};
ghost use Rattle.bank_hall.specs.declared.bank.BankIn.TheVariants.{Step as BankStep};
ghost use Rattle.bank_hall.specs.declared.bank.BankOut.TheVariants.{Stepped as BankStepped};
ghost use Rattle.bank_hall.specs.declared.port.PortIn.TheVariants.{Take};
ghost use Rattle.bank_hall.specs.declared.port.PortOut.TheVariants.{Taken};
ghost use Rattle.bank_hall.specs.declared.keeper.KeeperIn.TheVariants.{Step as KeeperStep};
ghost use Rattle.bank_hall.specs.declared.keeper.KeeperOut.TheVariants.{Stepped as KeeperStepped};
ghost use Rattle.bank_hall.specs.Halls.{IsHallPass, HasActor, HasMadeCalls, BankCall, PortCall, KeeperCall, PostCall, pass_number, bank_calls, port_calls, keeper_calls, post_calls, AreHallParts, IsSharedHall, AreNewPasses, passes_of, bank_state, bank_answer, bank_next, port_inbox, port_answer, port_next, keeper_state, keeper_answer, keeper_next};
ghost use Rattle.bank_hall.specs.Closing.{AreAllHallPasses, IsClosedRow, IsToldPass};

use crate::bank::{BankActor, BankIn, BankOut, Handled};
use crate::keeper::{KeeperActor, KeeperHandled, KeeperIn, KeeperOut};
use crate::port::{Port, PortIn, PortOut};
use crate::row::{Row, RowPass, crosses, take_last};
use dn_base::{BankId, CoreId, Gate, Memory};
use grant_log::Posted;
use message_net::Actor;
use std::alloc::Global;
use std::marker::Model;
use std::sync::Wait;
use turn_lock::Entry;

/// The banks, the ports and the barrier controller of one round, each under a turn of its own. Any number of threads may make
/// calls through a `&Hall`, each with a pass of its own.
#[derive(Drop)]
pub struct Hall {
    pub(crate) banks: Row<BankActor>,
    pub(crate) ports: Row<Port>,
    pub(crate) keeper: Row<KeeperActor>,
}

impl Model for Hall {
    ghost use Rattle.std.specs.Prelude.{◌≡◌, length};
    ghost use Rattle.bank_hall.specs.Halls.{HallView};

    ghost Value = { HallView };

    ghost view = { λ h. record { banks = h.banks; ports = h.ports; keeper = h.keeper } };

    ghost invariant = { λ h. length h.keeper ≡ 1 };
}

/// A caller's token of a hall: its number, and for each object the calls that it made and the history that it has seen.
#[derive(Drop)]
pub struct Pass {
    pub(crate) banks: RowPass<BankActor>,
    pub(crate) ports: RowPass<Port>,
    pub(crate) keeper: RowPass<KeeperActor>,
}

impl Model for Pass {
    ghost use Rattle.bank_hall.specs.Halls.{PassView};

    ghost Value = { PassView };

    ghost view = { λ p. record { banks = p.banks; ports = p.ports; keeper = p.keeper } };
}

/// What a hall shares, and what it gives back.
#[derive(Drop)]
pub struct HallParts {
    pub banks: Vec<BankActor>,
    pub ports: Vec<Port>,
    pub keeper: KeeperActor,
}

/// What a closed hall gives back: its parts, and all calls of each of them in one order.
#[derive(Drop)]
pub struct HallEnd {
    pub parts: HallParts,
    /// The calls of each bank, by its index.
    pub banks: Vec<Vec<Entry<BankActor>>>,
    /// The calls of each port, by its index.
    pub ports: Vec<Vec<Entry<Port>>>,
    pub keeper: Vec<Entry<KeeperActor>>,
}

/// The passes of all callers, each of them one pass of each turn.
fn tie(
    alloc: Global,
    mut banks: Vec<RowPass<BankActor>>,
    mut ports: Vec<RowPass<Port>>,
    mut keepers: Vec<RowPass<KeeperActor>>,
) -> Result<Vec<Pass>, Memory>
    requires ports { length ports.items ≡ length banks.items }
    requires keepers { length keepers.items ≡ length banks.items }
    ensures { IfOk result (λ all. all.items ≡ passes_of banks.items ports.items keepers.items) }
{
    let mut all = Vec::with_capacity(alloc, banks.len())?;
    while let Some(last) = banks.pop() {
        all.push_reserved(Pass {
            banks: last,
            ports: take_last(&mut ports),
            keeper: take_last(&mut keepers),
        });
    }
    all.reverse();
    Ok(all)
}

/// A caller's passes of the banks, of the ports and of the barrier controller.
#[derive(Drop)]
struct Apart {
    banks: Vec<RowPass<BankActor>>,
    ports: Vec<RowPass<Port>>,
    keeper: Vec<RowPass<KeeperActor>>,
}

/// The passes of the banks, of the ports and of the barrier controller, of all callers.
fn untie(alloc: Global, mut passes: Vec<Pass>) -> Result<Apart, Memory>
    ensures banks { IfOk result (λ all. all.banks.items ≡ map (λ p. p.banks) passes.items) }
    ensures ports { IfOk result (λ all. all.ports.items ≡ map (λ p. p.ports) passes.items) }
    ensures keeper { IfOk result (λ all. all.keeper.items ≡ map (λ p. p.keeper) passes.items) }
{
    let mut banks = Vec::with_capacity(alloc, passes.len())?;
    let mut ports = Vec::with_capacity(alloc, passes.len())?;
    let mut keeper = Vec::with_capacity(alloc, passes.len())?;
    passes.reverse();
    while let Some(pass) = passes.pop() {
        banks.push_reserved(pass.banks);
        ports.push_reserved(pass.ports);
        keeper.push_reserved(pass.keeper);
    }
    Ok(Apart {
        banks,
        ports,
        keeper,
    })
}

/// The barrier controller and its history, of a row of one.
fn only(
    mut keepers: Vec<KeeperActor>,
    mut histories: Vec<Vec<Entry<KeeperActor>>>,
) -> (KeeperActor, Vec<Entry<KeeperActor>>)
    requires one { length keepers.items ≡ 1 }
    requires history { length histories.items ≡ 1 }
    ensures keeper { keepers.items ≡ result.0 ∷ [] }
    ensures history { map (λ h. h.items) histories.items ≡ result.1.items ∷ [] }
{
    match (keepers.pop(), histories.pop()) {
        (Some(keeper), Some(history)) => (keeper, history),
        _ => unreachable!(),
    }
}

impl Hall {
    /// Shares 1 to 16 banks, 1 to 16 ports and the barrier controller among 1 to 17 callers, whose passes have the numbers from 0
    /// on.
    ///
    /// The bank at index b must have the number b, the barrier controller as many cores as there are ports, and each message in
    /// an inbox must go to that inbox's actor and have a stamp of at most 2^63.
    ///
    /// # Errors
    /// `Memory` if there is no room; the parts are dropped.
    pub fn start(alloc: Global, parts: HallParts, passes: u32) -> Result<(Hall, Vec<Pass>), Memory>
        requires some { 1 ≤ passes }
        requires few { passes ≤ 17 }
        requires parts { AreHallParts parts.banks.items parts.ports.items parts.keeper }
        ensures opened { IfOk result (λ r. IsSharedHall parts.banks.items parts.ports.items parts.keeper passes r.0) }
        ensures count { IfOk result (λ r. length r.1.items ≡ passes) }
        ensures new { IfOk result (λ r. AreNewPasses r.0 0 r.1.items) }
        ensures all { IfOk result (λ r. AreAllHallPasses r.0 r.1.items) }
    {
        let HallParts {
            banks,
            ports,
            keeper,
        } = parts;
        let mut keepers = Vec::with_capacity(alloc, 1)?;
        keepers.push_reserved(keeper);
        let (banks, bank_passes) = Row::start(alloc, banks, passes)?;
        let (ports, port_passes) = Row::start(alloc, ports, passes)?;
        let (keeper, keeper_passes) = Row::start(alloc, keepers, passes)?;
        let all = tie(alloc, bank_passes, port_passes, keeper_passes)?;
        Ok((
            Hall {
                banks,
                ports,
                keeper,
            },
            all,
        ))
    }

    /// Waits for the turn of a core's port, and takes the message that the pick names. None exactly if, at this call's position
    /// in the port's history, the inbox was empty or the picked message's stamp was 2^63 or more.
    ///
    /// # Errors
    /// `Memory` if there is no room: nothing was taken, and the pass is as before.
    pub fn take<R: Wait>(
        &self,
        rt: &R,
        pass: &mut Pass,
        core: CoreId,
        pick: u32,
    ) -> Result<Option<Posted>, Memory>
        requires pass { IsHallPass self.now pass.old }
        requires port { core.0 < length self.now.ports }
        ensures pass { IsHallPass self.now pass.new × (pass_number pass.new ≡ pass_number pass.old) }
        ensures call { IfOk result (λ taken. PortCall self.now core.0 (Take pick) (Taken taken) pass.old pass.new) }
        ensures made { IfOk result (λ taken. HasMadeCalls pass.old pass.new (port_calls core.0 (entry (pass_number pass.old) (Take pick) (Taken taken)))) }
        ensures same { OnErr result (pass.new ≡ pass.old) }
    {
        let input = PortIn::Take { pick };
        match self
            .ports
            .call(rt, &mut pass.ports, core.0 as usize, input, || ())
        {
            Ok(PortOut::Taken(posted)) => Ok(posted),
            Ok(PortOut::Kept) => unreachable!(),
            Err((memory, _input)) => Err(memory),
        }
    }

    /// Waits for the turn of a bank, calls the gate within it, and handles the message that the pick names. Returns what the step
    /// did, with the message that the bank sends, which the caller has to post. None exactly if, at this call's position in the
    /// bank's history, the inbox was empty or the bank was spent.
    ///
    /// # Errors
    /// `Memory` if there is no room: nothing was handled, and the pass is as before.
    pub fn bank_step<R: Wait, G: Gate>(
        &self,
        rt: &R,
        pass: &mut Pass,
        worker: u32,
        bank: BankId,
        pick: u32,
        gate: &G,
    ) -> Result<Option<Handled>, Memory>
        requires pass { IsHallPass self.now pass.old }
        requires bank { bank.0 < length self.now.banks }
        ensures pass { IsHallPass self.now pass.new × (pass_number pass.new ≡ pass_number pass.old) }
        ensures call { IfOk result (λ handled. BankCall self.now bank.0 (BankStep pick) (BankStepped handled) pass.old pass.new) }
        ensures made { IfOk result (λ handled. HasMadeCalls pass.old pass.new (bank_calls bank.0 (entry (pass_number pass.old) (BankStep pick) (BankStepped handled)))) }
        ensures same { OnErr result (pass.new ≡ pass.old) }
    {
        let input = BankIn::Step { pick };
        let inside = || gate.at(worker, bank);
        match self
            .banks
            .call(rt, &mut pass.banks, bank.0 as usize, input, inside)
        {
            Ok(BankOut::Stepped(handled)) => Ok(handled),
            Ok(BankOut::Kept) => unreachable!(),
            Err((memory, _input)) => Err(memory),
        }
    }

    /// Waits for the turn of the barrier controller, and handles the message that the pick names. Returns what the step did; the
    /// caller has to post its letters. None exactly if, at this call's position in the barrier controller's history, the inbox
    /// was empty or the barrier controller was spent.
    ///
    /// # Errors
    /// `Memory` if there is no room: nothing was handled, and the pass is as before.
    pub fn keeper_step<R: Wait>(
        &self,
        rt: &R,
        pass: &mut Pass,
        pick: u32,
    ) -> Result<Option<KeeperHandled>, Memory>
        requires pass { IsHallPass self.now pass.old }
        ensures pass { IsHallPass self.now pass.new × (pass_number pass.new ≡ pass_number pass.old) }
        ensures call { IfOk result (λ handled. KeeperCall self.now (KeeperStep pick) (KeeperStepped handled) pass.old pass.new) }
        ensures made { IfOk result (λ handled. HasMadeCalls pass.old pass.new (keeper_calls (entry (pass_number pass.old) (KeeperStep pick) (KeeperStepped handled)))) }
        ensures same { OnErr result (pass.new ≡ pass.old) }
    {
        let input = KeeperIn::Step { pick };
        match self.keeper.call(rt, &mut pass.keeper, 0, input, || ()) {
            Ok(KeeperOut::Stepped(handled)) => Ok(handled),
            Ok(KeeperOut::Kept) => unreachable!(),
            Err((memory, _input)) => Err(memory),
        }
    }

    fn post_to_port<R: Wait>(
        &self,
        rt: &R,
        pass: &mut Pass,
        core: CoreId,
        posted: Posted,
    ) -> Result<(), (Memory, Posted)>
        requires pass { IsHallPass self.now pass.old }
        requires port { core.0 < length self.now.ports }
        ensures pass { IsHallPass self.now pass.new × (pass_number pass.new ≡ pass_number pass.old) }
        ensures call { OnOk result (PostCall self.now posted (Core core) pass.old pass.new) }
        ensures made { OnOk result (HasMadeCalls pass.old pass.new (post_calls (pass_number pass.old) posted (Core core))) }
        ensures same { OnErr result (pass.new ≡ pass.old) }
        ensures back { IfErr result (λ e. e.1 ≡ posted) }
    {
        let input = PortIn::Post(posted);
        match self
            .ports
            .call(rt, &mut pass.ports, core.0 as usize, input, || ())
        {
            Ok(PortOut::Kept) => Ok(()),
            Ok(PortOut::Taken(_)) => unreachable!(),
            Err((memory, _input)) => Err((memory, posted)),
        }
    }

    fn post_to_bank<R: Wait>(
        &self,
        rt: &R,
        pass: &mut Pass,
        bank: BankId,
        posted: Posted,
    ) -> Result<(), (Memory, Posted)>
        requires pass { IsHallPass self.now pass.old }
        requires bank { bank.0 < length self.now.banks }
        ensures pass { IsHallPass self.now pass.new × (pass_number pass.new ≡ pass_number pass.old) }
        ensures call { OnOk result (PostCall self.now posted (Home bank) pass.old pass.new) }
        ensures made { OnOk result (HasMadeCalls pass.old pass.new (post_calls (pass_number pass.old) posted (Home bank))) }
        ensures same { OnErr result (pass.new ≡ pass.old) }
        ensures back { IfErr result (λ e. e.1 ≡ posted) }
    {
        let input = BankIn::Post(posted);
        match self
            .banks
            .call(rt, &mut pass.banks, bank.0 as usize, input, || ())
        {
            Ok(BankOut::Kept) => Ok(()),
            Ok(BankOut::Stepped(_)) => unreachable!(),
            Err((memory, _input)) => Err((memory, posted)),
        }
    }

    fn post_to_keeper<R: Wait>(
        &self,
        rt: &R,
        pass: &mut Pass,
        posted: Posted,
    ) -> Result<(), (Memory, Posted)>
        requires pass { IsHallPass self.now pass.old }
        ensures pass { IsHallPass self.now pass.new × (pass_number pass.new ≡ pass_number pass.old) }
        ensures call { OnOk result (PostCall self.now posted Keeper pass.old pass.new) }
        ensures made { OnOk result (HasMadeCalls pass.old pass.new (post_calls (pass_number pass.old) posted Keeper)) }
        ensures same { OnErr result (pass.new ≡ pass.old) }
        ensures back { IfErr result (λ e. e.1 ≡ posted) }
    {
        let input = KeeperIn::Post(posted);
        match self.keeper.call(rt, &mut pass.keeper, 0, input, || ()) {
            Ok(KeeperOut::Kept) => Ok(()),
            Ok(KeeperOut::Stepped(_)) => unreachable!(),
            Err((memory, _input)) => Err((memory, posted)),
        }
    }

    /// Waits for the turn of the actor that the message goes to, and puts it into that actor's inbox, at the end.
    ///
    /// # Errors
    /// `Memory` if there is no room: nothing was posted, the pass is as before, and the message is given back.
    pub fn post<R: Wait>(
        &self,
        rt: &R,
        pass: &mut Pass,
        posted: Posted,
    ) -> Result<(), (Memory, Posted)>
        requires pass { IsHallPass self.now pass.old }
        requires actor { HasActor self.now posted.mail.to }
        requires stamp { posted.stamp ≤ 2 ^ 63 }
        ensures pass { IsHallPass self.now pass.new × (pass_number pass.new ≡ pass_number pass.old) }
        ensures call { OnOk result (PostCall self.now posted posted.mail.to pass.old pass.new) }
        ensures made { OnOk result (HasMadeCalls pass.old pass.new (post_calls (pass_number pass.old) posted posted.mail.to)) }
        ensures same { OnErr result (pass.new ≡ pass.old) }
        ensures back { IfErr result (λ e. e.1 ≡ posted) }
    {
        match posted.mail.to {
            Actor::Core(core) => self.post_to_port(rt, pass, core, posted),
            Actor::Bank(bank) => self.post_to_bank(rt, pass, bank, posted),
            Actor::Keeper => self.post_to_keeper(rt, pass, posted),
        }
    }

    /// Ends the sharing, with all passes of the hall. Gives the parts back, and all calls of each bank, each port and the barrier
    /// controller in one order. A single thread could have made these calls, and each pass made exactly those with its number, in
    /// this order.
    ///
    /// # Errors
    /// `Memory` if there is no room; the hall and the passes are dropped.
    pub fn close(self, alloc: Global, passes: Vec<Pass>) -> Result<HallEnd, Memory>
        requires { AreAllHallPasses self passes.items }
        ensures banks { IfOk result (λ end. IsClosedRow bank_state bank_answer bank_next self.banks (length passes.items) end.parts.banks.items (map (λ h. h.items) end.banks.items)) }
        ensures ports { IfOk result (λ end. IsClosedRow port_inbox port_answer port_next self.ports (length passes.items) end.parts.ports.items (map (λ h. h.items) end.ports.items)) }
        ensures keeper { IfOk result (λ end. IsClosedRow keeper_state keeper_answer keeper_next self.keeper (length passes.items) (end.parts.keeper ∷ []) (end.keeper.items ∷ [])) }
        ensures told { IfOk result (λ end. All (IsToldPass (map (λ h. h.items) end.banks.items) (map (λ h. h.items) end.ports.items) end.keeper.items) passes.items) }
    {
        let Hall {
            banks,
            ports,
            keeper,
        } = self;
        let callers = untie(alloc, passes)?;
        let (banks, bank_calls) = banks.close(alloc, callers.banks)?;
        let (ports, port_calls) = ports.close(alloc, callers.ports)?;
        let (keepers, keeper_calls) = keeper.close(alloc, callers.keeper)?;
        let (keeper, keeper_calls) = only(keepers, keeper_calls);
        let parts = HallParts {
            banks,
            ports,
            keeper,
        };
        Ok(HallEnd {
            parts,
            banks: bank_calls,
            ports: port_calls,
            keeper: keeper_calls,
        })
    }
}

/// Compiles only if the type may be sent to another thread.
fn may_be_sent<T: Send>(_value: &T) {}

/// A hall may be shared by threads, and a pass sent to one. Nobody calls this; the check of its body proves it.
fn hall_crosses(hall: &Hall, pass: &Pass) {
    crosses(hall);
    may_be_sent(pass);
}
