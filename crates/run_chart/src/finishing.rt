//! What a chart has after its rows, and which cores and banks have a column.
ghost use Rattle.std.specs.Prelude.{◌≡◌, ◌+◌, ◌≤◌, [], length, map, IfOk};
ghost use Rattle.std.specs.List.{list_any, range_with_len};
ghost use Rattle.machine_rules.specs.Sound.{IsMachine};
ghost use Rattle.message_net.specs.Id.{same_actor};
ghost use Rattle.run_chart.specs.Finishing.{comes_from, leaves_for, has_column_at, leaving_from, shown_actors, uses, waiting_from, waits, lock_wanted, leaving_mail};
ghost use Rattle.run_chart.specs.Mails.{AreNotedFor};

use crate::about::about_message;
use crate::mails::SentMail;
use crate::places::actor_with;
use crate::{ChartRow, LeavingMail, Origin, WaitingTask};
use dn_base::{CoreId, LockId, Memory, Sequence, Shape};
use dn_machine::Machine;
use message_net::{Actor, Mail, Pool};
use registration_protocol::NodeWait;
use std::alloc::Global;

/// Which cores and banks have a column.
#[derive(Clone, Copy)]
pub enum Columns {
    /// All of them.
    All,
    /// Those that make an event of the chart, send or get a message of it, or have a task that waits.
    Used,
}

/// A message that is in flight after the range; an event of the range sent it on this line.
fn leaving_mail(mail: Mail, sent: u32, line: u32) -> LeavingMail
    ensures { result ≡ leaving_mail mail sent line }
{
    LeavingMail {
        sender: mail.id.sender,
        sent,
        to: mail.to,
        kind: mail.message.kind(),
        about: about_message(mail.message),
        line,
    }
}

/// The messages in flight that events of the range sent, each on a line of its own from this one on.
///
/// # Errors
/// `Memory` where there is no room.
pub(crate) fn leaving_mails(
    alloc: Global,
    sent: &[SentMail],
    pool: &Pool,
    line: u32,
) -> Result<Sequence<LeavingMail>, Memory>
    requires noted { AreNotedFor sent.now pool.now.mails }
    requires few { line + length sent.now ≤ 4000000000 }
    ensures value { IfOk result (λ leaving. leaving ≡ leaving_from line sent.now pool.now.mails) }
    ensures most { IfOk result (λ leaving. length leaving ≤ length sent.now) }
{
    let mut mails = Sequence::new(alloc);
    let mut place = 0;
    let mut line = line;
    for noted in sent {
        let mail = pool.at(place);
        if let Some(sent_on) = noted.line {
            mails.push(leaving_mail(mail, sent_on, line))?;
            line += 1;
        }
        place += 1;
    }
    Ok(mails)
}

/// The lock that a node waits for.
fn lock_wanted(wait: NodeWait) -> Option<LockId>
    ensures { result ≡ lock_wanted wait }
{
    match wait {
        NodeWait::Locking(lock) => Some(lock),
        _ => None,
    }
}

/// The tasks that wait for a lock, each on a line of its own from this one on.
///
/// # Errors
/// `Memory` where there is no room.
pub(crate) fn waiting_tasks(
    alloc: Global,
    machine: &Machine,
    line: u32,
) -> Result<Sequence<WaitingTask>, Memory>
    requires machine { IsMachine machine.now.state }
    requires few { line ≤ 4000000000 }
    requires cores { machine.now.state.setting.shape.cores ≤ 16 }
    ensures value { IfOk result (λ waiting. waiting ≡ waiting_from line machine.now.state.nodes) }
    ensures most { IfOk result (λ waiting. length waiting ≤ 16) }
{
    let mut tasks = Sequence::new(alloc);
    let mut line = line;
    for core in 0..machine.shape().cores {
        let node = machine.node(CoreId(core));
        if let Some(lock) = lock_wanted(node.wait()) {
            tasks.push(WaitingTask {
                core: node.core(),
                lock,
                line,
            })?;
            line += 1;
        }
    }
    Ok(tasks)
}

/// Whether two actors are the same.
fn is_actor(actor: Actor, other: Actor) -> bool
    ensures { result ≡ same_actor actor other }
{
    match (actor, other) {
        (Actor::Core(core), Actor::Core(other)) => core.0 == other.0,
        (Actor::Bank(bank), Actor::Bank(other)) => bank.0 == other.0,
        (Actor::Keeper, Actor::Keeper) => true,
        _ => false,
    }
}

/// Whether a message comes from an actor.
fn comes_from(actor: Actor, mail: Option<Origin>) -> bool
    ensures { result ≡ comes_from actor mail }
{
    match mail {
        Some(mail) => is_actor(actor, mail.sender),
        None => false,
    }
}

/// Whether a row is about an event of an actor, or the handling of a message of it.
fn uses(actor: Actor, row: &ChartRow) -> bool
    ensures { result ≡ uses actor row.now }
{
    is_actor(actor, row.actor) || comes_from(actor, row.mail)
}

/// Whether some row is.
fn any_uses(actor: Actor, rows: &[ChartRow]) -> bool
    ensures { result ≡ list_any (uses actor) rows.now }
{
    rows.iter().any(|row| uses(actor, row))
}

/// Whether some message that leaves the chart goes to an actor.
fn any_goes(actor: Actor, mails: &[LeavingMail]) -> bool
    ensures { result ≡ list_any (leaves_for actor) mails.now }
{
    mails.iter().any(|mail| is_actor(actor, mail.to))
}

/// Whether some task that waits is an actor's.
fn any_waits(actor: Actor, tasks: &[WaitingTask]) -> bool
    ensures { result ≡ list_any (waits actor) tasks.now }
{
    tasks
        .iter()
        .any(|task| is_actor(actor, Actor::Core(task.core)))
}

/// Whether the core or bank with an index has a column.
fn has_column_at(
    columns: Columns,
    rows: &[ChartRow],
    leaving: &[LeavingMail],
    waiting: &[WaitingTask],
    shape: Shape,
    index: u64,
) -> bool
    ensures { result ≡ has_column_at columns rows.now leaving.now waiting.now shape index }
{
    let actor = actor_with(shape, index);
    match columns {
        Columns::All => true,
        Columns::Used => {
            any_uses(actor, rows) || (any_goes(actor, leaving) || any_waits(actor, waiting))
        }
    }
}

/// For each core and bank, by its index, whether it has a column.
///
/// # Errors
/// `Memory` where there is no room.
pub(crate) fn shown_actors(
    alloc: Global,
    columns: Columns,
    rows: &[ChartRow],
    leaving: &[LeavingMail],
    waiting: &[WaitingTask],
    shape: Shape,
) -> Result<Sequence<bool>, Memory>
    ensures { IfOk result (λ shown. shown ≡ shown_actors columns rows.now leaving.now waiting.now shape) }
{
    let mut shown = Sequence::new(alloc);
    for index in 0..shape.cores as u64 + shape.banks as u64 {
        shown.push(has_column_at(columns, rows, leaving, waiting, shape, index))?;
    }
    Ok(shown)
}
