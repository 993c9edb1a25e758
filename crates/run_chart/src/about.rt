//! What events and messages are about, and how a task ends with an event.
ghost use Rattle.std.specs.Prelude.{◌≡◌, length, option_copied, slice_get};
ghost use Rattle.machine_rules.specs.Sound.{IsMachine};
ghost use Rattle.message_net.specs.Pool.{removed};
ghost use Rattle.run_chart.specs.About.{about_code, about_core, about_in, about_mail, about_message, about_task, core_ends_by, need_ends_by, needed_by, node_needs, ends_by};

use crate::About;
use crate::affected::mail_of;
use dn_base::CoreId;
use dn_machine::Machine;
use message_net::{Event, Mail, Message};
use region_table::FIRST_CODE_ADDRESS;
use rv_core::{End, Need, TaskState};

/// What a message is about.
pub(crate) fn about_message(message: Message) -> About
    ensures { result ≡ about_message message }
{
    match message {
        Message::ReadReq { word, reader: _ } => About::Word(word),
        Message::ReadFwd { word, reader: _ } => About::Word(word),
        Message::DataReply { word, value: _ } => About::Word(word),
        Message::RegReq { word, core: _ } => About::Word(word),
        Message::RegFwd { word, core: _ } => About::Word(word),
        Message::RegAck { word } => About::Word(word),
        Message::WriteBack {
            word,
            value: _,
            core: _,
        } => About::Word(word),
        Message::WbAck { word } => About::Word(word),
        Message::Acquire { lock, core: _ } => About::Lock(lock),
        Message::Release {
            lock,
            core: _,
            signature: _,
        } => About::Lock(lock),
        Message::Grant { lock, signature: _ } => About::Lock(lock),
        Message::Go { phase } => About::Phase(phase),
        Message::Arrived { .. } => About::Nothing,
        Message::Halt => About::Nothing,
    }
}

fn about_mail(mail: Option<Mail>) -> About
    ensures { result ≡ about_mail mail }
{
    match mail {
        Some(mail) => about_message(mail.message),
        None => About::Nothing,
    }
}

/// The code word at an address, of this many code words.
fn about_code(words: usize, pc: u32) -> About
    ensures { result ≡ about_code words pc }
{
    if pc < FIRST_CODE_ADDRESS || pc % 4 != 0 {
        return About::Nothing;
    }
    let number = (pc - FIRST_CODE_ADDRESS) / 4;
    if (number as usize) < words {
        About::Code(number)
    } else {
        About::Nothing
    }
}

fn about_task(words: usize, task: Option<&TaskState>) -> About
    ensures { result ≡ about_task words (option_copied task.entry) }
{
    match task {
        Some(task) => about_code(words, task.pc),
        None => About::Nothing,
    }
}

/// The code word of a core's next instruction.
fn about_core(machine: &Machine, core: CoreId) -> About
    requires { IsMachine machine.now.state }
    ensures { result ≡ about_core machine.now.state core }
{
    if core.0 < machine.shape().cores {
        about_task(machine.program().code.len(), machine.node(core).task())
    } else {
        About::Nothing
    }
}

/// What an event is about.
pub(crate) fn about(machine: &Machine, event: Event) -> About
    requires { IsMachine machine.now.state }
    ensures { result ≡ about_in machine.now.state event }
{
    match event {
        Event::Instr(core) => about_core(machine, core),
        Event::Evict(_, word) => About::Word(word),
        Event::Arrive(_) => About::Nothing,
        Event::Handle(id) => about_mail(mail_of(machine.pool(), id)),
    }
}

/// What a core's next instruction needs.
fn core_needs(machine: &Machine, core: CoreId) -> Option<Need>
    requires { IsMachine machine.now.state }
    ensures { result ≡ node_needs machine.now.state.setting (slice_get machine.now.state.nodes core.0) }
{
    if core.0 < machine.shape().cores {
        machine.node(core).needs(machine.program(), machine.fuel())
    } else {
        None
    }
}

/// What the instruction needs that an event makes; None where the event is no instruction of a task.
pub(crate) fn needed_by(machine: &Machine, event: Event) -> Option<Need>
    requires { IsMachine machine.now.state }
    ensures { result ≡ needed_by machine.now.state event }
{
    match event {
        Event::Instr(core) => core_needs(machine, core),
        _ => None,
    }
}

/// How a task ends with its next instruction, by what that needs.
fn need_ends_by(need: Option<Need>) -> Option<End>
    ensures { result ≡ need_ends_by need }
{
    match need {
        Some(Need::End { cause }) => Some(cause),
        _ => None,
    }
}

/// How a core's task ends with its next instruction, if it does.
fn core_ends_by(machine: &Machine, core: CoreId) -> Option<End>
    requires { IsMachine machine.now.state }
    ensures { result ≡ core_ends_by machine.now.state core }
{
    if core.0 < machine.shape().cores {
        need_ends_by(machine.node(core).needs(machine.program(), machine.fuel()))
    } else {
        None
    }
}

/// How the task of the event's actor ends with the event, if it does.
pub(crate) fn ends_by(machine: &Machine, event: Event) -> Option<End>
    requires { IsMachine machine.now.state }
    ensures { result ≡ ends_by machine.now.state event }
{
    match event {
        Event::Instr(core) => core_ends_by(machine, core),
        _ => None,
    }
}
