//! How words, cores, messages and events are called.
ghost use Rattle.std.specs.Prelude.{◌≡◌, ◌++◌, codes, OnOk};
ghost use Rattle.std.specs.Fmt.{decimal};
ghost use Rattle.text_pieces.specs.Pieces.{space};
ghost use Rattle.message_net.specs.declared.event.Event.TheVariants.{Evict};
ghost use Rattle.state_text.specs.Called.{number_beside, data_word_text, numbered_core, receiver_text, mail_name, numbered_mail, event_text};

use dn_base::{CoreId, Memory, WordId};
use message_net::{Actor, Event, MailId};
use region_table::Program;
use text_pieces::{push, push_decimal};
use text_places::{push_word, region_of_word};

#[tactic(auto, unfolding(crate::specs::Called::number_beside))]
fn push_number_beside(out: &mut Vec<u8>, word: u32) -> Result<(), Memory>
    ensures { OnOk result (out.new.items ≡ out.old.items ++ number_beside word) }
{
    push(out, b" (word ")?;
    push_decimal(out, word)?;
    push(out, b")")
}

/// Adds a data word by its region and index, beside its number.
#[tactic(auto, unfolding(crate::specs::Called::data_word_text))]
pub(crate) fn push_data_word(
    out: &mut Vec<u8>,
    program: &Program,
    word: WordId,
) -> Result<(), Memory>
    ensures { OnOk result (out.new.items ≡ out.old.items ++ data_word_text program.now word.0) }
{
    push_word(out, program, word.0)?;
    match region_of_word(program, word.0) {
        Some(_) => push_number_beside(out, word.0),
        None => Ok(()),
    }
}

#[tactic(auto, unfolding(crate::specs::Called::numbered_core))]
pub(crate) fn push_core(out: &mut Vec<u8>, core: CoreId) -> Result<(), Memory>
    ensures { OnOk result (out.new.items ≡ out.old.items ++ numbered_core core.0) }
{
    push(out, b"core ")?;
    push_decimal(out, core.0)
}

/// Adds what stands before a number, and the number.
fn push_tagged(out: &mut Vec<u8>, tag: &[u8], number: u32) -> Result<(), Memory>
    ensures { OnOk result (out.new.items ≡ out.old.items ++ (tag.now ++ decimal number)) }
{
    push(out, tag)?;
    push_decimal(out, number)
}

/// Adds what stands before two numbers, and the numbers.
fn push_pair(out: &mut Vec<u8>, tag: &[u8], first: u32, second: u32) -> Result<(), Memory>
    ensures { OnOk result (out.new.items ≡ out.old.items ++ (tag.now ++ decimal first ++ space ++ decimal second)) }
{
    push_tagged(out, tag, first)?;
    push(out, b" ")?;
    push_decimal(out, second)
}

/// Adds who gets a message.
#[tactic(auto, unfolding(crate::specs::Called::receiver_text))]
pub(crate) fn push_receiver(out: &mut Vec<u8>, actor: Actor) -> Result<(), Memory>
    ensures { OnOk result (out.new.items ≡ out.old.items ++ receiver_text actor) }
{
    match actor {
        Actor::Core(core) => push_core(out, core),
        Actor::Bank(bank) => push_tagged(out, b"bank ", bank.0),
        Actor::Keeper => push(out, b"keeper"),
    }
}

/// Adds a message by its sender and number.
#[tactic(auto, unfolding(crate::specs::Called::mail_name))]
fn push_mail_name(out: &mut Vec<u8>, id: MailId) -> Result<(), Memory>
    ensures { OnOk result (out.new.items ≡ out.old.items ++ mail_name id.sender id.number) }
{
    match id.sender {
        Actor::Core(core) => push_pair(out, b"c ", core.0, id.number),
        Actor::Bank(bank) => push_pair(out, b"b ", bank.0, id.number),
        Actor::Keeper => push_tagged(out, b"k ", id.number),
    }
}

#[tactic(auto, unfolding(crate::specs::Called::numbered_mail))]
pub(crate) fn push_mail(out: &mut Vec<u8>, id: MailId) -> Result<(), Memory>
    ensures { OnOk result (out.new.items ≡ out.old.items ++ numbered_mail id) }
{
    push(out, b"mail ")?;
    push_mail_name(out, id)
}

/// Adds the eviction of a word, which has its region and index after its number.
#[tactic(auto, unfolding(crate::specs::Called::event_text))]
fn push_evict(
    out: &mut Vec<u8>,
    program: &Program,
    core: CoreId,
    word: WordId,
) -> Result<(), Memory>
    ensures { OnOk result (out.new.items ≡ out.old.items ++ event_text program.now (Evict core word)) }
{
    push_pair(out, b"e ", core.0, word.0)?;
    push(out, b" (")?;
    push_word(out, program, word.0)?;
    push(out, b")")
}

fn push_handle(out: &mut Vec<u8>, id: MailId) -> Result<(), Memory>
    ensures { OnOk result (out.new.items ≡ out.old.items ++ (codes "h " ++ mail_name id.sender id.number)) }
{
    push(out, b"h ")?;
    push_mail_name(out, id)
}

/// Adds an event, as documents have it, with the evicted word by its region and index.
#[tactic(auto, unfolding(crate::specs::Called::event_text))]
pub(crate) fn push_event(out: &mut Vec<u8>, program: &Program, event: Event) -> Result<(), Memory>
    ensures { OnOk result (out.new.items ≡ out.old.items ++ event_text program.now event) }
{
    match event {
        Event::Instr(core) => push_tagged(out, b"i ", core.0),
        Event::Evict(core, word) => push_evict(out, program, core, word),
        Event::Arrive(core) => push_tagged(out, b"a ", core.0),
        Event::Handle(id) => push_handle(out, id),
    }
}
