//! Actors, messages and messages.
ghost use Rattle.std.specs.Prelude.{true, ◌≡◌, ◌++◌, ◌∷◌, ◌+◌, ◌≤◌, [], OnOk};
ghost use Rattle.page_data.specs.Json.{item_texts, further_all};
ghost use Rattle.page_data.specs.Rows.{actor_number, flag_number, bit_text, bit_texts, all_bits, signature_text, message_fields, outgoing_fields, outgoing_text, mail_item, handled_text, sent_text};

use crate::json::{push_all, push_gap};
use crate::lists::{Item, push_named_list};
use dn_base::Memory;
use message_net::{Actor, Event, Mail, Message, Outgoing, Pool};
use text_pieces::Piece::{Bytes, Long, Number};
use text_pieces::{push, push_pieces};
use write_signature::Signature;

/// The number of an actor: cores from 0 on, banks from 16 on, and the barrier controller.
pub(crate) fn actor_number(actor: Actor) -> u64
    ensures { result ≡ actor_number actor }
{
    match actor {
        Actor::Core(core) => u64::from(core.0),
        Actor::Bank(bank) => 16 + u64::from(bank.0),
        Actor::Keeper => 32,
    }
}

/// A flag as a number.
pub(crate) fn flag_number(flag: bool) -> u32
    ensures { result ≡ flag_number flag }
{
    if flag { 1 } else { 0 }
}

/// Adds the number of a bit, if it is set.
fn push_bit(out: &mut Vec<u8>, bit: u32, set: bool) -> Result<(), Memory>
    ensures { OnOk result (out.new.items ≡ out.old.items ++ bit_text bit set) }
{
    if set { push_all(out, &[bit]) } else { Ok(()) }
}

/// Adds the numbers of the bits that are set among the first `count`.
fn push_bits(out: &mut Vec<u8>, signature: &Signature, count: u32) -> Result<(), Memory>
    requires { count ≤ 256 }
    ensures { OnOk result (out.new.items ≡ out.old.items ++ bit_texts signature.now 0 count) }
{
    for bit in 0..count {
        push_bit(out, bit, signature.has(bit))?;
    }
    Ok(())
}

/// Adds the numbers of all bits that are set.
#[tactic(auto, unfolding(crate::specs::Rows::all_bits))]
fn push_all_bits(out: &mut Vec<u8>, signature: &Signature) -> Result<(), Memory>
    ensures { OnOk result (out.new.items ≡ out.old.items ++ all_bits signature.now) }
{
    push_bits(out, signature, 256)
}

/// Adds a signature.
#[tactic(auto, unfolding(crate::specs::Rows::signature_text))]
fn push_signature(out: &mut Vec<u8>, signature: &Signature) -> Result<(), Memory>
    ensures { OnOk result (out.new.items ≡ out.old.items ++ signature_text signature.now) }
{
    push_all(out, &[signature.phase().0])?;
    push_all_bits(out, signature)
}

/// Adds numbers, each after a comma, and a signature.
pub(crate) fn push_signed_numbers(
    out: &mut Vec<u8>,
    numbers: &[u32],
    signature: &Signature,
) -> Result<(), Memory>
    ensures { OnOk result (out.new.items ≡ out.old.items ++ (further_all numbers.now ++ signature_text signature.now)) }
{
    push_all(out, numbers)?;
    push_signature(out, signature)
}

/// Adds two numbers, each after a comma.
#[tactic(auto, unfolding(crate::specs::Json::further_all))]
fn push_two_numbers(out: &mut Vec<u8>, first: u32, second: u32) -> Result<(), Memory>
    ensures { OnOk result (out.new.items ≡ out.old.items ++ further_all (first ∷ second ∷ [])) }
{
    push_pieces(
        out,
        &[Bytes(b","), Number(first), Bytes(b","), Number(second)],
    )
}

/// Adds what a message says.
fn push_fields(out: &mut Vec<u8>, message: &Message) -> Result<(), Memory>
    ensures { OnOk result (out.new.items ≡ out.old.items ++ message_fields message.now) }
{
    match message {
        Message::ReadReq { word, reader } => push_two_numbers(out, word.0, reader.0),
        Message::ReadFwd { word, reader } => push_two_numbers(out, word.0, reader.0),
        Message::DataReply { word, value } => push_two_numbers(out, word.0, *value),
        Message::RegReq { word, core } => push_two_numbers(out, word.0, core.0),
        Message::RegFwd { word, core } => push_two_numbers(out, word.0, core.0),
        Message::RegAck { word } => push_all(out, &[word.0]),
        Message::WriteBack { word, value, core } => push_all(out, &[word.0, *value, core.0]),
        Message::WbAck { word } => push_all(out, &[word.0]),
        Message::Acquire { lock, core } => push_two_numbers(out, lock.0, core.0),
        Message::Release {
            lock,
            core,
            signature,
        } => push_signed_numbers(out, &[lock.0, core.0], signature),
        Message::Grant { lock, signature } => push_signed_numbers(out, &[lock.0], signature),
        Message::Arrived { core, bad } => push_two_numbers(out, core.0, flag_number(*bad)),
        Message::Go { phase } => push_all(out, &[phase.0]),
        Message::Halt => Ok(()),
    }
}

/// Adds to whom a message goes, its kind, and what it says.
#[tactic(auto, unfolding(crate::specs::Json::further_all, crate::specs::Rows::outgoing_fields))]
fn push_outgoing_fields(out: &mut Vec<u8>, to: Actor, message: &Message) -> Result<(), Memory>
    ensures { OnOk result (out.new.items ≡ out.old.items ++ outgoing_fields to message.now) }
{
    push_pieces(
        out,
        &[
            Long(actor_number(to)),
            Bytes(b","),
            Number(message.kind().index() as u32),
        ],
    )?;
    push_fields(out, message)
}

impl Item for Outgoing {
    ghost written = { outgoing_text };

    #[tactic(auto, unfolding(crate::specs::Rows::outgoing_text))]
    fn push_item(&self, out: &mut Vec<u8>) -> Result<(), Memory> {
        push(out, b"[")?;
        push_outgoing_fields(out, self.to, &self.message)?;
        push(out, b"]")
    }
}

/// Adds a message in flight.
#[tactic(auto, unfolding(crate::specs::Json::further_all, crate::specs::Rows::mail_item))]
fn push_mail(out: &mut Vec<u8>, mail: &Mail) -> Result<(), Memory>
    ensures { OnOk result (out.new.items ≡ out.old.items ++ mail_item mail.now) }
{
    push_pieces(
        out,
        &[
            Bytes(b"["),
            Long(actor_number(mail.id.sender)),
            Bytes(b","),
            Number(mail.id.number),
            Bytes(b","),
        ],
    )?;
    push_outgoing_fields(out, mail.to, &mail.message)?;
    push(out, b"]")
}

/// Adds the messages in flight, each after a comma but the first.
pub(crate) fn push_mail_items(out: &mut Vec<u8>, pool: &Pool) -> Result<(), Memory>
    ensures { OnOk result (out.new.items ≡ out.old.items ++ item_texts mail_item true pool.now.mails) }
{
    let mut first = true;
    for place in 0..pool.count() {
        push_gap(out, first)?;
        push_mail(out, &pool.at(place))?;
        first = false;
    }
    Ok(())
}

/// Adds the sender and the number of the message that an event handles.
#[tactic(auto, unfolding(crate::specs::Json::further_all))]
pub(crate) fn push_handled(out: &mut Vec<u8>, event: Event) -> Result<(), Memory>
    ensures { OnOk result (out.new.items ≡ out.old.items ++ handled_text event) }
{
    match event {
        Event::Handle(id) => push_pieces(
            out,
            &[
                Bytes(b"["),
                Long(actor_number(id.sender)),
                Bytes(b","),
                Number(id.number),
                Bytes(b"]"),
            ],
        ),
        Event::Instr(_) => push(out, b"-1"),
        Event::Evict(_, _) => push(out, b"-1"),
        Event::Arrive(_) => push(out, b"-1"),
    }
}

/// Adds what is sent, if something is.
pub(crate) fn push_sent(out: &mut Vec<u8>, sent: &[Outgoing]) -> Result<(), Memory>
    ensures { OnOk result (out.new.items ≡ out.old.items ++ sent_text sent.now) }
{
    if sent.is_empty() {
        return Ok(());
    }
    push_named_list(out, b",", sent)
}
