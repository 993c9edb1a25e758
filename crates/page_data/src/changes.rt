//! Changes.
ghost use Rattle.std.specs.Prelude.{◌≡◌, ◌++◌, ◌∷◌, [], codes, map, OnOk};
ghost use Rattle.std.specs.Fmt.{decimal};
ghost use Rattle.rv_core.specs.Ending.{shown_end};
ghost use Rattle.page_data.specs.Json.{further_all};
ghost use Rattle.page_data.specs.Rows.{actor_number, signature_text, cause_fields, tagged, entry_tag, entry_number, flag_number, wait_numbers, home_item, holder_field, core_numbers, change_item, actor_changes_text};

use crate::json::{push_all, push_further};
use crate::lists::{Item, push_named_list};
use crate::mails::{actor_number, flag_number, push_signed_numbers};
use dn_base::{CoreId, LockId, Memory, PhaseId, WordId};
use registration_protocol::NodeWait;
use registry_bank::BankWord;
use run_changes::{ActorChanges, Change};
use run_report::kind_name;
use rv_core::{End, EndShown};
use text_pieces::Piece::{Bytes, Long, Number};
use text_pieces::{push, push_pieces};
use word_cache::Entry;
use write_signature::Signature;

/// Adds how a task has ended, or which lock it waits for.
#[tactic(auto, unfolding(crate::specs::Json::further_all))]
pub(crate) fn push_cause(out: &mut Vec<u8>, end: EndShown) -> Result<(), Memory>
    ensures { OnOk result (out.new.items ≡ out.old.items ++ cause_fields end) }
{
    match end {
        EndShown::Finished => push(out, b",\"finished\""),
        EndShown::Fuel => push(out, b",\"fuel\""),
        EndShown::Trap { kind, pc, value } => push_pieces(
            out,
            &[
                Bytes(b",\"trap\",\""),
                Bytes(kind_name(kind)),
                Bytes(b"\","),
                Number(pc),
                Bytes(b","),
                Number(value),
            ],
        ),
        EndShown::Waits { lock } => push_pieces(out, &[Bytes(b",\"waits\","), Number(lock.0)]),
    }
}

/// Adds what a change begins with.
fn push_tag(out: &mut Vec<u8>, tag: &[u8]) -> Result<(), Memory>
    ensures { OnOk result (out.new.items ≡ out.old.items ++ codes "[\"" ++ (tag.now ++ codes "\"")) }
{
    push_pieces(out, &[Bytes(b"[\""), Bytes(tag), Bytes(b"\"")])
}

/// Adds a change that has numbers alone.
#[tactic(auto, unfolding(crate::specs::Rows::tagged))]
fn push_tagged(out: &mut Vec<u8>, tag: &[u8], numbers: &[u32]) -> Result<(), Memory>
    ensures { OnOk result (out.new.items ≡ out.old.items ++ tagged tag.now (further_all numbers.now)) }
{
    push_tag(out, tag)?;
    push_all(out, numbers)?;
    push(out, b"]")
}

/// Adds a change that has one number.
#[tactic(auto, unfolding(crate::specs::Json::further_all, crate::specs::Rows::tagged))]
fn push_one(out: &mut Vec<u8>, tag: &[u8], number: u32) -> Result<(), Memory>
    ensures { OnOk result (out.new.items ≡ out.old.items ++ tagged tag.now (further_all (number ∷ []))) }
{
    push_pieces(
        out,
        &[
            Bytes(b"[\""),
            Bytes(tag),
            Bytes(b"\","),
            Number(number),
            Bytes(b"]"),
        ],
    )
}

/// Adds a change that has two numbers.
#[tactic(auto, unfolding(crate::specs::Json::further_all, crate::specs::Rows::tagged))]
fn push_two(out: &mut Vec<u8>, tag: &[u8], first: u32, second: u32) -> Result<(), Memory>
    ensures { OnOk result (out.new.items ≡ out.old.items ++ tagged tag.now (further_all (first ∷ second ∷ []))) }
{
    push_pieces(
        out,
        &[
            Bytes(b"[\""),
            Bytes(tag),
            Bytes(b"\","),
            Number(first),
            Bytes(b","),
            Number(second),
            Bytes(b"]"),
        ],
    )
}

/// Adds a change that has nothing after its tag.
#[tactic(auto, unfolding(crate::specs::Rows::tagged))]
fn push_bare(out: &mut Vec<u8>, tag: &[u8]) -> Result<(), Memory>
    ensures { OnOk result (out.new.items ≡ out.old.items ++ tagged tag.now []) }
{
    push_pieces(out, &[Bytes(b"[\""), Bytes(tag), Bytes(b"\"]")])
}

fn entry_tag(entry: Entry) -> &'static [u8]
    ensures { result.now ≡ entry_tag entry }
{
    match entry {
        Entry::Valid { marked: false, .. } => b"V",
        Entry::Valid { marked: true, .. } => b"T",
        Entry::Registered { pending: true, .. } => b"P",
        Entry::Registered { pending: false, .. } => b"R",
        Entry::Leaving(_) => b"L",
    }
}

fn entry_number(entry: Entry) -> u32
    ensures { result ≡ entry_number entry }
{
    match entry {
        Entry::Valid { value, .. } => value,
        Entry::Registered { value, .. } => value,
        Entry::Leaving(value) => value,
    }
}

fn wait_numbers(wait: NodeWait) -> [u32; 2]
    ensures { result ≡ wait_numbers wait }
{
    match wait {
        NodeWait::None => [0, 0],
        NodeWait::Reading(word) => [1, word.0],
        NodeWait::Filled(word) => [2, word.0],
        NodeWait::Locking(lock) => [3, lock.0],
    }
}

/// Adds the end of a task.
#[tactic(auto, unfolding(crate::specs::Rows::tagged))]
fn push_ended(out: &mut Vec<u8>, by: End) -> Result<(), Memory>
    ensures { OnOk result (out.new.items ≡ out.old.items ++ tagged (codes "e") (cause_fields (shown_end by))) }
{
    push_tag(out, b"e")?;
    push_cause(out, EndShown::from(by))?;
    push(out, b"]")
}

/// Adds the signature for a lock.
#[tactic(auto, unfolding(crate::specs::Rows::tagged))]
fn push_signed(out: &mut Vec<u8>, lock: LockId, signature: &Signature) -> Result<(), Memory>
    ensures { OnOk result (out.new.items ≡ out.old.items ++ tagged (codes "s") (further_all (lock.0 ∷ []) ++ signature_text signature.now)) }
{
    push_tag(out, b"s")?;
    push_signed_numbers(out, &[lock.0], signature)?;
    push(out, b"]")
}

/// Adds what a word's home has for it.
fn push_home(out: &mut Vec<u8>, word: WordId, there: BankWord) -> Result<(), Memory>
    ensures { OnOk result (out.new.items ≡ out.old.items ++ home_item word there) }
{
    match there {
        BankWord::Home(value) => push_two(out, b"H", word.0, value),
        BankWord::Reg(core) => push_two(out, b"G", word.0, core.0),
    }
}

/// Adds the holder of a lock.
fn push_holder(out: &mut Vec<u8>, holder: Option<CoreId>) -> Result<(), Memory>
    ensures { OnOk result (out.new.items ≡ out.old.items ++ holder_field holder) }
{
    match holder {
        None => push(out, b",-1"),
        Some(core) => push_all(out, &[core.0]),
    }
}

/// Adds cores, each after a comma.
#[tactic(auto, unfolding(crate::specs::Json::further_all))]
fn push_cores(out: &mut Vec<u8>, cores: &[CoreId]) -> Result<(), Memory>
    ensures { OnOk result (out.new.items ≡ out.old.items ++ further_all (core_numbers cores.now)) }
{
    for core in cores {
        push_further(out, core.0)?;
    }
    Ok(())
}

/// Adds the holder and the queue of a lock.
#[tactic(auto, unfolding(crate::specs::Json::further_all, crate::specs::Rows::tagged))]
fn push_queue(
    out: &mut Vec<u8>,
    lock: LockId,
    holder: Option<CoreId>,
    waiting: &[CoreId],
) -> Result<(), Memory>
    ensures { OnOk result (out.new.items ≡ out.old.items ++ tagged (codes "o") (further_all (lock.0 ∷ []) ++ (holder_field holder ++ further_all (core_numbers waiting.now)))) }
{
    push_pieces(out, &[Bytes(b"[\"o\","), Number(lock.0)])?;
    push_holder(out, holder)?;
    push_cores(out, waiting)?;
    push(out, b"]")
}

/// Adds what the barrier controller is.
#[tactic(auto, unfolding(crate::specs::Json::further_all, crate::specs::Rows::tagged))]
fn push_barrier(
    out: &mut Vec<u8>,
    phase: PhaseId,
    bad: bool,
    arrived: &[CoreId],
) -> Result<(), Memory>
    ensures { OnOk result (out.new.items ≡ out.old.items ++ tagged (codes "k") (further_all (phase.0 ∷ flag_number bad ∷ []) ++ further_all (core_numbers arrived.now))) }
{
    push_pieces(
        out,
        &[
            Bytes(b"[\"k\","),
            Number(phase.0),
            Bytes(b","),
            Number(flag_number(bad)),
        ],
    )?;
    push_cores(out, arrived)?;
    push(out, b"]")
}

/// Adds a change.
#[tactic(auto, unfolding(crate::specs::Rows::change_item))]
fn push_change(out: &mut Vec<u8>, change: &Change) -> Result<(), Memory>
    ensures { OnOk result (out.new.items ≡ out.old.items ++ change_item change.now) }
{
    match change {
        Change::Gone(word) => push_one(out, b"I", word.0),
        Change::Holds(word, entry) => push_two(
            out,
            entry_tag(*entry),
            word.0,
            entry_number(*entry),
        ),
        Change::Retired { pc } => push_one(out, b"x", *pc),
        Change::At { pc, retired } => push_two(out, b"j", *pc, *retired),
        Change::Ended(by) => push_ended(out, *by),
        Change::Waits(wait) => push_tagged(out, b"w", &wait_numbers(*wait)),
        Change::Takes(lock) => push_one(out, b"+", lock.0),
        Change::Gives(lock) => push_one(out, b"-", lock.0),
        Change::Signed(lock, signature) => push_signed(out, *lock, signature),
        Change::Arrived => push_bare(out, b"a"),
        Change::Halted => push_bare(out, b"z"),
        Change::Begins(phase) => push_one(out, b"b", phase.0),
        Change::Home(word, there) => push_home(out, *word, *there),
        Change::Queue {
            lock,
            holder,
            waiting,
        } => push_queue(out, *lock, *holder, waiting.as_slice()),
        Change::Barrier {
            phase,
            bad,
            arrived,
        } => push_barrier(out, *phase, *bad, arrived.as_slice()),
        Change::Loaded(seen) => push_two(out, b"ld", seen.word.0, seen.value),
        Change::Stored(word, value) => push_two(out, b"st", word.0, *value),
    }
}

impl Item for Change {
    ghost written = { change_item };

    fn push_item(&self, out: &mut Vec<u8>) -> Result<(), Memory> {
        push_change(out, self)
    }
}

/// An actor, and changes of it.
impl Item for ActorChanges {
    ghost written = { actor_changes_text };

    #[tactic(auto, unfolding(crate::specs::Rows::actor_changes_text))]
    fn push_item(&self, out: &mut Vec<u8>) -> Result<(), Memory> {
        push_pieces(out, &[Bytes(b"["), Long(actor_number(self.actor))])?;
        push_named_list(out, b",", self.changes.as_slice())?;
        push(out, b"]")
    }
}
