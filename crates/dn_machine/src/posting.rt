ghost use Rattle.std.specs.Prelude.{◌≡◌, ℕ, ◌+◌, ◌<◌, ◌≤◌, length, slice_get, slice_set, slice_index, Some};
ghost use Rattle.message_net.specs.Pool.{count_of};
ghost use Rattle.message_net.specs.Mail.{mails_with, all_mails};
ghost use Rattle.phase_barrier.specs.Letters.{to_each, letters};
ghost use Rattle.message_net.specs.declared.actor.Actor.TheVariants.{Keeper as TheKeeper};
ghost use Rattle.machine_rules.specs.Next.{numbers_with};

use dn_base::{CoreId, Sequence};
use message_net::{Actor, Message, Outgoing, Pool};
use phase_barrier::Verdict;

/// The number of an actor's next message.
#[inline(always)]
pub(crate) fn next_number(numbers: &Sequence<u32>, place: usize) -> u32
    requires { place < length numbers.now }
    ensures { result ≡ slice_index numbers.now place }
{
    numbers.as_slice()[place]
}

/// The actor at this index may send a message: then a message with the actor's next number is in flight.
#[inline(always)]
pub(crate) fn send(
    pool: &mut Pool,
    numbers: &mut Sequence<u32>,
    place: usize,
    from: Actor,
    sent: &Option<Outgoing>,
)
    requires place { place < length numbers.old }
    requires few { slice_index numbers.old place < 4294967295 }
    requires new { count_of (record { sender = from; number = slice_index numbers.old place }) pool.old.mails ≡ 0 }
    requires room { length pool.old.mails < 4294967295 }
    requires spare { 1 ≤ pool.old.spare }
    ensures mails { pool.new.mails ≡ mails_with from (slice_index numbers.old place) sent.now pool.old.mails }
    ensures numbers { numbers.new ≡ numbers_with place sent.now numbers.old }
{
    if let Some(outgoing) = sent {
        let number = next_number(numbers, place);
        pool.post_reserved(outgoing.mail(from, number));
        numbers.set(place, number + 1);
    }
}

/// The barrier controller sends a message to each of `cores` cores, with rising numbers from `first` on.
pub(crate) fn send_each(pool: &mut Pool, first: u32, cores: u32, message: Message)
    requires few { first + cores < 4294967295 }
    requires new { (number : ℕ) → first ≤ number → count_of (record { sender = TheKeeper; number = number }) pool.old.mails ≡ 0 }
    requires room { length pool.old.mails + cores < 4294967295 }
    requires spare { cores ≤ pool.old.spare }
    ensures { pool.new.mails ≡ all_mails TheKeeper first (to_each 0 cores message) pool.old.mails }
{
    for core in 0..cores {
        let letter = Outgoing::to_core(CoreId(core), message);
        pool.post_reserved(letter.mail(Actor::Keeper, first + core));
    }
}

/// The barrier controller, which stands at this index, sends its letters to each of `cores` cores, unless the verdict is Wait.
pub(crate) fn send_letters(
    pool: &mut Pool,
    numbers: &mut Sequence<u32>,
    place: usize,
    cores: u32,
    verdict: Verdict,
)
    requires place { place < length numbers.old }
    requires few { slice_index numbers.old place + cores < 4294967295 }
    requires new { (number : ℕ) → slice_index numbers.old place ≤ number → count_of (record { sender = TheKeeper; number = number }) pool.old.mails ≡ 0 }
    requires room { length pool.old.mails + cores < 4294967295 }
    requires spare { cores ≤ pool.old.spare }
    ensures mails { pool.new.mails ≡ all_mails TheKeeper (slice_index numbers.old place) (letters cores verdict) pool.old.mails }
    ensures numbers { numbers.new ≡ slice_set numbers.old place (slice_index numbers.old place + length (letters cores verdict)) }
{
    let Some(message) = verdict.letter() else {
        return;
    };
    let first = next_number(numbers, place);
    send_each(pool, first, cores, message);
    numbers.set(place, first + cores);
}
