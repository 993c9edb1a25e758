//! Theorems of posts and takes, for proofs about messages in flight. A theorem is a function without effect; its contract states
//! the theorem.
ghost use Rattle.std.specs.Prelude.{◌≡◌, ℕ, ◌+◌, ◌<◌, ◌≤◌, ◌↔◌, Bool, List, length, slice_get, Some, None, true, sum_by, count_by, IsPermutation};
ghost use Rattle.std.specs.Ordering.{nat_cmp};
ghost use Rattle.message_net.specs.declared.actor.Actor.{Actor};
ghost use Rattle.message_net.specs.declared.actor.MailId.{MailId};
ghost use Rattle.message_net.specs.declared.event.EventKind.{EventKind};
ghost use Rattle.message_net.specs.declared.message.Mail.{Mail};
ghost use Rattle.message_net.specs.declared.message.Outgoing.{Outgoing};
ghost use Rattle.message_net.specs.Id.{same_id};
ghost use Rattle.message_net.specs.Pool.{count_of, AreDistinct, IsFound, posted, without_mail_at, removed};
ghost use Rattle.message_net.specs.Kind.{kind_index};
ghost use Rattle.message_net.specs.Order.{actor_order};
ghost use Rattle.message_net.specs.Mail.{has_actor, actor_index, mails_of, all_mails};

use crate::actor::Actor;

/// The test on two ids is true exactly if they are equal.
pub fn equal_ids_are_the_same()
    ensures { (a b : MailId) → (same_id a b ≡ true) ↔ (a ≡ b) }
{}

/// A post adds the weight of its message to the total weight, for any weights. With a test as weight, 1 or 0, the total is a
/// count.
pub fn a_post_adds_its_mail()
    ensures weight { (f : Mail → ℕ) (mails : List Mail) (m : Mail) → sum_by f (posted m mails) ≡ sum_by f mails + f m }
    ensures length { (mails : List Mail) (m : Mail) → length (posted m mails) ≡ length mails + 1 }
{}

/// A take of the message at an index subtracts its weight from the total weight, for any weights.
pub fn a_take_frees_one_mail()
    ensures weight { (f : Mail → ℕ) (mails : List Mail) (place : ℕ) (m : Mail) → slice_get mails place ≡ Some m
        → sum_by f (without_mail_at place mails) + f m ≡ sum_by f mails }
    ensures length { (mails : List Mail) (place : ℕ) (m : Mail) → slice_get mails place ≡ Some m
        → length (without_mail_at place mails) + 1 ≡ length mails }
    ensures by_id { (f : Mail → ℕ) (id : MailId) (mails : List Mail) (m : Mail) → (removed id mails).0 ≡ Some m
        → sum_by f (removed id mails).1 + f m ≡ sum_by f mails }
{}

/// At least one message passes a test exactly if a message that passes it stands at some index.
pub fn a_counted_mail_stands_somewhere()
    ensures { (p : Mail → Bool) (mails : List Mail)
        → (1 ≤ count_by p mails) ↔ ((place : ℕ) × (m : Mail) × (slice_get mails place ≡ Some m) × (p m ≡ true)) }
{}

/// If a message has the id, it is found by it; if none has, nothing is taken.
pub fn a_counted_id_is_found()
    ensures some { (id : MailId) (mails : List Mail) → 1 ≤ count_of id mails → (place : ℕ) × (m : Mail) × IsFound id mails place m }
    ensures none { (id : MailId) (mails : List Mail) → count_of id mails ≡ 0 → removed id mails ≡ (None, mails) }
{}

/// The actors of a machine have different indices, below the number of all actors.
pub fn actors_have_indices_of_their_own()
    ensures within { (cores banks : ℕ) (a : Actor) → has_actor cores banks a ≡ true → actor_index cores banks a < cores + banks + 1 }
    ensures own { (cores banks : ℕ) (a b : Actor) → has_actor cores banks a ≡ true → has_actor cores banks b ≡ true
        → actor_index cores banks a ≡ actor_index cores banks b → a ≡ b }
{}

/// In the order of actors the cores come first, then the banks, each by number, then the barrier controller. The actors of a
/// machine stand in the order of their indices.
pub fn actors_are_in_order()
    ensures order { (a b : Actor) → ⟦<Actor as Ord>⟧.cmp a b ≡ actor_order a b }
    ensures place { (cores banks : ℕ) (a b : Actor) → has_actor cores banks a ≡ true → has_actor cores banks b ≡ true
        → actor_order a b ≡ nat_cmp (actor_index cores banks a) (actor_index cores banks b) }
{}

/// The seventeen kinds have different indices, below seventeen.
pub fn kinds_have_indices_of_their_own()
    ensures within { (k : EventKind) → kind_index k < 17 }
    ensures own { (j k : EventKind) → kind_index j ≡ kind_index k → j ≡ k }
{}

/// For the same messages in another order, the total weight is the same for any weights, and a take gives the same message and
/// leaves the same messages, again in some order.
pub fn the_order_of_mails_does_not_matter()
    ensures weight { (f : Mail → ℕ) (xs ys : List Mail) → IsPermutation xs ys → sum_by f ys ≡ sum_by f xs }
    ensures posted { (xs ys : List Mail) (m : Mail) → IsPermutation xs ys → IsPermutation (posted m xs) (posted m ys) }
    ensures removed { (id : MailId) (xs ys : List Mail) → AreDistinct xs → IsPermutation xs ys → (removed id xs).0 ≡ (removed id ys).0 }
    ensures rest { (id : MailId) (xs ys : List Mail) → AreDistinct xs → IsPermutation xs ys
        → IsPermutation (removed id xs).1 (removed id ys).1 }
{}

/// Messages that are sent one after the other add their messages to those in flight.
pub fn all_mails_are_added()
    ensures weight { (f : Mail → ℕ) (from : Actor) (number : ℕ) (outs : List Outgoing) (mails : List Mail)
        → sum_by f (all_mails from number outs mails) ≡ sum_by f mails + sum_by f (mails_of from number outs) }
    ensures length { (from : Actor) (number : ℕ) (outs : List Outgoing) (mails : List Mail)
        → length (all_mails from number outs mails) ≡ length mails + length outs }
{}

/// Ids stay distinct: a message that is taken is gone, and a sender's next numbers are new if no message in flight has them.
pub fn ids_stay_distinct()
    ensures post { (mails : List Mail) (m : Mail) → AreDistinct mails → count_of m.id mails ≡ 0 → AreDistinct (posted m mails) }
    ensures take { (mails : List Mail) (place : ℕ) → AreDistinct mails → AreDistinct (without_mail_at place mails) }
    ensures gone { (id : MailId) (mails : List Mail) → AreDistinct mails → count_of id (removed id mails).1 ≡ 0 }
    ensures sent { (from : Actor) (number : ℕ) (outs : List Outgoing) (mails : List Mail) → AreDistinct mails
        → ((i : ℕ) → number ≤ i → i < number + length outs → count_of (record { sender = from; number = i }) mails ≡ 0)
        → AreDistinct (all_mails from number outs mails) }
{}

/// If a message stands at an index, taking by its id is taking at that index.
pub fn a_mail_is_found_by_its_id()
    ensures { (mails : List Mail) (place : ℕ) (m : Mail) → AreDistinct mails → slice_get mails place ≡ Some m
        → removed m.id mails ≡ (Some m, without_mail_at place mails) }
{}
