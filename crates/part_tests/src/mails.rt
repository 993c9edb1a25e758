ghost use Rattle.std.specs.Prelude.{◌≡◌};

use dn_base::{CoreId, Memory};
use message_net::{Actor, Mail, Message, Outgoing, Pool};
use std::alloc::Global;
use std::test::Fail;

/// A message of core 0 to the barrier controller: the core has arrived, and its task was not bad.
fn arrival(number: u32) -> Mail
    ensures { result.id.number ≡ number }
{
    let message = Message::Arrived {
        core: CoreId(0),
        bad: false,
    };
    Outgoing::to_keeper(message).mail(Actor::Core(CoreId(0)), number)
}

/// A pool of two such messages.
fn two_mails(alloc: Global) -> Result<Pool, Memory> {
    let mut pool = Pool::new(alloc);
    pool.post(arrival(0))?;
    pool.reserve(1)?;
    pool.post_reserved(arrival(1));
    Ok(pool)
}

/// How many messages there are, and the first of them.
fn seen(pool: &Pool) -> (u32, Option<Mail>) {
    let count = pool.count();
    let first = if count > 0 { Some(pool.at(0)) } else { None };
    (count, first)
}

/// What is taken for the first message's number, twice, and what is seen before and between.
fn taken_twice(pool: &mut Pool) -> ([Option<Mail>; 2], [(u32, Option<Mail>); 2]) {
    let first = arrival(0).id;
    let before = seen(pool);
    let taken = pool.take(first);
    let after = seen(pool);
    ([taken, pool.take(first)], [before, after])
}

#[test]
fn the_last_mail_moves_into_the_free_place(rt: HostRuntime) -> Result<(), Fail> {
    let (zero, one) = (Some(arrival(0)), Some(arrival(1)));
    let mut pool = two_mails(rt.alloc())?;
    let (taken, seen) = taken_twice(&mut pool);
    assert_eq!(rt; taken, [zero, None]);
    assert_eq!(rt; seen, [(2, zero), (1, one)]);
    Ok(())
}
