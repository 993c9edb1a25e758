//! Talks of one caller with a hall of one core, one bank and the barrier controller. What the hall tells was counted by hand.
use crate::halls::{Ask, LAST_STAMP, OneHall, Told, Visits};
use bank_hall::Handled;
use dn_base::{BankId, CoreId, Memory, WordId};
use grant_log::{Posted, Stamped};
use message_net::{Actor, Event, EventKind, Mail, MailId, Message};
use phase_barrier::Verdict;
use std::alloc::Global;
use std::sync::Wait;

const CORE: Actor = Actor::Core(CoreId(0));

const BANK: Actor = Actor::Bank(BankId(0));

const WORD: WordId = WordId(0);

fn posted(sender: Actor, number: u32, to: Actor, message: Message, stamp: u64) -> Posted {
    let id = MailId { sender, number };
    Posted {
        mail: Mail { id, to, message },
        stamp,
    }
}

/// The core's request for the word.
fn request(number: u32, stamp: u64) -> Posted {
    let core = CoreId(0);
    posted(
        CORE,
        number,
        BANK,
        Message::RegReq { word: WORD, core },
        stamp,
    )
}

/// The bank's answer to it.
fn reply(number: u32, stamp: u64) -> Posted {
    posted(BANK, number, CORE, Message::RegAck { word: WORD }, stamp)
}

/// A message of the core to the bank that the bank doesn't answer.
fn idle(number: u32, stamp: u64) -> Posted {
    posted(CORE, number, BANK, Message::Halt, stamp)
}

/// A message of the barrier controller to the core.
fn halt(number: u32, stamp: u64) -> Posted {
    posted(Actor::Keeper, number, CORE, Message::Halt, stamp)
}

/// The core tells the barrier controller that it has arrived.
fn arrival(number: u32, stamp: u64) -> Posted {
    let (core, bad) = (CoreId(0), false);
    let message = Message::Arrived { core, bad };
    posted(CORE, number, Actor::Keeper, message, stamp)
}

/// The bank handled the core's message with this number.
fn handled(number: u32, kind: EventKind, stamp: u64, reply: Option<Posted>) -> Told {
    let sender = CORE;
    let stamped = Stamped {
        stamp,
        actor: BANK,
        event: Event::Handle(MailId { sender, number }),
        kind,
        granted: None,
    };
    Told::Handled(Some(Handled { stamped, reply }))
}

/// The barrier controller halts the cores; its first letter has this number.
fn halts(first: u32, stamp: u64) -> Told {
    let number = first.wrapping_add(1);
    let core = Actor::Core(CoreId(1));
    let letter = posted(Actor::Keeper, number, core, Message::Halt, stamp);
    Told::Verdict(Some((stamp, Verdict::Halt, first, Some(letter))))
}

/// A request and its reply, and an arrival and its verdict, in a new hall; before and after them there is nothing to do.
fn whole_talk() -> [(Ask, Told); 9] {
    let answer = handled(0, EventKind::RegReq, 6, Some(reply(0, 6)));
    [
        (Ask::Post(request(0, 5)), Told::Posted),
        (Ask::BankStep(0), answer),
        (Ask::BankStep(0), Told::Handled(None)),
        (Ask::Post(reply(0, 6)), Told::Posted),
        (Ask::Take(0), Told::Taken(Some(reply(0, 6)))),
        (Ask::Take(0), Told::Taken(None)),
        (Ask::KeeperStep(0), Told::Verdict(None)),
        (Ask::Post(arrival(1, 8)), Told::Posted),
        (Ask::KeeperStep(0), halts(0, 9)),
    ]
}

/// The same where bank and barrier controller have sent three messages each, and have the clock 2. After the last phase the
/// barrier controller says no more.
fn later_talk() -> [(Ask, Told); 6] {
    let answer = handled(4, EventKind::RegReq, 6, Some(reply(3, 6)));
    let no_verdict = Told::Verdict(Some((10, Verdict::Wait, 4, None)));
    [
        (Ask::Post(request(4, 5)), Told::Posted),
        (Ask::BankStep(9), answer),
        (Ask::Post(arrival(0, 8)), Told::Posted),
        (Ask::KeeperStep(0), halts(3, 9)),
        (Ask::Post(arrival(1, 3)), Told::Posted),
        (Ask::KeeperStep(0), no_verdict),
    ]
}

/// The bank and the barrier controller are spent.
fn spent_talk() -> [(Ask, Told); 4] {
    [
        (Ask::Post(request(0, 0)), Told::Posted),
        (Ask::BankStep(0), Told::Handled(None)),
        (Ask::Post(arrival(1, 0)), Told::Posted),
        (Ask::KeeperStep(0), Told::Verdict(None)),
    ]
}

/// A message whose stamp is the last stays where it is, and all else as it was. The last message of an inbox moves into the free
/// place.
fn talk_of_last_stamps() -> [(Ask, Told); 12] {
    let answer = handled(1, EventKind::RegReq, 6, Some(reply(0, 6)));
    [
        (Ask::Post(halt(0, 1)), Told::Posted),
        (Ask::Post(halt(1, 2)), Told::Posted),
        (Ask::Post(halt(2, LAST_STAMP)), Told::Posted),
        (Ask::Take(3), Told::Taken(Some(halt(0, 1)))),
        (Ask::Take(0), Told::Taken(None)),
        (Ask::Take(1), Told::Taken(Some(halt(1, 2)))),
        (Ask::Post(idle(0, LAST_STAMP)), Told::Posted),
        (Ask::Post(request(1, 5)), Told::Posted),
        (Ask::BankStep(0), Told::Handled(None)),
        (Ask::BankStep(1), answer),
        (Ask::Post(arrival(2, LAST_STAMP)), Told::Posted),
        (Ask::KeeperStep(0), Told::Verdict(None)),
    ]
}

/// Four messages fill the core's inbox, so that a take, which makes room like any call, has to make it grow.
fn talk_of_a_full_port() -> [(Ask, Told); 8] {
    [
        (Ask::Post(halt(0, 5)), Told::Posted),
        (Ask::Post(halt(1, 5)), Told::Posted),
        (Ask::Post(halt(2, 5)), Told::Posted),
        (Ask::Post(halt(3, 5)), Told::Posted),
        (Ask::Take(0), Told::Taken(Some(halt(0, 5)))),
        (Ask::Take(0), Told::Taken(Some(halt(3, 5)))),
        (Ask::Take(0), Told::Taken(Some(halt(2, 5)))),
        (Ask::Take(0), Told::Taken(Some(halt(1, 5)))),
    ]
}

/// The same of the bank's inbox and its steps.
fn talk_of_a_full_bank() -> [(Ask, Told); 8] {
    let kind = EventKind::Halt;
    [
        (Ask::Post(idle(0, 5)), Told::Posted),
        (Ask::Post(idle(1, 5)), Told::Posted),
        (Ask::Post(idle(2, 5)), Told::Posted),
        (Ask::Post(idle(3, 5)), Told::Posted),
        (Ask::BankStep(0), handled(0, kind, 6, None)),
        (Ask::BankStep(0), handled(3, kind, 7, None)),
        (Ask::BankStep(0), handled(2, kind, 8, None)),
        (Ask::BankStep(0), handled(1, kind, 9, None)),
    ]
}

/// How many calls there were of the bank, of the port and of the barrier controller.
type Calls = (usize, usize, usize);

/// A hall's life: the first line of its talk in which it tells something else, how many calls there were, and what the gate saw.
type Life = (Option<usize>, Calls, (u32, u32, u32));

/// The first line in which the hall tells something else, and how many calls there were when it is closed then.
fn told_by<R: Wait>(
    mut hall: OneHall,
    rt: &R,
    alloc: Global,
    talk: &[(Ask, Told)],
    visits: &Visits,
) -> Result<(Option<usize>, Calls), Memory> {
    // for the proof: both are made before either may end this, so nothing ends it while it owns the hall
    let wrong = hall.first_wrong(rt, talk, visits);
    let calls = hall.calls(alloc);
    Ok((wrong?, calls?))
}

/// The life of a hall that begins with this number and clock.
fn one_life<R: Wait>(
    rt: &R,
    alloc: Global,
    next: u32,
    clock: u64,
    talk: &[(Ask, Told)],
) -> Result<Life, Memory> {
    let visits = Visits::none();
    let hall = OneHall::start(alloc, next, clock)?;
    let (wrong, calls) = told_by(hall, rt, alloc, talk, &visits)?;
    Ok((wrong, calls, visits.seen()))
}

/// The same. A hall that found no memory is started once more.
fn life<R: Wait>(
    rt: &R,
    alloc: Global,
    next: u32,
    clock: u64,
    talk: &[(Ask, Told)],
) -> Result<Life, Memory> {
    match one_life(rt, alloc, next, clock, talk) {
        Err(Memory) => one_life(rt, alloc, next, clock, talk),
        life => life,
    }
}

/// The further lives. The bank and the barrier controller are spent by their numbers or by their clocks.
#[derive(Clone, Copy)]
enum Further {
    Later,
    SpentNumbers,
    SpentClocks,
    LastStamps,
    FullPort,
    FullBank,
}

const FURTHER: [Further; 6] = [
    Further::Later,
    Further::SpentNumbers,
    Further::SpentClocks,
    Further::LastStamps,
    Further::FullPort,
    Further::FullBank,
];

impl Further {
    fn live<R: Wait>(self, rt: &R, alloc: Global) -> Result<Life, Memory> {
        match self {
            Further::Later => life(rt, alloc, 3, 2, &later_talk()),
            Further::SpentNumbers => life(rt, alloc, 4_294_967_000, 0, &spent_talk()),
            Further::SpentClocks => life(rt, alloc, 0, LAST_STAMP, &spent_talk()),
            Further::LastStamps => life(rt, alloc, 0, 0, &talk_of_last_stamps()),
            Further::FullPort => life(rt, alloc, 0, 0, &talk_of_a_full_port()),
            Further::FullBank => life(rt, alloc, 0, 0, &talk_of_a_full_bank()),
        }
    }
}

/// The place of the first further life in which a hall tells something else, and the place of the line.
fn first_wrong<R: Wait>(rt: &R, alloc: Global) -> Result<Option<(usize, usize)>, Memory> {
    for (place, further) in FURTHER.iter().enumerate() {
        let (wrong, _calls, _seen) = further.live(rt, alloc)?;
        if let Some(line) = wrong {
            return Ok(Some((place, line)));
        }
    }
    Ok(None)
}

// Where an allocation fails in the start or in the close, all was dropped and a new hall is started. In any other call nothing
// was entered, so the call is made once more and the rest of the hall's life is the same.
#[test]
fn a_hall_tells_the_same_whichever_allocation_fails(rt: HostRuntime) -> Result<(), Memory> {
    let told = life(&rt, rt.alloc(), 0, 0, &whole_talk())?;
    assert_eq!(rt; told, (None, (3, 3, 3), (2, 7, 0)));
    Ok(())
}

#[test]
fn objects_go_on_until_they_are_spent(rt: HostRuntime) -> Result<(), Memory> {
    assert_eq!(rt; first_wrong(&rt, rt.alloc())?, None);
    Ok(())
}
