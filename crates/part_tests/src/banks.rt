use dn_base::{BankId, CoreId, LockId, Memory, PhaseId, WordId};
use message_net::{Message, Outgoing};
use registry_bank::{Bank, BankWord};
use std::alloc::Global;
use std::test::Fail;
use write_signature::Signature;

const FIRST: WordId = WordId(0);

/// A word that no memory here has.
const BEHIND: WordId = WordId(5);

/// A message that the bank gets, and what it sends then, to which core.
type Line = (Message, Option<(u32, Message)>);

fn read(word: WordId, reader: u32) -> Message {
    Message::ReadReq {
        word,
        reader: CoreId(reader),
    }
}

fn register(core: u32) -> Message {
    Message::RegReq {
        word: FIRST,
        core: CoreId(core),
    }
}

/// What is said of the first word, which is 3: it is read and registered, registered by another core and read there. The first
/// owner's late write-back is answered and not taken. Of a word after the memory nothing is said.
fn talk_of_a_word() -> [Line; 6] {
    let word = FIRST;
    let late = Message::WriteBack {
        word,
        value: 9,
        core: CoreId(1),
    };
    let (core, reader) = (CoreId(0), CoreId(2));
    [
        (
            read(word, 1),
            Some((1, Message::DataReply { word, value: 3 })),
        ),
        (register(1), Some((1, Message::RegAck { word }))),
        (register(0), Some((1, Message::RegFwd { word, core }))),
        (read(word, 2), Some((0, Message::ReadFwd { word, reader }))),
        (late, Some((1, Message::WbAck { word }))),
        (read(BEHIND, 1), None),
    ]
}

/// A free lock is granted with its signature, and a core's halt is no message for a bank.
fn talk_of_a_lock() -> [Line; 2] {
    let (lock, core) = (LockId(1), CoreId(1));
    let signature = Signature::empty(PhaseId(0));
    let grant = Message::Grant { lock, signature };
    [
        (Message::Acquire { lock, core }, Some((1, grant))),
        (Message::Halt, None),
    ]
}

/// The place of the first line that the bank answers in another way.
fn first_wrong(bank: &mut Bank, talk: &[Line]) -> Option<usize> {
    for (place, (message, answer)) in talk.iter().enumerate() {
        let wanted = answer.map(|(core, sent)| Outgoing::to_core(CoreId(core), sent));
        if bank.handle(*message) != wanted {
            return Some(place);
        }
    }
    None
}

/// The first wrong line of the talk of a word, and then that word and the word behind the memory.
fn talked_of_a_word(alloc: Global) -> Result<(Option<usize>, [Option<BankWord>; 2]), Memory> {
    let mut bank = Bank::new(alloc, BankId(0), 1, 3, &[3, 3], 0)?;
    let wrong = first_wrong(&mut bank, &talk_of_a_word());
    Ok((wrong, [bank.word(FIRST), bank.word(BEHIND)]))
}

/// The first wrong line of the talk of a lock with the second of two banks, and then the bank's number and its only word.
fn talked_of_a_lock(alloc: Global) -> Result<(Option<usize>, BankId, Option<BankWord>), Memory> {
    let mut bank = Bank::new(alloc, BankId(1), 2, 2, &[0, 7], 2)?;
    let wrong = first_wrong(&mut bank, &talk_of_a_lock());
    Ok((wrong, bank.number(), bank.word(WordId(1))))
}

#[test]
fn a_bank_answers_each_message(rt: HostRuntime) -> Result<(), Fail> {
    let alloc = rt.alloc();
    let words = [Some(BankWord::Reg(CoreId(0))), None];
    assert_eq!(rt; talked_of_a_word(alloc)?, (None, words));
    let word = Some(BankWord::Home(7));
    assert_eq!(rt; talked_of_a_lock(alloc)?, (None, BankId(1), word));
    Ok(())
}
