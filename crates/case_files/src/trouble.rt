use dn_base::Memory;
use std::alloc::{AllocError, AllocFailed};

/// How a line isn't of the required form, or what a case lacks.
#[derive(Clone, Copy)]
pub enum BadForm {
    NoKeyword,
    Twice,
    NoNumber,
    NoByte,
    NoBlock,
    NoGap,
    Short,
    UnknownText,
    NoColumn,
    NoRow,
    NoName,
    TakenName,
    NoExit,
    NoOutput,
    NoText,
    NoKind,
    NoEvent,
    NoMachine,
    NotNow,
    NotOver,
    OtherLoad,
    OtherWord,
}

impl BadForm {
    /// What is said of it.
    pub fn message(self) -> &'static str {
        match self {
            BadForm::NoKeyword => "a line of a case begins with two blanks, a keyword or #",
            BadForm::Twice => "the case has this already",
            BadForm::NoNumber => "a number is wanted here, in decimal digits and within its range",
            BadForm::NoByte => "bytes are wanted here, each as 0x and hexadecimal digits",
            BadForm::NoBlock => "this belongs to a text or an output, and none is open",
            BadForm::NoGap => "lines are left out of an output only",
            BadForm::Short => "there are fewer bytes above",
            BadForm::UnknownText =>
                "there is no such file, and no such case above that has no rows",
            BadForm::NoColumn => "the row has no such column",
            BadForm::NoRow =>
                "rows are wanted here: lines that begin with two blanks, or A to B on the line of each",
            BadForm::NoName => "a case has a name",
            BadForm::TakenName => "another case or a file has this name",
            BadForm::NoExit => "the case has no exit code",
            BadForm::NoOutput => "the case has no output",
            BadForm::NoText => "a case file is a text in UTF-8",
            BadForm::NoKind => "there is no such kind of event",
            BadForm::NoEvent => "a line of a script is an event, loads or word",
            BadForm::NoMachine =>
                "a script wants the command's words and the text of a checked program",
            BadForm::NotNow => "this event may not come here",
            BadForm::NotOver => "the script ends here, and the run doesn't",
            BadForm::OtherLoad => "the event before it completed no such load",
            BadForm::OtherWord => "the word has another value",
        }
    }
}

/// Why a case isn't run.
#[derive(Clone, Copy)]
pub enum Trouble {
    /// It is of bad form.
    Form(BadForm),
    /// There wasn't enough memory.
    Memory,
}

/// The line of a case, counted from 0, at which it was found that the case can't be run, and why.
#[derive(Clone, Copy)]
pub struct Stop {
    pub place: usize,
    pub why: Trouble,
}

impl From<Memory> for Trouble {
    fn from(_error: Memory) -> Trouble {
        Trouble::Memory
    }
}

impl From<AllocError> for Trouble {
    fn from(_error: AllocError) -> Trouble {
        Trouble::Memory
    }
}

impl<T: Drop> From<AllocFailed<T>> for Trouble {
    fn from(_error: AllocFailed<T>) -> Trouble {
        Trouble::Memory
    }
}
