//! The lines of verdicts and diagnoses: their forms, and what is said of them.
ghost use Rattle.std.specs.Prelude.{◌≡◌};
ghost use Rattle.explained_answer.specs.Verdicts.{form_of, phrase_of, answer_rows, claim_rows, is_opening, quoted_piece};

/// A line of a verdict or a diagnosis, by what it says.
#[derive(Clone, Copy)]
pub enum VerdictRow {
    /// The claim agrees.
    Agrees,
    /// A grant isn't legal, or the list ends too early.
    Grants,
    /// Loads are claimed of other tasks.
    Tasks,
    /// A load differs from the right one.
    Load,
    /// A load is claimed that isn't made.
    NoLoad,
    /// A line of the answer differs.
    Answer,
    /// All tasks of the current phase have ended.
    Over,
    /// The current phase is another one.
    Phase,
    /// The core has no task in the phase.
    NoTask,
    /// The core's task has ended.
    Ended,
    /// The core's task waits for another lock.
    Waits,
    /// A core's task holds the lock.
    Held,
    /// A core's task waits for a free lock.
    Unfinished,
    /// How many tasks started.
    Started,
    /// The first task that the claim lacks or has too much.
    FirstTask,
    /// No load of the thread differs.
    NoneEarliest,
    /// The thread's first load that differs.
    Earliest,
    /// What is claimed of that load.
    Claimed,
    /// The load isn't claimed.
    NoneClaimed,
    /// The name of its word.
    Name,
    /// Its instruction.
    At,
    /// How many grants were taken before it.
    Taken,
    /// The last store to its word before it.
    Stored,
    /// Nothing was stored to its word before it.
    NeverStored,
    /// A lock that its task holds.
    Holds,
    /// The claim's answer has no such line.
    NothingClaimed,
    /// The claim's line of the answer.
    ClaimedLine,
    /// The right line of the answer.
    RightLine,
}

/// The form of a line: `$` part_stands for decimal digits, `#` for eight hexadecimal digits, `*` for all that is left of the line.
pub(crate) fn form_of(row: VerdictRow) -> &'static [u8]
    ensures { result.now ≡ form_of row }
{
    match row {
        VerdictRow::Agrees => b"agrees",
        VerdictRow::Grants => b"differs grants $",
        VerdictRow::Tasks => b"differs tasks",
        VerdictRow::Load => b"differs load $ $ $ word $ value 0x#",
        VerdictRow::NoLoad => b"differs load $ $ $ end",
        VerdictRow::Answer => b"differs answer $",
        VerdictRow::Over => b"because over",
        VerdictRow::Phase => b"because phase $",
        VerdictRow::NoTask => b"because no-task",
        VerdictRow::Ended => b"because ended",
        VerdictRow::Waits => b"because waits $",
        VerdictRow::Held => b"because held-by $",
        VerdictRow::Unfinished => b"because unfinished $ $",
        VerdictRow::Started => b"tasks $",
        VerdictRow::FirstTask => b"task $ $",
        VerdictRow::NoneEarliest => b"earliest none",
        VerdictRow::Earliest => b"earliest $ $ $ word $ value 0x#",
        VerdictRow::Claimed => b"claimed word $ value 0x#",
        VerdictRow::NoneClaimed => b"claimed end",
        VerdictRow::Name => b"name *",
        VerdictRow::At => b"at 0x# line $: *",
        VerdictRow::Taken => b"after grants $",
        VerdictRow::Stored => b"stored phase $ core $ at 0x# line $: *",
        VerdictRow::NeverStored => b"stored never",
        VerdictRow::Holds => b"holds $",
        VerdictRow::NothingClaimed => b"claimed nothing",
        VerdictRow::ClaimedLine => b"claimed *",
        VerdictRow::RightLine => b"*",
    }
}

/// What is said after a line: `$` is its next piece, `@` the data word and `%` the lock of that number, and `~` passes over one.
pub(crate) fn phrase_of(row: VerdictRow) -> &'static [u8]
    ensures { result.now ≡ phrase_of row }
{
    match row {
        VerdictRow::Agrees => {
            b"  The reference machine takes the claimed grants, makes the loads that are claimed, and ends with the claimed answer.\n"
        }
        VerdictRow::Grants => {
            b"  Grant $ of the claim, counted from 0, is the first that isn't legal. If the claim has no such grant, its list ends too early.\n"
        }
        VerdictRow::Tasks => {
            b"  The claim has loads of other tasks than those that started, or has them in another order.\n"
        }
        VerdictRow::Load => {
            b"  By phases and cores, the first load that differs is, in phase $ on core $, load $: from @ the reference machine reads 0x$.\n"
        }
        VerdictRow::NoLoad => {
            b"  In phase $ the task of core $ makes no load $, which the claim has.\n"
        }
        VerdictRow::Answer => {
            b"  Line $ of the answer, counted from 0, is the first that differs.\n"
        }
        VerdictRow::Over => b"  All tasks of the last phase that began have ended.\n",
        VerdictRow::Phase => {
            b"  The current phase is then phase $, and the grant is of another one.\n"
        }
        VerdictRow::NoTask => b"  The core has no task in the current phase.\n",
        VerdictRow::Ended => b"  The core's task has ended.\n",
        VerdictRow::Waits => b"  The core's task waits for another lock: %.\n",
        VerdictRow::Held => b"  The task of core $ holds the lock.\n",
        VerdictRow::Unfinished => {
            b"  The list ends too early: the task of core $ waits for %, which no task holds.\n"
        }
        VerdictRow::Started => b"  Tasks that started in the reference machine: $.\n",
        VerdictRow::FirstTask => {
            b"  The first task that the claim lacks, or has too much, is in phase $ the task of core $.\n"
        }
        VerdictRow::NoneEarliest => {
            b"  Each load of the reference machine is claimed as it is made.\n"
        }
        VerdictRow::Earliest => {
            b"  In the order of the reference machine, the first load that differs is, in phase $ on core $, load $: from @ the reference machine reads 0x$.\n"
        }
        VerdictRow::Claimed => b"  The claim says that it is from @, and reads 0x$.\n",
        VerdictRow::NoneClaimed => b"  The claim has no such load of this task.\n",
        VerdictRow::Name => b"",
        VerdictRow::At => b"~  The load is this line of the text:\n  $ | $\n",
        VerdictRow::Taken => b"  Grants that the reference machine took before it: $.\n",
        VerdictRow::Stored => {
            b"  The last store to its word before it was made in phase $ by core $, by this line:\n~  $ | $\n"
        }
        VerdictRow::NeverStored => b"  No task stored to its word before it.\n",
        VerdictRow::Holds => b"  Its task holds %.\n",
        VerdictRow::NothingClaimed => b"  The claim has no such line, or has the line `nothing`.\n",
        VerdictRow::ClaimedLine => b"  The claim has this line in its place.\n",
        VerdictRow::RightLine => b"  This is the right line.\n",
    }
}

/// The lines of a verdict on an answer, in the order in which they are looked for.
#[tactic(auto, unfolding(crate::specs::Verdicts::answer_rows))]
pub(crate) fn answer_rows() -> [VerdictRow; 4]
    ensures { result ≡ answer_rows }
{
    [
        VerdictRow::Answer,
        VerdictRow::NothingClaimed,
        VerdictRow::ClaimedLine,
        VerdictRow::RightLine,
    ]
}

/// The lines of all other verdicts, in the order in which they are looked for.
#[tactic(auto, unfolding(crate::specs::Verdicts::claim_rows))]
pub(crate) fn claim_rows() -> [VerdictRow; 24]
    ensures { result ≡ claim_rows }
{
    [
        VerdictRow::Agrees,
        VerdictRow::Grants,
        VerdictRow::Tasks,
        VerdictRow::Load,
        VerdictRow::NoLoad,
        VerdictRow::Over,
        VerdictRow::Phase,
        VerdictRow::NoTask,
        VerdictRow::Ended,
        VerdictRow::Waits,
        VerdictRow::Held,
        VerdictRow::Unfinished,
        VerdictRow::Started,
        VerdictRow::FirstTask,
        VerdictRow::NoneEarliest,
        VerdictRow::Earliest,
        VerdictRow::Claimed,
        VerdictRow::NoneClaimed,
        VerdictRow::Name,
        VerdictRow::At,
        VerdictRow::Taken,
        VerdictRow::Stored,
        VerdictRow::NeverStored,
        VerdictRow::Holds,
    ]
}

/// Whether a verdict may begin with the line.
pub(crate) fn is_opening(row: VerdictRow) -> bool
    ensures { result ≡ is_opening row }
{
    matches!(
        row,
        VerdictRow::Agrees
            | VerdictRow::Grants
            | VerdictRow::Tasks
            | VerdictRow::Load
            | VerdictRow::NoLoad
            | VerdictRow::Answer
    )
}

/// Which piece of the line is the number of a line of the text, which the next piece quotes.
pub(crate) fn quoted_piece(row: VerdictRow) -> Option<usize>
    ensures { result ≡ quoted_piece row }
{
    match row {
        VerdictRow::At => Some(1),
        VerdictRow::Stored => Some(3),
        _ => None,
    }
}
