use run_timing::Net;

/// What the program does with a text (this project's profile).
#[derive(Clone, Copy)]
pub enum Mode {
    /// Runs the program of the text on the cores. Prints its answer, the grants of locks and the counts of events.
    Run,
    /// Generates a text of the given size instead of reading one, and runs it. Prints a summary.
    Work,
    /// Assembles and checks the text. Prints how many code words, regions, locks, phases and so on it has.
    Check,
    /// Assembles the text. Prints the program as a source text.
    List,
    /// Runs the program of the text on one flat memory with one thread. Prints its answer and the grants of locks.
    Flat,
    /// Runs the program of the text on the cores. Prints the trace: the machine's size, the text and the events.
    Trace,
    /// Takes the input as the trace, and makes its events again. Prints what the mode run prints of that run.
    Replay,
    /// Runs the program of the text on the cores. Prints a summary and the longest chain of dependent events.
    Time,
    /// Says whether some run of the program may access a word outside the declared effects.
    Prove,
}

/// How the next event of a run is picked, in the modes that run the multicore machine by themselves.
#[derive(Clone, Copy)]
pub enum Order {
    /// By the words of the seed's generator.
    Seed,
    /// The event that can start first by the ticks of its kind and of messages. One worker alone makes such a run.
    Time,
}

/// What the arguments ask for. A mode ignores the options that it has no use for.
#[derive(Clone, Copy)]
pub struct Options {
    pub mode: Mode,
    /// Whether a listing has the address of each code word.
    pub addresses: bool,
    /// How the next event is picked.
    pub order: Order,
    /// The seed of the generators that pick events. With more than one worker it doesn't fix the order of events.
    pub seed: u32,
    /// Host threads, from 1 to 16.
    pub workers: u32,
    /// Banks of the shared memory, from 1 to 16.
    pub banks: u32,
    /// Sets of a core's cache, from 1 to 256.
    pub sets: u32,
    /// Ways of each set, from 1 to 16.
    pub ways: u32,
    /// How many instructions a task may retire, from 1 to 32,768.
    pub fuel: u32,
    /// The size of the generated text, from 1 to 128.
    pub size: u32,
    /// Ticks of each event that a core makes by itself, from 1 to 1,000,000.
    pub tick_core: u32,
    /// Ticks of each event in which a bank handles a message, from 1 to 1,000,000.
    pub tick_bank: u32,
    /// Ticks of every other event, from 1 to 1,000,000.
    pub tick_mail: u32,
    /// Ticks of a message for each hop, from 0 to 1,000,000.
    pub latency: u32,
    /// How many hops a message takes.
    pub net: Net,
}
