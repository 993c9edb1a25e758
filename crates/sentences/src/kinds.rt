//! What is said of each kind of fault.
ghost use Rattle.std.specs.Prelude.{◌≡◌, slice_index_or};
ghost use Rattle.src_text.specs.Byte.{is_digit};
ghost use Rattle.sentences.specs.Faults.{faulty_line, complaint, amendment, range_amendment, place_amendment, word_amendment, byte_amendment, is_local_label, number_amendment, no_word_amendment, statement_amendment, word_part, finding_amendment};

use crate::elsewhere::{Elsewhere, instead, word_elsewhere};
use crate::findings::{Cause, Finding};
use crate::marks::bytes_between;
use rv_assembler::SourceFault;
use src_text::Span;

/// The line with the fault; None if the fault isn't that of a line.
pub(crate) fn faulty_line(fault: SourceFault) -> Option<u32>
    ensures { result ≡ faulty_line fault }
{
    match fault {
        SourceFault::TooLarge | SourceFault::Memory => None,
        SourceFault::BadByte { line }
        | SourceFault::BadNumber { line }
        | SourceFault::LineLimit { line }
        | SourceFault::UnknownWord { line }
        | SourceFault::BadOperand { line }
        | SourceFault::OutOfRange { line }
        | SourceFault::DoubleName { line }
        | SourceFault::UnknownName { line }
        | SourceFault::Misplaced { line }
        | SourceFault::Limit { line } => Some(line),
    }
}

/// What is wrong.
pub(crate) fn complaint(fault: SourceFault) -> &'static [u8]
    ensures { result.now ≡ complaint fault }
{
    match fault {
        SourceFault::TooLarge => b"The text has more than 1048576 bytes.",
        SourceFault::BadByte { .. } =>
            b"Outside of comments only blanks, letters, digits and `_ . , : ( ) -` may stand.",
        SourceFault::BadNumber { .. } =>
            b"What begins with a digit or `-` is to be a number from -2147483648 to 4294967295.",
        SourceFault::LineLimit { .. } =>
            b"A line has at most 1024 bytes, and a text at most 65536 lines.",
        SourceFault::UnknownWord { .. } => b"No statement begins with this word.",
        SourceFault::BadOperand { .. } =>
            b"This isn't the form of the statement, or a declared name begins with `.`.",
        SourceFault::OutOfRange { .. } =>
            b"A number is out of its range, or a label is too far away.",
        SourceFault::DoubleName { .. } => b"The name that this line declares is declared already.",
        SourceFault::UnknownName { .. } => b"No line declares this name as what is wanted here.",
        SourceFault::Misplaced { .. } => b"This statement may not stand here.",
        SourceFault::Limit { .. } => b"With this line the program is larger than a program may be.",
        SourceFault::Memory => b"There was no memory.",
    }
}

/// How to fix it, by the kind of the fault.
pub(crate) fn amendment(fault: SourceFault) -> &'static [u8]
    ensures { result.now ≡ amendment fault }
{
    match fault {
        SourceFault::TooLarge => b"Leave out blanks and comments, or make two programs of it.",
        SourceFault::BadByte { .. } =>
            b"Leave the byte out. If it belongs to a comment, put `#` before it.",
        SourceFault::BadNumber { .. } =>
            b"Write decimal digits, or `0x` and hexadecimal digits. A name may not begin with a digit.",
        SourceFault::LineLimit { .. } => b"Shorten the line, or leave out lines before it.",
        SourceFault::UnknownWord { .. } =>
            b"Write one of the language's statements, for example `addi` with a negative number in place of `subi`. Words are in lower case. A line has one label at most, with `:` behind it. `.forall` needs `.version 2` as the first line that isn't blank.",
        SourceFault::BadOperand { .. } =>
            b"Write the operands as the table of statements has them, with a comma between two. `addi`, `andi`, `slli` and `li` take a number at the end, and `add`, `and` and `sll` a register.",
        SourceFault::OutOfRange { .. } =>
            b"Write a number of its range, or a label that is nearer.",
        SourceFault::DoubleName { .. } =>
            b"Labels, regions and locks share one set of names: choose another name.",
        SourceFault::UnknownName { .. } =>
            b"Declare it, or look how it is spelled: names are case-sensitive, and a line that has a fault itself declares nothing.",
        SourceFault::Misplaced { .. } =>
            b"Tasks stand behind a `.phase`, each core has one task in a phase, and effects stand behind their task.",
        SourceFault::Limit { .. } =>
            b"A program has at most 16384 code words, 65536 data words, 256 regions (4096 in version 2), 32 locks, 64 phases and 64 tasks.",
        SourceFault::Memory => b"Give it more memory.",
    }
}

/// How to fix a number or a label that is out of range.
fn range_amendment(cause: Cause) -> &'static [u8]
    ensures { result.now ≡ range_amendment cause }
{
    match cause {
        Cause::Range { .. } =>
            b"Write a number of this range; `li` makes a larger one in a register.",
        Cause::Length =>
            b"Write a number of this range. All regions of a text have at most 65536 words together.",
        Cause::Offset { .. } => b"Write a label that is nearer, or an even number of this range.",
        Cause::Index { .. } =>
            b"Write an index of the region's words, or give the region more of them.",
        Cause::Interval { .. } =>
            b"Write an interval of the region's words, also where a step moves it on from task to task, or give the region more of them.",
        Cause::Cores =>
            b"Use cores from 0 to 15: the first core and the number of tasks are at most 16 together.",
        Cause::Address => b"Write a label, or the address of an instruction.",
        _ => b"Write a number of its range, or a label that is nearer.",
    }
}

/// How to fix a statement that may not stand where it does.
fn place_amendment(cause: Cause) -> &'static [u8]
    ensures { result.now ≡ place_amendment cause }
{
    match cause {
        Cause::NoPhase => b"Write `.phase` before it: tasks stand behind the line of their phase.",
        Cause::CoreInUse { .. } =>
            b"Give it another core; or write `.phase` before it, if it is to start when the tasks before it have ended.",
        Cause::NoTask => b"Write it behind the line of its task, before the next `.phase`.",
        _ =>
            b"Tasks stand behind a `.phase`, each core has one task in a phase, and effects stand behind their task.",
    }
}

/// What to write in place of a word or of its operands.
fn word_amendment(fault: SourceFault, word: Option<Elsewhere>) -> &'static [u8]
    ensures { result.now ≡ word_amendment fault word }
{
    match word {
        Some(word) => instead(word),
        None => amendment(fault),
    }
}

/// What to write in place of a byte that may not stand outside of comments, by what other assemblers take it for.
fn byte_amendment(byte: u8, other: &'static [u8]) -> &'static [u8]
    ensures { result.now ≡ byte_amendment byte other.now }
{
    match byte {
        b';' => b"A line has one statement: begin a new line behind it. A comment begins with `#`.",
        b'/' => b"A comment begins with `#`: write it in place of `//` or `/*`.",
        b'%' =>
            b"There is no `%hi` and no `%lo`: `la t0, NAME` puts the address of a region or a label into a register, and `lw t1, 4(t0)` loads behind it.",
        b'+' =>
            b"There are no sums: `la t0, NAME` puts the address of a region into a register, and `lw t1, 4(t0)` loads the word 4 bytes behind it.",
        _ => other,
    }
}

/// The byte at a place; 0 where there is none.
fn byte_at(bytes: &[u8], place: usize) -> u8
    ensures { result ≡ slice_index_or bytes.now place 0 }
{
    bytes.get(place).copied().unwrap_or(0)
}

/// Whether the bytes begin with a digit.
fn begins_with_digit(bytes: &[u8]) -> bool
    ensures { result ≡ is_digit (slice_index_or bytes.now 0 0) }
{
    byte_at(bytes, 0).is_ascii_digit()
}

/// What begins with a digit and ends with b or f: other assemblers take it for the local label before or behind.
fn is_local_label(bytes: &[u8]) -> bool
    ensures { result ≡ is_local_label bytes.now }
{
    let last = byte_at(bytes, bytes.len().saturating_sub(1));
    begins_with_digit(bytes) && (last == b'b' || last == b'f')
}

/// What to write in place of what is no number.
fn number_amendment(bytes: &[u8], other: &'static [u8]) -> &'static [u8]
    ensures { result.now ≡ number_amendment bytes.now other.now }
{
    if is_local_label(bytes) {
        b"There are no local labels as `1:`: a label is a name, as `l1:`, and `j l1` jumps to it."
    } else {
        other
    }
}

/// What to write where no word of a statement stands, by what stands there.
fn no_word_amendment(bytes: &[u8]) -> &'static [u8]
    ensures { result.now ≡ no_word_amendment bytes.now }
{
    if begins_with_digit(bytes) {
        b"There are no local labels as `1:`: a label is a name, as `l1:`, and `j l1` jumps to it."
    } else {
        b"A line may begin with a label, which is a name and `:`. Then an instruction or a directive stands."
    }
}

/// How to fix a statement's word, its operands, or what stands in its place.
fn statement_amendment(fault: SourceFault, word: &[u8], cause: Cause) -> &'static [u8]
    ensures { result.now ≡ statement_amendment fault word.now cause }
{
    match cause {
        Cause::NoWord => no_word_amendment(word),
        Cause::SecondLabel => b"Write the first label on a line of its own.",
        _ => word_amendment(fault, word_elsewhere(word)),
    }
}

/// The word of the statement whose operands are wrong; otherwise the part that is wrong.
fn word_part(finding: Finding) -> Span
    ensures { result ≡ word_part finding }
{
    match finding.cause {
        Cause::Operand { word, .. } => word,
        _ => finding.part,
    }
}

/// How to fix it, by what is wrong with a part of the line, if that is known.
pub(crate) fn finding_amendment(
    fault: SourceFault,
    bytes: &[u8],
    finding: Option<Finding>,
) -> &'static [u8]
    ensures { result.now ≡ finding_amendment fault bytes.now finding }
{
    let Some(finding) = finding else {
        return amendment(fault);
    };
    let Span { start, end } = word_part(finding);
    match fault {
        SourceFault::OutOfRange { .. } => range_amendment(finding.cause),
        SourceFault::Misplaced { .. } => place_amendment(finding.cause),
        SourceFault::UnknownWord { .. } | SourceFault::BadOperand { .. } => {
            statement_amendment(fault, bytes_between(bytes, start, end), finding.cause)
        }
        SourceFault::BadByte { .. } => {
            let Span { start, end } = finding.part;
            byte_amendment(
                byte_at(bytes_between(bytes, start, end), 0),
                amendment(fault),
            )
        }
        SourceFault::BadNumber { .. } => {
            let Span { start, end } = finding.part;
            number_amendment(bytes_between(bytes, start, end), amendment(fault))
        }
        _ => amendment(fault),
    }
}
