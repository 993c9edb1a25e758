ghost use Rattle.std.specs.Prelude.{◌≡◌, ◌-◌, length, map, slice_index};
ghost use Rattle.src_text.specs.Register.{register_of, register_rows};
ghost use Rattle.src_text.specs.RegisterName.{register_row_of, rows_ending_in};

/// A name of a register, and the register's number.
type RegisterName = (&'static [u8], u8);

// The names by their last byte. At most eight share one, so a look-up compares few.

const IN_0: &[RegisterName] = &[
    (b"x0", 0),
    (b"x10", 10),
    (b"x20", 20),
    (b"x30", 30),
    (b"t0", 5),
    (b"s0", 8),
    (b"a0", 10),
    (b"s10", 26),
];

const IN_1: &[RegisterName] = &[
    (b"x1", 1),
    (b"x11", 11),
    (b"x21", 21),
    (b"x31", 31),
    (b"t1", 6),
    (b"s1", 9),
    (b"a1", 11),
    (b"s11", 27),
];

const IN_2: &[RegisterName] = &[
    (b"x2", 2),
    (b"x12", 12),
    (b"x22", 22),
    (b"t2", 7),
    (b"a2", 12),
    (b"s2", 18),
];

const IN_3: &[RegisterName] = &[
    (b"x3", 3),
    (b"x13", 13),
    (b"x23", 23),
    (b"a3", 13),
    (b"s3", 19),
    (b"t3", 28),
];

const IN_4: &[RegisterName] = &[
    (b"x4", 4),
    (b"x14", 14),
    (b"x24", 24),
    (b"a4", 14),
    (b"s4", 20),
    (b"t4", 29),
];

const IN_5: &[RegisterName] = &[
    (b"x5", 5),
    (b"x15", 15),
    (b"x25", 25),
    (b"a5", 15),
    (b"s5", 21),
    (b"t5", 30),
];

const IN_6: &[RegisterName] = &[
    (b"x6", 6),
    (b"x16", 16),
    (b"x26", 26),
    (b"a6", 16),
    (b"s6", 22),
    (b"t6", 31),
];

const IN_7: &[RegisterName] = &[
    (b"x7", 7),
    (b"x17", 17),
    (b"x27", 27),
    (b"a7", 17),
    (b"s7", 23),
];

const IN_8: &[RegisterName] = &[(b"x8", 8), (b"x18", 18), (b"x28", 28), (b"s8", 24)];

const IN_9: &[RegisterName] = &[(b"x9", 9), (b"x19", 19), (b"x29", 29), (b"s9", 25)];

const IN_A: &[RegisterName] = &[(b"ra", 1)];

const IN_O: &[RegisterName] = &[(b"zero", 0)];

const IN_P: &[RegisterName] = &[(b"sp", 2), (b"gp", 3), (b"tp", 4), (b"fp", 8)];

/// The names that end in this byte.
fn names_ending_in(last: u8) -> &'static [RegisterName]
    ensures { map register_row_of result.now ≡ rows_ending_in last }
{
    match last {
        b'0' => IN_0,
        b'1' => IN_1,
        b'2' => IN_2,
        b'3' => IN_3,
        b'4' => IN_4,
        b'5' => IN_5,
        b'6' => IN_6,
        b'7' => IN_7,
        b'8' => IN_8,
        b'9' => IN_9,
        b'a' => IN_A,
        b'o' => IN_O,
        b'p' => IN_P,
        _ => &[],
    }
}

/// The last byte of a name; 0 where it has none.
fn last_byte(name: &[u8]) -> u8
    ensures { result ≡ slice_index name.now (length name.now - 1) }
{
    name.last().copied().unwrap_or(0)
}

/// The number of the register with this name, from 0 to 31; None for any other name. The names are `x0` to `x31` without
/// leading zeros, and those of the RISC-V calling convention (ABI), such as `zero`, `a0` and `fp`. Takes no memory.
pub fn register(name: &[u8]) -> Option<u8>
    ensures { result ≡ register_of name.now }
{
    for (known, number) in names_ending_in(last_byte(name)) {
        if *known == name {
            return Some(*number);
        }
    }
    None
}
