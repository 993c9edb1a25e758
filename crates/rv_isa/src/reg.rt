ghost use Rattle.std.specs.Prelude.{◌≡◌, ℕ, ◌^◌, ◌<◌, ◌↔◌, IsSome, IfSome};

use std::marker::Model;

/// The number of an integer register, x0 to x31.
#[derive(Clone, Copy, PartialEq, Eq)]
pub struct Reg {
    number: u8,
}

impl Model for Reg {
    ghost Value = { ℕ };

    ghost view = { λ r. r.number };

    ghost invariant = { λ r. r.number < 32 };

    ghost inverse = { λ n. record { number = n } };
}

impl Reg {
    /// The register of this number, or `None` where the number is 32 or more.
    pub fn new(number: u8) -> Option<Reg>
        ensures some { IsSome result ↔ (number < 32) }
        ensures value { IfSome result (λ r. r ≡ number) }
    {
        if number < 32 {
            Some(Reg { number })
        } else {
            None
        }
    }

    /// The number of the register, from 0 to 31.
    pub fn number(&self) -> u8
        ensures value { result ≡ self.now }
        ensures below { result < 32 }
    {
        self.number
    }

    /// The register that a field of five bits names.
    pub(crate) fn of_field(field: u32) -> Reg
        requires { field < 2 ^ 5 }
        ensures { result ≡ field }
    {
        Reg {
            number: field as u8,
        }
    }
}
