//! What C keeps of a machine: a pointer.
ghost use Rattle.std.specs.Prelude.{◌≡◌, Option, Some, None};
ghost use Rattle.std.specs.Option.{MatchOption};
ghost use Rattle.std.specs.Coded.{coded_option};
ghost use Rattle.dn_machine.specs.Kept.{Made};
ghost use Rattle.dn_machine.specs.contracts.machine.Machine.{the_row};

use crate::loose::Loose;
use dn_machine::Machine;
use std::alloc::Global;
use std::marker::Model;
use std::mem::replace;
use std::ptr::null_mut;

/// What C sees of what a handle points to.
#[repr(C)]
pub struct Opaque {
    byte: u8,
}

/// A machine that C keeps, or none. In C it is a struct of one pointer, and none is the null pointer.
#[repr(C)]
#[derive(Drop)]
pub struct Handle {
    at: *mut Opaque,
    alloc: Global,
    pub ghost machine: { Option Made } by { coded_option the_row.coded },
}

impl Model for Handle {
    ghost use Rattle.denovo_c.specs.HeldMachines.{box_held};
    ghost use Rattle.dn_machine.specs.contracts.machine.Machine.{the_row};

    ghost also_owns = { λ h. box_held the_row h.alloc h.at h.machine };
}

impl Handle {
    /// A handle without a machine.
    fn without_machine(alloc: Global) -> Handle
        ensures { result.machine ≡ None }
    {
        Handle {
            at: null_mut(),
            alloc,
        }
    }

    /// A handle of the machine behind this pointer.
    fn of_loose(value: Loose<Machine, Global>) -> Handle
        ensures { result.machine ≡ Some value.value }
    {
        let Loose { at, alloc } = value;
        Handle {
            at: at as *mut Opaque,
            alloc,
        }
    }

    /// The pointer to the machine, if there is one.
    fn into_loose(self) -> Option<Loose<Machine, Global>>
        ensures { MatchOption result (self.machine ≡ None) (λ l. self.machine ≡ Some l.value) }
    {
        let Handle { at, alloc } = self;
        if at.is_null() {
            None
        } else {
            Some(Loose {
                at: at as *mut Machine,
                alloc,
            })
        }
    }

    /// Puts this machine behind the handle, which has none.
    pub(crate) fn put(&mut self, value: Box<Machine>)
        ensures { self.new.machine ≡ Some value.value }
    {
        *self = Handle::of_loose(Loose::of(value));
    }

    /// Takes the machine from behind the handle, if there is one.
    pub(crate) fn take(&mut self, alloc: Global) -> Option<Box<Machine>>
        ensures rest { self.new.machine ≡ None }
        ensures taken { MatchOption result (self.old.machine ≡ None) (λ b. self.old.machine ≡ Some b.value) }
    {
        match replace(self, Handle::without_machine(alloc)).into_loose() {
            Some(loose) => Some(loose.into_box()),
            None => None,
        }
    }
}
