//! Theorems: the reference machine does exactly what the interleaving machine does, and so does the machine. A theorem is a function
//! without effect; its contract states the theorem.
ghost use Rattle.std.specs.Prelude.{◌≡◌, ◌↔◌, ℕ, List, Some};
ghost use Rattle.dn_base.specs.declared.ids.Grant.{Grant};
ghost use Rattle.region_table.specs.Program.{ProgramParts};
ghost use Rattle.effect_checker.specs.Checked.{IsChecked};
ghost use Rattle.flat_machine.specs.declared.ending.FlatEnd.{FlatEnd};
ghost use Rattle.flat_machine.specs.Ending.{flat_end};
ghost use Rattle.flat_machine.specs.Laws.{AreCoresRising};
ghost use Rattle.registration_protocol.specs.Node.{Setting};
ghost use Rattle.machine_rules.specs.Sound.{IsReady};
ghost use Rattle.run_agreement.specs.Interleaving.{IsInterleaving};
ghost use Rattle.run_agreement.specs.Reached.{HasRunBy};

/// The reference machine runs a task from one acquire to the next without interruption. Nothing is lost by this: it has a run by a list
/// of grants with an end exactly if the instructions of the tasks, interleaved in some order, take the locks in the order of the list and
/// have that end.
pub fn the_flat_machine_does_exactly_what_interleavings_do()
    ensures { (P : ProgramParts) (fuel : ℕ) (gs : List Grant) (e : FlatEnd) → AreCoresRising P → IsChecked P → (flat_end P fuel gs ≡ Some e) ↔ IsInterleaving P fuel gs e }
{}

/// The machine with its caches, banks and messages does exactly what interleavings of instructions on one memory do: by a list of grants
/// it has a complete run with an end exactly if an interleaving takes the locks in the order of the list and has that end.
pub fn the_machine_does_exactly_what_interleavings_do()
    ensures { (C : Setting) (gs : List Grant) (e : FlatEnd) → IsReady C → IsInterleaving C.program C.fuel gs e ↔ HasRunBy C gs e }
{}
