//! Theorems of what is written. A theorem is a function without effect; its contract states the theorem.
ghost use Rattle.std.specs.Prelude.{ℕ, List};
ghost use Rattle.program_outside.specs.Serving.{IsEnough};
ghost use Rattle.explain_top.specs.Answers.{IsOutput};

/// What answers as many bytes as are read at most answers every text that begins with them.
pub fn the_bytes_that_are_read_are_enough()
    ensures { (text : List ℕ) → IsEnough (IsOutput text) 536870913 }
{}
