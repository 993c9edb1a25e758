//! Theorems of completing an instruction, for proofs about machines that run tasks. A theorem is a function without effect; its
//! contract states the theorem.
ghost use Rattle.std.specs.Prelude.{◌≡◌, ℕ, ◌^◌, ◌==◌, ◌&&◌, ◌||◌, not, true, bit_or, bit_xor};
ghost use Rattle.dn_base.specs.declared.ids.WordId.{WordId};
ghost use Rattle.region_table.specs.Program.{ProgramParts};
ghost use Rattle.region_table.specs.declared.declared.TaskDecl.{TaskDecl};
ghost use Rattle.rv_core.specs.declared.task.TaskState.{TaskState};
ghost use Rattle.rv_core.specs.declared.task.End.TheVariants.{Finished};
ghost use Rattle.rv_core.specs.declared.need.Need.TheVariants.{Store, End as Ends};
ghost use Rattle.rv_core.specs.Access.{is_held};
ghost use Rattle.rv_core.specs.Need.{need_of};
ghost use Rattle.rv_core.specs.Step.{merged_of};

/// A store of all four bytes leaves the same word, whatever the word was before.
pub fn a_whole_store_leaves_the_same_over_any_word()
    ensures { (P : ProgramParts) (d : TaskDecl) (fuel : ℕ) (t : TaskState) (word : WordId) (a b : ℕ) → need_of P d fuel t ≡ Store word true
        → merged_of P a t ≡ merged_of P b t }
{}

/// After an acquire its lock is held too; after a release its lock, which was held, isn't held. All other locks stay as they
/// were.
pub fn a_call_changes_one_lock()
    ensures acquired { (held lock other : ℕ) → is_held (bit_or held (2 ^ lock)) other ≡ ((other == lock) || is_held held other) }
    ensures released { (held lock other : ℕ) → is_held held lock ≡ true → is_held (bit_xor held (2 ^ lock)) other ≡ (not (other == lock) && is_held held other) }
{}

/// A task that finishes holds no lock.
pub fn a_task_that_finishes_holds_no_lock()
    ensures { (P : ProgramParts) (d : TaskDecl) (fuel : ℕ) (t : TaskState) → need_of P d fuel t ≡ Ends Finished → t.held ≡ 0 }
{}
