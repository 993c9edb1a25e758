//! Theorems of diagnoses. A theorem is a function without effect; its contract states the theorem.
ghost use Rattle.std.specs.Prelude.{◌≡◌, ◌<◌, ◌≤◌, ◌↔◌, ℕ, List, ◌∷◌, ◌++◌, Option, Some, None, Ok, length, take, count_by};
ghost use Rattle.std.specs.List.{All, IsAmong};
ghost use Rattle.dn_base.specs.declared.ids.Grant.{Grant as GrantOf};
ghost use Rattle.dn_base.specs.declared.ids.LoadSeen.{LoadSeen as LoadOf};
ghost use Rattle.region_table.specs.Program.{ProgramParts};
ghost use Rattle.rv_assembler.specs.Source.{source};
ghost use Rattle.flat_machine.specs.declared.accesses.AccessKind.TheVariants as kind;
ghost use Rattle.flat_machine.specs.declared.accesses.FlatAccess.{FlatAccess as AccessOf};
ghost use Rattle.flat_machine.specs.declared.accesses.FlatAction.{FlatAction as ActionOf};
ghost use Rattle.flat_machine.specs.declared.accesses.FlatAction.TheVariants.{Accesses as DoesAccess};
ghost use Rattle.flat_machine.specs.declared.ending.TaskLoads.{TaskLoads as LoadsOf};
ghost use Rattle.flat_machine.specs.declared.faults.GrantFault.{GrantFault as FaultOf};
ghost use Rattle.flat_machine.specs.Accesses.{actions_so_far};
ghost use Rattle.claims.specs.declared.claim.Claim.{Claim as ClaimOf};
ghost use Rattle.claims.specs.declared.diagnosis.Diagnosis.TheVariants as says;
ghost use Rattle.claims.specs.declared.diagnosis.WrongLoad.{WrongLoad as WrongLoadOf};
ghost use Rattle.claims.specs.declared.verdict.LoadPlace.{LoadPlace as PlaceOf};
ghost use Rattle.claims.specs.declared.verdict.Verdict.TheVariants as differs;
ghost use Rattle.claims.specs.Judge.{IsVerdict};
ghost use Rattle.claims.specs.Diagnosis.{earliest_wrong, is_take, last_store, loads_claimed, IsDiagnosis};
ghost use Rattle.claims.specs.DiagnosisLaws.{IsEarliest, IsLastStore, StoresElsewhere, IsClaimedAsMade, IsFirstToDiffer, IsIllegalAt, IsLegalNotMaximal, IsReasonAt, IsSaidUnfinished, IsLoadAt, HasLine};

/// The earliest wrong load is a load of the thread that is claimed wrongly, and each load that the thread makes before it is
/// claimed as it is.
pub fn the_earliest_wrong_load_is_the_first()
    ensures { (claimed : List LoadsOf) (actions : List ActionOf) (place : ℕ) → earliest_wrong claimed actions ≡ Some place → IsEarliest claimed actions place }
{}

/// Between the last store to a word and the load, nothing is stored to the word. If there is none, nothing was stored to it
/// before.
pub fn no_store_comes_between()
    ensures stored { (word : ℕ) (before : List ActionOf) (store : AccessOf) → last_store word before ≡ Some store → IsLastStore word before store }
    ensures never { (word : ℕ) (before : List ActionOf) → last_store word before ≡ None → All (StoresElsewhere word) before }
{}

/// The load that a diagnosis names is among the actions of the one thread that takes the claimed grants. It differs from the
/// claim, and no earlier load of the thread does (`named`); the grants that were taken before it, and the last store to its word,
/// are those of the thread. If no load is named, each load of the thread is claimed as made (`none`).
pub fn the_named_load_is_the_first_that_differs()
    ensures named { (P : ProgramParts) (c : ClaimOf) (place : PlaceOf) (right : Option LoadOf) (w : WrongLoadOf) → IsDiagnosis P c (differs.Load place right) (says.Load (Some w))
        → IsFirstToDiffer (loads_claimed c.loads) (actions_so_far P c.question.fuel c.grants) w }
    ensures none { (P : ProgramParts) (c : ClaimOf) (place : PlaceOf) (right : Option LoadOf) → IsDiagnosis P c (differs.Load place right) (says.Load None)
        → All (IsClaimedAsMade (loads_claimed c.loads)) (actions_so_far P c.question.fuel c.grants) }
{}

/// A grant is at fault exactly if it isn't legal there: the grants before it are, and with it they aren't (`illegal`). The number
/// after the last grant is given exactly if the list is legal, but not maximal (`short`). No other number is given (`within`).
pub fn a_grant_is_at_fault_where_it_is_not_legal()
    ensures illegal { (P : ProgramParts) (c : ClaimOf) (place : ℕ) → place < length c.grants
        → IsVerdict P c (differs.Grants place) ↔ IsIllegalAt P c.question.fuel c.grants place }
    ensures short { (P : ProgramParts) (c : ClaimOf) → IsVerdict P c (differs.Grants (length c.grants)) ↔ IsLegalNotMaximal P c.question.fuel c.grants }
    ensures within { (P : ProgramParts) (c : ClaimOf) (place : ℕ) → IsVerdict P c (differs.Grants place) → place ≤ length c.grants }
{}

/// Of a grant that isn't legal a reason is given, which is true of it where it stands, and isn't that the list is unfinished
/// (`illegal`). A list is said to be unfinished if it is legal but not maximal: it is legal with a grant of the named lock to the
/// named core (`short`).
pub fn the_reason_against_a_grant_is_true()
    ensures illegal { (P : ProgramParts) (c : ClaimOf) (place : ℕ) (fault : Option FaultOf) → IsDiagnosis P c (differs.Grants place) (says.Grants fault)
        → IsIllegalAt P c.question.fuel c.grants place → IsReasonAt P c.question.fuel c.grants place fault }
    ensures short { (P : ProgramParts) (c : ClaimOf) (place : ℕ) (fault : Option FaultOf) → IsDiagnosis P c (differs.Grants place) (says.Grants fault)
        → IsLegalNotMaximal P c.question.fuel c.grants → IsSaidUnfinished P c.question.fuel c.grants fault }
{}

/// A load of the thread is made by the interleaving machine too: moves from its start that take the grants which the thread took
/// before the load, in their order, lead to a state in which the next instruction of the load's task is a load of that word, at the
/// load's address, and reads the load's value (`loads`). So is the load that a diagnosis names, after as many grants as it says
/// (`named`). In a text of the program the place of the instruction is the line that gives it (`line`).
pub fn a_load_is_made_by_the_load_of_its_line()
    ensures loads { (P : ProgramParts) (fuel : ℕ) (gs : List GrantOf) (before behind : List ActionOf) (a : AccessOf) → actions_so_far P fuel gs ≡ before ++ DoesAccess a ∷ behind → a.kind ≡ kind.Load
        → IsLoadAt P fuel (take (count_by is_take before) gs) a }
    ensures named { (P : ProgramParts) (c : ClaimOf) (place : PlaceOf) (right : Option LoadOf) (w : WrongLoadOf) → IsDiagnosis P c (differs.Load place right) (says.Load (Some w))
        → IsLoadAt P c.question.fuel (take w.grants c.grants) w.load }
    ensures line { (text : List ℕ) (P : ProgramParts) (fuel : ℕ) (gs : List GrantOf) (a : AccessOf) → source text ≡ Ok P → IsAmong (actions_so_far P fuel gs) (DoesAccess a)
        → a.kind ≡ kind.Load → HasLine text P a.pc }
{}
