//! Theorems of the tasks that explain names as causes and as holders of locks. Their contracts state the theorems.
ghost use Rattle.std.specs.Prelude.{◌≡◌, List, Some};
ghost use Rattle.dn_base.specs.declared.status.Outcome.TheVariants.{Trapped, Stuck};
ghost use Rattle.rv_core.specs.declared.ending.TaskEnd.{TaskEnd as TaskEndOf};
ghost use Rattle.explained_answer.specs.declared.line.AnswerLine.{AnswerLine as LineOf};
ghost use Rattle.explained_answer.specs.declared.line.AnswerLine.TheVariants.{Task as TaskLine};
ghost use Rattle.explained_answer.specs.CauseLaws.{IsEndedHolder, IsStuckBy, IsTrappedBy};
ghost use Rattle.explained_answer.specs.Ended.{answer_tasks, ended_holder, cause_of};
ghost use Rattle.explained_answer.specs.Holders.{answer_grants};

/// A task that is called the cause of an answer has a line in this answer. Where the run trapped, the line says that the task
/// trapped. Where it is stuck, the line says that the task trapped or ran out of fuel, and the task holds a lock for which
/// another task of the answer waits.
pub fn a_cause_has_a_line_that_says_so()
    ensures trapped { (lines : List LineOf) (t : TaskEndOf) → cause_of Trapped lines ≡ Some t → IsTrappedBy lines t }
    ensures stuck { (lines : List LineOf) (t : TaskEndOf) → cause_of Stuck lines ≡ Some t → IsStuckBy lines t }
{}

/// A task that is said to have ended while it held a lock has a line in the answer that says that it ended, and by the grants of
/// the answer its core holds the lock for which the other task waits.
pub fn an_ended_holder_has_a_line_that_says_so()
    ensures { (lines : List LineOf) (waiting ended : TaskEndOf)
        → ended_holder (answer_grants lines) (answer_tasks lines) (TaskLine waiting) ≡ Some ended → IsEndedHolder lines waiting ended }
{}
