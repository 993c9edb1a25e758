//! That the plans of phases have one form.
ghost use Rattle.std.specs.List.{All};
ghost use Rattle.region_table.specs.Words.{IsCanonical};
ghost use Rattle.dn_machine.specs.Plans.{AreInOneForm, IsInOneForm};

use region_table::{PhasePlan, WordSet};

/// Each of these sets is the one list of intervals that has its words.
fn sets_have_one_form(sets: &[WordSet])
    ensures { All IsCanonical sets.now }
{
    for set in sets {
        // for the proof alone: the call says that the intervals of the set are canonical
        let _intervals = set.intervals();
    }
}

/// Each set of a plan is the one list of intervals that has its words.
fn plan_has_one_form(plan: &PhasePlan)
    ensures { IsInOneForm plan.now }
{
    // for the proof alone: the intervals of each set of the plan are canonical
    let _written = plan.written.intervals();
    sets_have_one_form(plan.guarded.as_slice());
}

/// The same of each of these plans. It looks at each set, and takes no memory.
pub(crate) fn plans_have_one_form(plans: &[PhasePlan])
    ensures { AreInOneForm plans.now }
{
    for plan in plans {
        plan_has_one_form(plan);
    }
}
