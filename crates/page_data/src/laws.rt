//! What holds of the data of every run. A theorem is a function without effect; its contract states the theorem.
ghost use Rattle.std.specs.Prelude.{◌≡◌, List};
ghost use Rattle.region_table.specs.declared.declared.Phase.{Phase};
ghost use Rattle.page_data.specs.Json.{list_text};
ghost use Rattle.page_data.specs.Data.{effects_list, numbered_item, numbered_tasks};

/// What tasks declare is one list with an item for each task, phase by phase.
pub fn each_task_declares_one_item()
    ensures { (phases : List Phase) → effects_list phases ≡ list_text numbered_item (numbered_tasks 0 phases) }
{}
