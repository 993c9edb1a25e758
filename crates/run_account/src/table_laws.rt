//! Theorems of the numbers of an account. A theorem is a function without effect; its contract states the theorem.
ghost use Rattle.std.specs.Prelude.{◌≡◌, ℕ, ◌<◌, ◌++◌, true, List, length, slice_get, Some};
ghost use Rattle.std.specs.List.{All};
ghost use Rattle.region_table.specs.declared.declared.Region.{Region};
ghost use Rattle.region_table.specs.Plan.{in_region};
ghost use Rattle.region_table.specs.Program.{ProgramParts, AreTiled};
ghost use Rattle.run_account.specs.declared.item.Grouping.{Grouping};
ghost use Rattle.run_account.specs.declared.item.Item.{Item};
ghost use Rattle.run_account.specs.declared.measure.Measure.{Measure};
ghost use Rattle.run_account.specs.Items.{regions_from, groups_in, count_in, items_of_measure, sum_of_groups, IsGrouped, IsRegionOf};
ghost use Rattle.run_account.specs.Tallies.{Tallies, no_tallies, tally_of, capped, with_items};

/// A number of a table is how many of the counted items are of the measure and in the group.
pub fn a_number_is_a_count()
    ensures { (P : ProgramParts) (cores : ℕ) (by : Grouping) (items : List Item) (m : Measure) (group : ℕ) → group < groups_in P cores by
        → tally_of m group (with_items (no_tallies P cores by) items) ≡ capped (count_in (regions_from 0 P.regions) by m group items) }
{}

/// If each item is in some group, the numbers of the groups add up to the number of all items.
pub fn groups_add_up()
    ensures { (regions : List ℕ) (by : Grouping) (groups : ℕ) (m : Measure) (items : List Item) → All (IsGrouped regions by groups) items
        → sum_of_groups regions by groups m items ≡ items_of_measure m items }
{}

/// Counting two lists one after the other is counting the list of both.
pub fn items_are_counted_list_by_list()
    ensures { (t : Tallies) (items more : List Item) → with_items t (items ++ more) ≡ with_items (with_items t items) more }
{}

/// If the regions tile the memory, each word is in exactly one group by region: that of the region in which it lies.
pub fn a_word_is_in_its_region()
    ensures { (regions : List Region) (end w : ℕ) → AreTiled 0 regions end → w < end → IsRegionOf regions w }
{}
