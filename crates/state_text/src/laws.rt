//! Theorems: what holds of every answer for readers. A theorem is a function without effect; its contract states the theorem.
ghost use Rattle.std.specs.Prelude.{◌≡◌, ℕ, List, length, flat_map, Some, slice_get};
ghost use Rattle.region_table.specs.declared.declared.Region.{Region};
ghost use Rattle.region_table.specs.Program.{AreTiled};
ghost use Rattle.state_text.specs.ForReaders.{words_under};
ghost use Rattle.state_text.specs.Words.{IsUnderItsRegion};

/// If the regions are adjacent and cover the memory, the words under them, one region after the other, are the words of the memory: each
/// stands there exactly once, in order. And each stands under the region that has it, at its index there.
pub fn each_data_word_stands_under_its_region()
    ensures once { (regions : List Region) (memory : List ℕ) → AreTiled 0 regions (length memory) → flat_map (words_under memory) regions ≡ memory }
    ensures place { (regions : List Region) (memory : List ℕ) (word value : ℕ) → AreTiled 0 regions (length memory) → slice_get memory word ≡ Some value → IsUnderItsRegion regions memory word value }
{}
