//! Theorems of the changes of a cache's list, for proofs about a core's entries. A theorem is a function without effect; its
//! contract states the theorem.
ghost use Rattle.std.specs.Prelude.{◌≡◌, ◌≢◌, ℕ, ◌+◌, ◌%◌, ◌<◌, ◌≤◌, ◌==◌, ◌||◌, Bool, true, false, Some, None, List, [], if◌then◌else◌, count_by};
ghost use Rattle.std.specs.Option.{option_map, is_some};
ghost use Rattle.dn_base.specs.declared.ids.WordId.{WordId};
ghost use Rattle.region_table.specs.declared.interval.Interval.{Interval};
ghost use Rattle.write_signature.specs.declared.signature.Signature.{Signature};
ghost use Rattle.word_cache.specs.declared.row.Entry.{Entry};
ghost use Rattle.word_cache.specs.Cache.{Cache, IsCache, with_pairs, Pair, AreDifferent, lookup, without, put, changed, touched, has_room, is_stuck, victim_of, pending_count, pending_bit, dropped_written, dropped_signed, entry_after_phase, entry_after_grant};

/// The entries of words after an entry is put, changed or removed: only the entry of that word changes. A use changes no entry.
pub fn an_entry_changes_alone()
    ensures put { (word : WordId) (e : Entry) (v : ℕ) (ps : List Pair) → lookup v (put word e ps) ≡ (if word.0 == v then Some e else lookup v ps) }
    ensures without { (w v : ℕ) (ps : List Pair) → lookup v (without w ps) ≡ (if w == v then None else lookup v ps) }
    ensures changed { (w v : ℕ) (e : Entry) (ps : List Pair) → lookup v (changed w e ps) ≡ (if w == v then option_map (λ (_ : Entry). e) (lookup w ps) else lookup v ps) }
    ensures touched { (word : WordId) (v : ℕ) (ps : List Pair) → lookup v (touched word ps) ≡ lookup v ps }
{}

/// The entry of each word after a phase's end and after a grant: it depends only on that word's entry before.
pub fn each_entry_is_judged_alone()
    ensures phase { (words : List Interval) (v : ℕ) (ps : List Pair) → AreDifferent ps → lookup v (dropped_written words ps) ≡ entry_after_phase words v (lookup v ps) }
    ensures grant { (s : Signature) (phase : ℕ) (words : List Interval) (v : ℕ) (ps : List Pair) → AreDifferent ps → lookup v (dropped_signed s phase words ps) ≡ entry_after_grant s phase words v (lookup v ps) }
{}

/// The number of pending entries after each change.
pub fn pending_entries_are_counted()
    ensures put { (word : WordId) (e : Entry) (ps : List Pair) → AreDifferent ps → pending_count (put word e ps) + pending_bit (lookup word.0 ps) ≡ pending_count ps + pending_bit (Some e) }
    ensures without { (w : ℕ) (ps : List Pair) → AreDifferent ps → pending_count (without w ps) + pending_bit (lookup w ps) ≡ pending_count ps }
    ensures changed { (w : ℕ) (e : Entry) (ps : List Pair) → AreDifferent ps → pending_count (changed w e ps) + pending_bit (lookup w ps) ≡ pending_count ps + pending_bit (option_map (λ (_ : Entry). e) (lookup w ps)) }
    ensures touched { (word : WordId) (ps : List Pair) → AreDifferent ps → pending_count (touched word ps) ≡ pending_count ps }
    ensures phase { (words : List Interval) (ps : List Pair) → pending_count (dropped_written words ps) ≡ pending_count ps }
    ensures grant { (s : Signature) (phase : ℕ) (words : List Interval) (ps : List Pair) → pending_count (dropped_signed s phase words ps) ≡ pending_count ps }
    ensures some { (w : ℕ) (ps : List Pair) → pending_bit (lookup w ps) ≤ pending_count ps }
    ensures none { (ps : List Pair) → AreDifferent ps → ((w : ℕ) → pending_bit (lookup w ps) ≡ 0) → pending_count ps ≡ 0 }
{}

/// Each change leaves a cache: its pairs are of different words, and no set has more pairs than ways.
pub fn a_cache_stays_a_cache()
    ensures empty { (sets ways : ℕ) → IsCache (record { sets = sets; ways = ways; pairs = [] }) }
    ensures put { (c : Cache) (word : WordId) (e : Entry) → IsCache c → (is_some (lookup word.0 c.pairs) || has_room c word.0) ≡ true → IsCache (with_pairs c (put word e c.pairs)) }
    ensures without { (c : Cache) (w : ℕ) → IsCache c → IsCache (with_pairs c (without w c.pairs)) }
    ensures changed { (c : Cache) (w : ℕ) (e : Entry) → IsCache c → IsCache (with_pairs c (changed w e c.pairs)) }
    ensures touched { (c : Cache) (word : WordId) → IsCache c → IsCache (with_pairs c (touched word c.pairs)) }
    ensures phase { (c : Cache) (words : List Interval) → IsCache c → IsCache (with_pairs c (dropped_written words c.pairs)) }
    ensures grant { (c : Cache) (s : Signature) (phase : ℕ) (words : List Interval) → IsCache c → IsCache (with_pairs c (dropped_signed s phase words c.pairs)) }
{}

/// If a set is full and has no victim, one of its words is pending or leaving.
pub fn a_full_set_waits()
    ensures { (c : Cache) (w : ℕ) → IsCache c → 0 < c.ways → has_room c w ≡ false → victim_of c w ≡ None → (v : ℕ) × (v % c.sets ≡ w % c.sets) × (is_stuck (lookup v c.pairs) ≡ true) }
{}
