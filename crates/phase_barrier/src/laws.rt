//! Theorems of the definitions of an arrival and of the letters, for proofs about the barrier. A theorem is a function without
//! effect; its contract states the theorem.
ghost use Rattle.std.specs.Prelude.{◌≡◌, ◌≢◌, ℕ, ◌+◌, ◌<◌, ◌≤◌, ◌==◌, ◌&&◌, ◌||◌, Bool, true, false, nat_lt, if◌then◌else◌, length, slice_get, Some, count_by};
ghost use Rattle.message_net.specs.declared.message.Message.{Message};
ghost use Rattle.message_net.specs.declared.event.EventKind.TheVariants.{Arrived};
ghost use Rattle.message_net.specs.Kind.{kind_of};
ghost use Rattle.phase_barrier.specs.declared.keeper.Verdict.{Verdict};
ghost use Rattle.phase_barrier.specs.declared.keeper.Verdict.TheVariants.{Wait, Go, Halt};
ghost use Rattle.phase_barrier.specs.Barrier.{Barrier, IsBarrier, initial_barrier, all_arrived, with_arrival, in_next_phase, answer_to_all, is_over, keeper_arrives, keeper_gets, waits_in, arrived_count};
ghost use Rattle.phase_barrier.specs.Letters.{letter_count, go_count, letters, goes_to_core};

/// Counting a core changes the flag of that core alone.
pub fn a_count_marks_one_core()
    ensures flags { (k : Barrier) (core d : ℕ) (bad : Bool)
        → slice_get (with_arrival core bad k).arrived d ≡ (if (core == d) && nat_lt d (length k.arrived) then Some true else slice_get k.arrived d) }
    ensures cores { (k : Barrier) (core : ℕ) (bad : Bool) → length (with_arrival core bad k).arrived ≡ length k.arrived }
    ensures count { (k : Barrier) (core : ℕ) (bad : Bool) → slice_get k.arrived core ≡ Some false
        → arrived_count (with_arrival core bad k) ≡ arrived_count k + 1 }
{}

/// An arrival of a core that is counted already, or that isn't there, changes nothing.
pub fn a_core_is_counted_once()
    ensures { (k : Barrier) (core : ℕ) (bad : Bool) → slice_get k.arrived core ≢ Some false → keeper_arrives k core bad ≡ (k, Wait) }
{}

/// Each core waits from its arrival until all cores are told to go on or to halt.
pub fn a_core_waits_until_all_are_told()
    ensures { (k : Barrier) (core d : ℕ) (bad : Bool) → slice_get k.arrived core ≡ Some false → d < length k.arrived
        → (if waits_in d (keeper_arrives k core bad).0 then 1 else 0) + letter_count (keeper_arrives k core bad).1
        ≡ (if waits_in d k then 1 else 0) + (if core == d then 1 else 0) }
{}

/// When a new core arrives, the phase moves on exactly at Go, and it is noted whether the core was bad.
pub fn an_arrival_goes_on_at_go_alone()
    ensures phase { (k : Barrier) (core : ℕ) (bad : Bool) → slice_get k.arrived core ≡ Some false
        → (keeper_arrives k core bad).0.phase ≡ k.phase + go_count (keeper_arrives k core bad).1 }
    ensures bad { (k : Barrier) (core : ℕ) (bad : Bool) → slice_get k.arrived core ≡ Some false
        → (keeper_arrives k core bad).0.bad ≡ (k.bad || bad) }
{}

/// No message changes the numbers of phases and cores, and only an arrival changes anything.
pub fn only_arrivals_count()
    ensures other { (k : Barrier) (m : Message) → kind_of m ≢ Arrived → keeper_gets k m ≡ (k, Wait) }
    ensures phases { (k : Barrier) (m : Message) → (keeper_gets k m).0.phases ≡ k.phases }
    ensures cores { (k : Barrier) (m : Message) → length (keeper_gets k m).0.arrived ≡ length k.arrived }
{}

/// A machine's keeper stays one: the current phase is one of the program's, and all have arrived only if the run is over.
pub fn a_keeper_stays_the_machines()
    ensures initial { (cores phases : ℕ) → 1 ≤ cores → IsBarrier (initial_barrier cores phases) }
    ensures kept { (k : Barrier) (m : Message) → IsBarrier k → IsBarrier (keeper_gets k m).0 }
{}

/// A verdict other than Wait has exactly one letter for each core of the machine, and none for any other core. Wait has none.
pub fn each_core_is_told_once()
    ensures own { (cores d : ℕ) (verdict : Verdict) → d < cores → count_by (goes_to_core d) (letters cores verdict) ≡ letter_count verdict }
    ensures other { (cores d : ℕ) (verdict : Verdict) → cores ≤ d → count_by (goes_to_core d) (letters cores verdict) ≡ 0 }
{}

/// A new core waits while another core hasn't arrived.
pub fn a_new_core_waits_for_the_others()
    ensures { (k : Barrier) (core d : ℕ) (bad : Bool) → slice_get k.arrived core ≡ Some false → d ≢ core
        → slice_get k.arrived d ≡ Some false → keeper_arrives k core bad ≡ (with_arrival core bad k, Wait) }
{}

/// The arrival of the last core that was missing gets Go or Halt.
pub fn the_last_core_releases_all()
    ensures { (k : Barrier) (core : ℕ) (bad : Bool) → slice_get k.arrived core ≡ Some false
        → ((d : ℕ) → d ≢ core → slice_get k.arrived d ≢ Some false) → keeper_arrives k core bad ≡ answer_to_all (with_arrival core bad k) }
{}

/// After Go the phase is one of the program's, and nobody has arrived in it.
pub fn nobody_has_arrived_after_go()
    ensures phase { (k : Barrier) → is_over k ≡ false → (in_next_phase k).phase < k.phases }
    ensures flags { (k : Barrier) (d : ℕ) → d < length k.arrived → slice_get (in_next_phase k).arrived d ≡ Some false }
    ensures cores { (k : Barrier) → length (in_next_phase k).arrived ≡ length k.arrived }
{}

/// When every core has arrived, as after Halt, an arrival changes nothing and gets Wait.
pub fn a_full_barrier_stays()
    ensures { (k : Barrier) (core : ℕ) (bad : Bool) → all_arrived k ≡ true → keeper_arrives k core bad ≡ (k, Wait) }
{}
