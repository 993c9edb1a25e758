//! Theorems of the histories of a bank, of the barrier controller and of a port, for proofs about a hall. A theorem is a function
//! without effect; its contract states the theorem.
ghost use Rattle.std.specs.Prelude.{◌≡◌, ◌≤◌, ◌<◌, ◌^◌, ◌+◌, ◌*◌, ℕ, List, length, filter_map, map, sum_by, All};
ghost use Rattle.message_net.specs.declared.actor.Actor.TheVariants.{Keeper};
ghost use Rattle.turn_lock.specs.History.{Legal};
ghost use Rattle.grant_log.specs.declared.posted.Posted.{Posted};
ghost use Rattle.bank_hall.specs.declared.bank.Handled.{Handled};
ghost use Rattle.bank_hall.specs.Note.{KeeperNote};
ghost use Rattle.bank_hall.specs.Banks.{BankState, bank_actor};
ghost use Rattle.bank_hall.specs.Keepers.{KeeperState};
ghost use Rattle.bank_hall.specs.Halls.{BankEntry, PortEntry, KeeperEntry, bank_answer, bank_next, port_answer, port_next, keeper_answer, keeper_next};
ghost use Rattle.bank_hall.specs.Handlings.{Handling, AreStamped, BankGoes, bank_alone, bank_handlings, bank_put, bank_told, KeeperGoes, keeper_alone, keeper_handlings, keeper_put, keeper_told, port_put, port_took};

/// A bank handles messages one after the other, and its history tells of exactly these. Each message that was in its inbox or was
/// put there is handled or still there; this is said as a sum of weights, for any weights.
pub fn a_bank_handles_its_mails()
    ensures goes { (x y : BankState) (h : List BankEntry) → Legal bank_answer bank_next x h y
        → BankGoes (bank_alone x) (bank_handlings x h) (bank_alone y) }
    ensures told { (x y : BankState) (h : List BankEntry) → Legal bank_answer bank_next x h y
        → filter_map (λ e. bank_told e.output) h ≡ map (λ g. g.told) (bank_handlings x h) }
    ensures mails { (f : Posted → ℕ) (x y : BankState) (h : List BankEntry) → Legal bank_answer bank_next x h y
        → sum_by f x.inbox + sum_by f (filter_map (λ e. bank_put e.input) h)
        ≡ sum_by (λ g. f g.mail) (bank_handlings x h) + sum_by f y.inbox }
{}

/// The stamps of a bank's handlings rise. They are greater than its clock and the stamps of the messages, and at most 2^63. The
/// messages that it sends are numbered from its next number on, at most one for each message that it handles.
pub fn a_banks_stamps_rise()
    ensures stamps { (x y : BankState) (hs : List (Handling Handled)) → BankGoes x hs y
        → AreStamped (λ (t : Handled). t.stamped) (bank_actor x.bank) x.clock hs }
    ensures actor { (x y : BankState) (hs : List (Handling Handled)) → BankGoes x hs y → bank_actor y.bank ≡ bank_actor x.bank }
    ensures numbers { (x y : BankState) (hs : List (Handling Handled)) → BankGoes x hs y
        → (x.next ≤ y.next) × (y.next ≤ x.next + length hs) }
{}

/// The same for the barrier controller.
pub fn a_keeper_handles_its_mails()
    ensures goes { (x y : KeeperState) (h : List KeeperEntry) → Legal keeper_answer keeper_next x h y
        → KeeperGoes (keeper_alone x) (keeper_handlings x h) (keeper_alone y) }
    ensures told { (x y : KeeperState) (h : List KeeperEntry) → Legal keeper_answer keeper_next x h y
        → filter_map (λ e. keeper_told e.output) h ≡ map (λ g. g.told) (keeper_handlings x h) }
    ensures mails { (f : Posted → ℕ) (x y : KeeperState) (h : List KeeperEntry) → Legal keeper_answer keeper_next x h y
        → sum_by f x.inbox + sum_by f (filter_map (λ e. keeper_put e.input) h)
        ≡ sum_by (λ g. f g.mail) (keeper_handlings x h) + sum_by f y.inbox }
{}

/// The stamps of the barrier controller's handlings rise. They are greater than its clock and the stamps of the messages, and at
/// most 2^63. For each message that it handles it has at most one letter for each core.
pub fn the_keepers_stamps_rise()
    ensures stamps { (x y : KeeperState) (hs : List (Handling KeeperNote)) → KeeperGoes x hs y
        → AreStamped (λ (t : KeeperNote). t.stamped) Keeper x.clock hs }
    ensures numbers { (x y : KeeperState) (hs : List (Handling KeeperNote)) → KeeperGoes x hs y
        → (x.next ≤ y.next) × (y.next ≤ x.next + length x.keeper.arrived * length hs) }
{}

/// Each message that was in a port's inbox or was put there is taken or still there, as a sum of weights, for any weights. Each
/// message that was taken has a stamp below 2^63.
pub fn a_port_loses_no_mail()
    ensures mails { (f : Posted → ℕ) (x y : List Posted) (h : List PortEntry) → Legal port_answer port_next x h y
        → sum_by f x + sum_by f (filter_map (λ e. port_put e.input) h) ≡ sum_by f (filter_map (λ e. port_took e.output) h) + sum_by f y }
    ensures early { (x y : List Posted) (h : List PortEntry) → Legal port_answer port_next x h y
        → All (λ p. p.stamp < 2 ^ 63) (filter_map (λ e. port_took e.output) h) }
{}
