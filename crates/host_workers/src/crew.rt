use crate::owned::Owned;
use dn_base::BankId;
use grant_log::Stamped;

/// A bank that a worker owns, with the notes of the bank's events.
#[derive(Drop)]
pub struct BankLog {
    pub bank: BankId,
    pub log: Vec<Stamped>,
}

/// What one worker owns: some cores and some banks, each in rising order. Worker 0 also has the notes of the barrier controller's
/// events.
#[derive(Drop)]
pub struct Crew {
    pub worker: u32,
    pub cores: Vec<Owned>,
    pub banks: Vec<BankLog>,
    pub keeper: Option<Vec<Stamped>>,
}
