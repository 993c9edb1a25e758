ghost use Rattle.std.specs.Prelude.{◌≡◌, slice_get};
ghost use Rattle.run_account.specs.declared.list_row.ListRow.TheVariants.{Pair};
ghost use Rattle.run_account.specs.Names.{measure_word, all_measures, list_measures, list_rows, row_word, grouping_word, region_name};

use crate::list_row::ListRow;
use crate::{Grouping, Measure};
use region_table::Region;

/// The measures of an account in the order in which they are printed.
#[tactic(auto, unfolding(crate::specs::Names::all_measures))]
pub(crate) fn measures() -> [Measure; 26]
    ensures { result ≡ all_measures }
{
    [
        Measure::Loads,
        Measure::Stores,
        Measure::LoadsLocal,
        Measure::StoresSilent,
        Measure::Registers,
        Measure::Misses,
        Measure::MissesFirst,
        Measure::MissesPhase,
        Measure::MissesLock,
        Measure::MissesEvicted,
        Measure::MissesTaken,
        Measure::DroppedPhase,
        Measure::DroppedLock,
        Measure::DroppedPhaseCurrent,
        Measure::DroppedLockCurrent,
        Measure::KeptTouched,
        Measure::KeptSignature,
        Measure::UntoldCopies,
        Measure::Taken,
        Measure::RepliesHome,
        Measure::RepliesCore,
        Measure::Bounces,
        Measure::EvictedCopies,
        Measure::EvictedRegistered,
        Measure::GrantsAtOnce,
        Measure::GrantsQueued,
    ]
}

/// The measures of a run beside lists of sharers.
#[tactic(auto, unfolding(crate::specs::Names::list_measures))]
pub(crate) fn measures_beside_lists() -> [Measure; 17]
    ensures { result ≡ list_measures }
{
    [
        Measure::Messages,
        Measure::WaitsRead,
        Measure::WaitsWrite,
        Measure::ListMessages,
        Measure::ListReadRequests,
        Measure::ListWriteRequests,
        Measure::ListForwards,
        Measure::ListReplies,
        Measure::ListInvalidations,
        Measure::ListAcknowledgements,
        Measure::ListPutBacks,
        Measure::ListPutShares,
        Measure::ListPutAcks,
        Measure::ListWaitsRead,
        Measure::ListWaitsWrite,
        Measure::WaitsHereAlone,
        Measure::WaitsListAlone,
    ]
}

/// A measure of the run beside the same with lists.
fn pair(here: Measure, lists: Measure) -> ListRow
    ensures { result ≡ Pair here lists }
{
    ListRow::Pair { here, lists }
}

/// The rows of the table of a run beside lists.
#[tactic(auto, unfolding(crate::specs::Names::list_rows))]
pub(crate) fn rows_beside_lists() -> [ListRow; 14]
    ensures { result ≡ list_rows }
{
    [
        pair(Measure::Messages, Measure::ListMessages),
        pair(Measure::WaitsRead, Measure::ListWaitsRead),
        pair(Measure::WaitsWrite, Measure::ListWaitsWrite),
        ListRow::Single(Measure::ListReadRequests),
        ListRow::Single(Measure::ListWriteRequests),
        ListRow::Single(Measure::ListForwards),
        ListRow::Single(Measure::ListReplies),
        ListRow::Single(Measure::ListInvalidations),
        ListRow::Single(Measure::ListAcknowledgements),
        ListRow::Single(Measure::ListPutBacks),
        ListRow::Single(Measure::ListPutShares),
        ListRow::Single(Measure::ListPutAcks),
        ListRow::Single(Measure::WaitsHereAlone),
        ListRow::Single(Measure::WaitsListAlone),
    ]
}

/// What a row is called.
pub(crate) fn row_name(row: ListRow) -> &'static [u8]
    ensures { result.now ≡ row_word row }
{
    match row {
        ListRow::Pair { here, .. } => measure_name(here),
        ListRow::Single(measure) => measure_name(measure),
    }
}

/// The word for a measure.
pub(crate) fn measure_name(measure: Measure) -> &'static [u8]
    ensures { result.now ≡ measure_word measure }
{
    match measure {
        Measure::Loads => b"loads",
        Measure::Stores => b"stores",
        Measure::LoadsLocal => b"loads-local",
        Measure::StoresSilent => b"stores-silent",
        Measure::Registers => b"registers",
        Measure::Misses => b"misses",
        Measure::MissesFirst => b"misses-first",
        Measure::MissesPhase => b"misses-phase",
        Measure::MissesLock => b"misses-lock",
        Measure::MissesEvicted => b"misses-evicted",
        Measure::MissesTaken => b"misses-taken",
        Measure::DroppedPhase => b"dropped-phase",
        Measure::DroppedLock => b"dropped-lock",
        Measure::DroppedPhaseCurrent => b"dropped-phase-current",
        Measure::DroppedLockCurrent => b"dropped-lock-current",
        Measure::KeptTouched => b"kept-touched",
        Measure::KeptSignature => b"kept-signature",
        Measure::UntoldCopies => b"untold-copies",
        Measure::Taken => b"taken",
        Measure::RepliesHome => b"replies-home",
        Measure::RepliesCore => b"replies-core",
        Measure::Bounces => b"bounces",
        Measure::EvictedCopies => b"evicted-copies",
        Measure::EvictedRegistered => b"evicted-registered",
        Measure::GrantsAtOnce => b"grants-at-once",
        Measure::GrantsQueued => b"grants-queued",
        Measure::Messages => b"messages",
        Measure::WaitsRead => b"waits-read",
        Measure::WaitsWrite => b"waits-write",
        Measure::ListMessages => b"list-messages",
        Measure::ListReadRequests => b"list-read-requests",
        Measure::ListWriteRequests => b"list-write-requests",
        Measure::ListForwards => b"list-forwards",
        Measure::ListReplies => b"list-replies",
        Measure::ListInvalidations => b"list-invalidations",
        Measure::ListAcknowledgements => b"list-acknowledgements",
        Measure::ListPutBacks => b"list-put-backs",
        Measure::ListPutShares => b"list-put-shares",
        Measure::ListPutAcks => b"list-put-acks",
        Measure::ListWaitsRead => b"list-waits-read",
        Measure::ListWaitsWrite => b"list-waits-write",
        Measure::WaitsHereAlone => b"waits-here-alone",
        Measure::WaitsListAlone => b"waits-list-alone",
        Measure::ReadReqs => b"read-req",
        Measure::ReadFwds => b"read-fwd",
        Measure::DataReplies => b"data-reply",
        Measure::RegReqs => b"reg-req",
        Measure::RegFwds => b"reg-fwd",
        Measure::RegAcks => b"reg-ack",
        Measure::WriteBacks => b"write-back",
        Measure::WbAcks => b"wb-ack",
        Measure::Acquires => b"acquire",
        Measure::Releases => b"release",
        Measure::Grants => b"grant",
        Measure::Arrivals => b"arrived",
        Measure::Gos => b"go",
        Measure::Halts => b"halt",
        Measure::ListReplyValues => b"list-reply-values",
    }
}

/// What the groups are.
pub(crate) fn grouping_name(by: Grouping) -> &'static [u8]
    ensures { result.now ≡ grouping_word by }
{
    match by {
        Grouping::Run => b"by run",
        Grouping::Phase => b"by phase",
        Grouping::Core => b"by core",
        Grouping::Region => b"by region",
    }
}

/// The name of the region with a number; nothing where there is none.
pub(crate) fn region_bytes(regions: &[Region], number: usize) -> &[u8]
    ensures { result.now ≡ region_name (slice_get regions.now number) }
{
    match regions.get(number) {
        Some(region) => region.name.bytes(),
        None => b"",
    }
}
