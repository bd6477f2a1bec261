//! How early a slot is claimed.
ghost use Rattle.std.specs.Prelude.{◌≡◌, ◌<◌, IfSome, unwrap_or};
ghost use Rattle.pool_core.specs.declared.words.StateWord.{StateWord};
ghost use Rattle.pool_core.specs.StateWords.{IsWordOf, unpacked};
ghost use Rattle.affinity_index.specs.Orders.{rank_of};
ghost use Rattle.affinity_index.specs.Rankings.{cold_rank};
ghost use Rattle.affinity_index.specs.declared.ranks.TheConstants.{NO_RANK};

use pool_core::{STAMP_LIMIT, State, unpack};

// A slot and its rank. The lesser rank comes first, and of equal ranks the lesser number.
#[derive(Clone, Copy, PartialEq, Eq, PartialOrd, Ord, Default, Debug, Drop)]
pub(crate) struct Ranked {
    pub rank: u64,
    pub number: u32,
}

// No slot has this rank: each is below three times the limit of stamps.
pub(crate) const NO_RANK: u64 = 4 * STAMP_LIMIT;

// The rank of a cold slot.
pub(crate) fn cold_rank(full: bool) -> u64
    ensures { result ≡ cold_rank full }
{
    if full { 2 * STAMP_LIMIT } else { STAMP_LIMIT }
}

// The rank of a slot whose word this is, or `None` where it is held or awaits its decommit.
pub(crate) fn rank(word: u64, tag: u32, full: bool) -> Option<u64>
    requires { (w : StateWord) × IsWordOf word w }
    ensures is { result ≡ rank_of tag full (unpacked word) }
    ensures small { IfSome result (λ r. r < NO_RANK) }
{
    let (target, held) = unpack(word);
    if held {
        return None;
    }
    match target.state {
        State::Awaiting => None,
        State::Cold => Some(cold_rank(full)),
        State::Warm if target.tag == tag => Some(STAMP_LIMIT - 1 - target.stamp),
        State::Warm => Some(if full { STAMP_LIMIT } else { 2 * STAMP_LIMIT } + target.stamp),
    }
}

// The rank of a slot whose word this is, or `NO_RANK` where it has none.
pub(crate) fn rank_or_none(word: u64, tag: u32, full: bool) -> u64
    requires { (w : StateWord) × IsWordOf word w }
    ensures is { result ≡ unwrap_or (rank_of tag full (unpacked word)) NO_RANK }
    ensures small { IfSome (rank_of tag full (unpacked word)) (λ r. r < NO_RANK) }
{
    match rank(word, tag, full) {
        Some(rank) => rank,
        None => NO_RANK,
    }
}
