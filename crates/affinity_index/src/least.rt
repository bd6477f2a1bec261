//! Which slot is claimed first, and which one next.
ghost use Rattle.std.specs.Prelude.{◌≡◌, ◌+◌, ◌/◌, ◌%◌, ◌<◌, ◌≤◌, ◌==◌, ℕ, List, Some, None, IfSome, MatchOption, leb, length, slice_get};
ghost use Rattle.std.specs.List.{All};
ghost use Rattle.pool_core.specs.declared.words.StateWord.{StateWord};
ghost use Rattle.pool_core.specs.StateWords.{IsWordOf, unpacked};
ghost use Rattle.affinity_index.specs.Orders.{IsOrder, rank_of, seen_rank};
ghost use Rattle.affinity_index.specs.Rankings.{IsFirstCold, IsLeastBelow, IsNoColdBelow, behind, earlier_of, is_before_cold, is_behind, if_ranked, lesser_of, rank_behind, ranked_or_none, seen_warm, warm_rank};
ghost use Rattle.affinity_index.specs.declared.ranks.TheConstants.{NO_RANK};

use crate::ranks::{NO_RANK, Ranked, cold_rank, rank, rank_or_none};
use pool_core::MOST_SLOTS;

// Which of two comes first, where the second has the greater number.
fn lesser(least: Option<Ranked>, entry: Ranked) -> Ranked
    ensures { result ≡ lesser_of least entry }
{
    match least {
        Some(least) if least.rank <= entry.rank => least,
        _ => entry,
    }
}

// Whether a slot of this rank and number is claimed behind `last`.
fn comes_behind(last: Ranked, rank: u64, number: u32) -> bool
    ensures { result ≡ is_behind last rank number }
{
    last.rank < rank || (last.rank == rank && last.number < number)
}

// The rank of slot `number`, whose word this is, if it is claimed behind `last`.
fn rank_of_next(word: u64, tag: u32, full: bool, number: u32, last: Option<Ranked>) -> Option<u64>
    requires { (w : StateWord) × IsWordOf word w }
    ensures { result ≡ behind last number (rank_of tag full (unpacked word)) }
{
    let rank = rank(word, tag, full)?;
    match last {
        Some(last) if !comes_behind(last, rank, number) => None,
        _ => Some(rank),
    }
}

// Which of two comes first, where the second has the greater number and either may have no rank.
fn earlier(least: Ranked, entry: Ranked) -> Ranked
    ensures { result ≡ earlier_of least entry }
{
    if entry.rank < least.rank {
        entry
    } else {
        least
    }
}

// The slot itself, or none where it has no rank.
fn if_ranked(least: Ranked) -> Option<Ranked>
    ensures { result ≡ if_ranked least }
{
    if least.rank == NO_RANK {
        None
    } else {
        Some(least)
    }
}

// Whether a slot of this word is warm, held or not.
fn is_warm(word: u64) -> bool
    ensures { result ≡ (word / 2 % 2 == 1) }
{
    word / 2 % 2 == 1
}

// The first so far, or the slot of this word, where it is warm and comes before that. Nearly all words of a wide pool are passed over
// here by a look at one bit.
fn earlier_warm(least: Ranked, word: u64, tag: u32, full: bool, number: u32) -> Ranked
    requires word { (w : StateWord) × IsWordOf word w }
    requires most { least.rank ≤ NO_RANK }
    ensures is { result ≡ earlier_of least (ranked_or_none (warm_rank tag full word) number) }
    ensures small { IfSome (warm_rank tag full word) (λ r. r < NO_RANK) }
{
    if !is_warm(word) {
        return least;
    }
    let rank = rank_or_none(word, tag, full);
    earlier(least, Ranked { rank, number })
}

// Of the warm slots the one of the least rank, and of equal ranks the one of the least number.
fn least_warm(seen: &[u64], tag: u32, full: bool) -> Option<Ranked>
    requires few { length seen.now ≤ MOST_SLOTS }
    requires words { All (λ r. (w : StateWord) × IsWordOf r w) seen.now }
    ensures { IsLeastBelow (seen_warm seen.now tag full) (length seen.now) result }
{
    let mut least = Ranked {
        rank: NO_RANK,
        number: 0,
    };
    for n in 0..seen.len() {
        least = earlier_warm(least, seen[n], tag, full, n as u32);
    }
    if_ranked(least)
}

// Whether a slot of this word is cold and free.
fn is_cold(word: u64) -> bool
    ensures { result ≡ (word % 8 == 0) }
{
    word % 8 == 0
}

// The first cold slot.
fn first_cold(seen: &[u64]) -> Option<u32>
    requires { length seen.now ≤ MOST_SLOTS }
    ensures { MatchOption result (IsNoColdBelow seen.now (length seen.now)) (IsFirstCold seen.now (length seen.now)) }
{
    for n in 0..seen.len() {
        if is_cold(seen[n]) {
            return Some(n as u32);
        }
    }
    None
}

// Whether there is such a slot, and it is claimed before a cold one.
fn comes_before_cold(warm: Option<Ranked>, full: bool) -> bool
    ensures { result ≡ is_before_cold full warm }
{
    match warm {
        Some(entry) => entry.rank < cold_rank(full),
        None => false,
    }
}

// Of all slots the one of the least rank, and of equal ranks the one of the least number: of the warm ones, or the first cold one.
fn least_of_all(seen: &[u64], tag: u32, full: bool) -> Option<Ranked>
    requires few { length seen.now ≤ MOST_SLOTS }
    requires words { All (λ r. (w : StateWord) × IsWordOf r w) seen.now }
    ensures { IsLeastBelow (seen_rank seen.now tag full) (length seen.now) result }
{
    let warm = least_warm(seen, tag, full);
    if comes_before_cold(warm, full) {
        return warm;
    }
    match first_cold(seen) {
        Some(number) => Some(Ranked {
            rank: cold_rank(full),
            number,
        }),
        None => warm,
    }
}

// Of the slots that are claimed behind `last` the one of the least rank, and of equal ranks the one of the least number.
fn least(seen: &[u64], tag: u32, full: bool, last: Option<Ranked>) -> Option<Ranked>
    requires few { length seen.now ≤ MOST_SLOTS }
    requires words { All (λ r. (w : StateWord) × IsWordOf r w) seen.now }
    ensures { IsLeastBelow (rank_behind seen.now tag full last) (length seen.now) result }
{
    let mut least = None;
    for n in 0..seen.len() {
        let number = n as u32;
        if let Some(rank) = rank_of_next(seen[n], tag, full, number, last) {
            least = Some(lesser(least, Ranked { rank, number }));
        }
    }
    least
}

/// The first number of the [`order`](crate::order) for the same, found without sorting: `None` exactly where the order is empty.
pub fn first_in_order(seen: &[u64], tag: u32, warm: u64, limit: u64) -> Option<u32>
    requires few { length seen.now ≤ MOST_SLOTS }
    requires words { All (λ r. (w : StateWord) × IsWordOf r w) seen.now }
    ensures first { (order : List ℕ) → IsOrder seen.now tag (leb limit warm) order → result ≡ slice_get order 0 }
    ensures number { IfSome result (λ n. n < length seen.now) }
{
    match least_of_all(seen, tag, warm >= limit) {
        Some(entry) => Some(entry.number),
        None => None,
    }
}

/// The number that follows `last` in the [`order`](crate::order) for the same, found without sorting: `None` exactly where `last` is the order's last, or does not stand in it.
pub fn next_in_order(seen: &[u64], tag: u32, warm: u64, limit: u64, last: u32) -> Option<u32>
    requires few { length seen.now ≤ MOST_SLOTS }
    requires words { All (λ r. (w : StateWord) × IsWordOf r w) seen.now }
    requires last { last < length seen.now }
    ensures next { (order : List ℕ) (k : ℕ) → IsOrder seen.now tag (leb limit warm) order → slice_get order k ≡ Some last → result ≡ slice_get order (k + 1) }
    ensures outside { seen_rank seen.now tag (leb limit warm) last ≡ None → result ≡ None }
    ensures number { IfSome result (λ n. n < length seen.now) }
{
    let full = warm >= limit;
    let rank = rank(seen[last as usize], tag, full)?;
    let number = last;
    match least(seen, tag, full, Some(Ranked { rank, number })) {
        Some(entry) => Some(entry.number),
        None => None,
    }
}
