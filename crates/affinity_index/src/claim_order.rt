//! In which order slots are claimed.
ghost use Rattle.std.specs.Prelude.{◌≡◌, ◌==◌, ◌<◌, ◌≤◌, ℕ, Some, is_some, leb, length, map};
ghost use Rattle.std.specs.List.{All, count_by};
ghost use Rattle.pool_core.specs.declared.words.StateWord.{StateWord};
ghost use Rattle.pool_core.specs.StateWords.{bit, IsWordOf};
ghost use Rattle.affinity_index.specs.Orders.{IsOrder, seen_rank};
ghost use Rattle.affinity_index.specs.Rankings.{is_of, number_of};

use crate::orders::Order;
use crate::ranks::{Ranked, rank};
use arrayvec::ArrayVec;
use pool_core::MOST_SLOTS;

// The slots that have a rank, with it.
fn rank_all(seen: &[u64], tag: u32, full: bool) -> ArrayVec<Ranked, MOST_SLOTS>
    requires few { length seen.now ≤ MOST_SLOTS }
    requires words { All (λ r. (w : StateWord) × IsWordOf r w) seen.now }
    ensures each { All (λ e. seen_rank seen.now tag full e.number ≡ Some e.rank) result.items }
    ensures once { (n : ℕ) → count_by (is_of n) result.items ≡ bit (is_some (seen_rank seen.now tag full n)) }
{
    let mut ranked = ArrayVec::new();
    for n in 0..seen.len() {
        if let Some(rank) = rank(seen[n], tag, full) {
            let number = n as u32;
            ranked.push(Ranked { rank, number });
        }
    }
    ranked
}

fn numbers_of(ranked: &[Ranked]) -> ArrayVec<u32, MOST_SLOTS>
    requires { length ranked.now ≤ MOST_SLOTS }
    ensures { result.items ≡ map number_of ranked.now }
{
    let mut numbers = ArrayVec::new();
    for entry in ranked {
        numbers.push(entry.number);
    }
    numbers
}

/// The slots that were seen free and not awaiting, in the order in which they are claimed for the module of this tag, where the warm word read was `warm` and at most `limit` slots may be warm.
pub fn order(seen: &[u64], tag: u32, warm: u64, limit: u64) -> Order
    requires few { length seen.now ≤ MOST_SLOTS }
    requires words { All (λ r. (w : StateWord) × IsWordOf r w) seen.now }
    ensures order { IsOrder seen.now tag (leb limit warm) result }
    ensures numbers { All (λ n. n < length seen.now) result }
{
    let mut ranked = rank_all(seen, tag, warm >= limit);
    ranked.sort_unstable();
    Order {
        numbers: numbers_of(&ranked),
    }
}
