//! In which order slots are claimed, by what was seen of them.
ghost use Rattle.std.specs.Prelude.{◌≡◌, true, false};
ghost use Rattle.std.specs.List.{All};
ghost use Rattle.pool_core.specs.declared.words.StateWord.{StateWord};
ghost use Rattle.pool_core.specs.StateWords.{is_well_formed, IsWordOf};

use crate::noted_values::opened;
use affinity_index::order;
use pool_core::{State, Target, pack};
use slot_words::Seen;

fn free(state: State, tag: u32, stamp: u64) -> u64
    requires { is_well_formed (record { state = state; tag = tag; stamp = stamp }) ≡ true }
    ensures { IsWordOf result (record { target = record { state = state; tag = tag; stamp = stamp }; held = false }) }
{
    pack(Target { state, tag, stamp }, false)
}

fn five_words() -> [u64; 5]
    ensures { All (λ r. (w : StateWord) × IsWordOf r w) result }
{
    [
        free(State::Warm, 7, 10),
        free(State::Cold, 0, 0),
        free(State::Warm, 9, 4),
        free(State::Warm, 7, 12),
        free(State::Awaiting, 7, 20),
    ]
}

#[test]
fn its_own_come_first_and_cold_ones_by_the_limit(rt: HostRuntime) {
    let seen = five_words();
    let at_limit = order(&seen, 7, 3, 3);
    assert!(rt; at_limit.numbers() == [3, 0, 2, 1].as_slice());
    let below = order(&seen, 7, 2, 3);
    assert!(rt; below.numbers() == [3, 0, 1, 2].as_slice());
}

#[test]
fn as_many_cold_slots_as_a_pool_may_have_come_by_their_number(rt: HostRuntime) {
    let (words, mut pass, _other) = opened(&rt, rt.alloc(), 1_024, 1);
    let mut seen = Seen::new();
    words.scan(&mut pass, &mut seen);
    let all = order(seen.words(), 7, 0, 1);
    assert!(rt; all.numbers().iter().copied().eq(0..1_024));
}
