//! Slots that two passes ask for.
ghost use Rattle.std.specs.Prelude.{◌<◌, false};
ghost use Rattle.slot_words.specs.Leases.{lease_number};
ghost use Rattle.slot_words.specs.Passes.{IsIdle, Holds};
ghost use Rattle.slot_words.specs.Owned.{IsPassOf, slots_of};

use crate::noted_values::{Noted, opened};
use crate::visits::Kind::{Affine, Any, Batched};
use crate::visits::{Kind, claimed, give, take, visit};
use slot_pools::{Policy, give_cold};
use slot_words::{KindCounts, Lease, Pass, Seen, Words};
use std::alloc::Global;
use std::process::Abort;
use std::thread;
use std::thread::Threads;

// Gives a slot back, or drops the pass that has it.
fn give_or_drop(words: &Words<Noted>, mut pass: Pass<Noted>, lease: Lease<Noted>, gives: bool)
    requires own { IsPassOf words.now pass }
    requires number { lease_number lease < slots_of words.now }
    requires holds { Holds pass (lease_number lease) false false false }
{
    if gives {
        give_cold(words, &mut pass, lease);
    } else {
        lease.keep();
    }
}

// What a scan sees while two passes have a slot each, the second after it found the first one's held; and the counts by the first, once
// the second gave its own back or was dropped with it.
fn two_holders(rt: &impl Abort, alloc: Global, gives: bool) -> ([u64; 2], KindCounts) {
    let (words, mut first, mut second) = opened(rt, alloc, 2, 0);
    let Some(lease) = claimed(&words, &mut first, 0) else {
        panic!(rt; "slot 0 is held");
    };
    let None = claimed(&words, &mut second, 0) else {
        panic!(rt; "two passes have one slot");
    };
    let Some(other) = claimed(&words, &mut second, 1) else {
        panic!(rt; "slot 1 is held");
    };
    let mut seen = Seen::new();
    words.scan(&mut first, &mut seen);
    let both = [seen.words()[0], seen.words()[1]];
    give_or_drop(&words, second, other, gives);
    give_cold(&words, &mut first, lease);
    (both, words.close(first))
}

#[test]
fn closing_counts_what_was_given_back_and_what_was_kept(rt: HostRuntime) {
    for (gives, cold, held) in [(true, 2, 0), (false, 1, 1)] {
        let counts = KindCounts {
            cold,
            warm: 0,
            awaiting: 0,
            held,
        };
        let got = two_holders(&rt, rt.alloc(), gives);
        assert!(rt; got == ([1, 1], counts), "{gives}");
    }
}

// Which slot the second of two passes is given of a pool of one: while the first has it, and when that gave it back.
fn beside(rt: &impl Abort, alloc: Global, kind: Kind) -> [Option<u32>; 2] {
    let (words, mut first, mut second) = opened(rt, alloc, 1, 1);
    let lease = take(&words, &mut first, kind, 5).expect(rt, "free");
    let full = visit(&words, &mut second, kind, 5);
    give(&words, &mut first, lease, kind, 5);
    [full, visit(&words, &mut second, kind, 5)]
}

#[test]
fn a_held_pool_is_full_until_its_slot_is_given_back(rt: HostRuntime) {
    for kind in [Batched(1), Batched(2), Affine, Any] {
        assert!(rt; beside(&rt, rt.alloc(), kind) == [None, Some(0)]);
    }
}

// Takes the one slot and gives it back a thousand times, and counts how often it was won.
fn visit_often(words: &Words<Noted>, mut pass: Pass<Noted>, tag: u8) -> (u32, Pass<Noted>)
    requires own { IsPassOf words.now pass }
    requires idle { IsIdle pass }
    ensures own { IsPassOf words.now result.1 }
    ensures idle { IsIdle result.1 }
{
    let mut won = 0u32;
    for _ in 0..1000u32 {
        if visit(words, &mut pass, Batched(1), tag).is_some() {
            won = won.wrapping_add(1);
        }
    }
    (won, pass)
}

// How often two passes win the one slot, on two threads where they can be had.
fn both_visit<R: Threads>(
    rt: &R,
    words: &Words<Noted>,
    first: Pass<Noted>,
    second: Pass<Noted>,
) -> (u32, u32, Pass<Noted>)
    requires own { IsPassOf words.now first × IsPassOf words.now second }
    requires idle { IsIdle first × IsIdle second }
    ensures own { IsPassOf words.now result.2 }
    ensures idle { IsIdle result.2 }
{
    let ((won, first), (won_too, _)) = thread::join(
        rt,
        || -> (u32, Pass<Noted>)
            requires { IsPassOf words.now first × IsIdle first }
            ensures { IsPassOf words.entry.now result.1 × IsIdle result.1 }
        { visit_often(words, first, 5) },
        || -> (u32, Pass<Noted>)
            requires { IsPassOf words.now second × IsIdle second }
        { visit_often(words, second, 6) },
    );
    (won, won_too, first)
}

#[test]
fn two_threads_never_have_one_slot_at_once(rt: HostRuntime) {
    let (words, first, second) = opened(&rt, rt.alloc(), 1, 1);
    let (won, won_too, mut pass) = both_visit(&rt, &words, first, second);
    let lease = slot_pools::take(&words, &mut pass, &(), Policy::Any).expect(&rt, "free");
    assert_eq!(rt; lease.value.visits, won.wrapping_add(won_too));
}
