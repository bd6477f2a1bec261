//! Which slots a pass takes one after another, and what is done to their values: no clause counts how often one is cleared or restored.
ghost use Rattle.std.specs.Prelude.{◌≡◌, ◌<◌, ◌≤◌, length};
ghost use Rattle.slot_words.specs.Passes.{IsIdle, IsSamePass};
ghost use Rattle.slot_words.specs.Owned.{IsPassOf, slots_of};

use crate::noted_values::{Noted, opened};
use crate::visits::Kind::{Affine, Any, Batched};
use crate::visits::{Kind, claimed, visit};
use pool_core::{State, unpack};
use slot_pools::{give_cold, sweep};
use slot_words::{Pass, Words};
use std::alloc::Global;
use std::process::Abort;

// How slot n was left, and how often its value was cleared and restored until then.
fn left(words: &Words<Noted>, pass: &mut Pass<Noted>, n: u32) -> Option<(State, u32, u32)>
    requires own { IsPassOf words.now pass.old }
    requires idle { IsIdle pass.old }
    requires number { n < slots_of words.now }
    ensures same { IsSamePass pass.old pass.new }
    ensures idle { IsIdle pass.new }
{
    let lease = claimed(words, pass, n)?;
    let (found, _) = unpack(lease.word());
    let noted = (found.state, lease.value.clears, lease.value.restores);
    give_cold(words, pass, lease);
    Some(noted)
}

// Modules by their tags. None is used for D.
const A: u8 = 5;

const B: u8 = 6;

const C: u8 = 7;

const D: u8 = 8;

const COLD: State = State::Cold;

const WARM: State = State::Warm;

const AWAITING: State = State::Awaiting;

// Visits of a pool, one after another, and then a sweep.
struct Row {
    // How many slots may be warm.
    warm: u32,
    kind: Kind,
    // For which module a slot is taken and given back, and which slot that is.
    visits: &'static [(u8, u32)],
    // Of which module the slots are swept, and how many are cleaned.
    swept: (u8, u32),
    // How each slot is left, and how often its value was cleared and restored.
    left: &'static [(State, u32, u32)],
}

static ROWS: [Row; 9] = [
    // Its own warm slot is not restored as it is taken, and at the limit the one that was left first goes to another module.
    Row {
        warm: 2,
        kind: Batched(1),
        visits: &[(A, 0), (B, 1), (A, 0), (C, 1)],
        swept: (D, 0),
        left: &[(WARM, 0, 2), (WARM, 0, 2), (COLD, 0, 0)],
    },
    Row {
        warm: 2,
        kind: Affine,
        visits: &[(A, 0), (B, 1), (A, 0), (C, 1)],
        swept: (D, 0),
        left: &[(WARM, 0, 2), (WARM, 0, 2), (COLD, 0, 0)],
    },
    // What is handed in stays as it is until a batch is complete.
    Row {
        warm: 3,
        kind: Batched(2),
        visits: &[(A, 0)],
        swept: (D, 0),
        left: &[(AWAITING, 0, 0), (COLD, 0, 0)],
    },
    // Then each slot that awaits is restored, and no other.
    Row {
        warm: 3,
        kind: Batched(2),
        visits: &[(A, 0), (B, 1), (A, 0), (C, 2)],
        swept: (D, 0),
        left: &[(WARM, 0, 2), (WARM, 0, 1), (WARM, 0, 1)],
    },
    // A take that finds all slots awaiting flushes them: one is restored and won, and for want of a permit the other is cleared.
    Row {
        warm: 1,
        kind: Batched(8),
        visits: &[(A, 0), (B, 1), (A, 0)],
        swept: (D, 0),
        left: &[(AWAITING, 0, 1), (COLD, 1, 0)],
    },
    // Where none may be warm, or none ever is, each is cleared as it is given back.
    Row {
        warm: 0,
        kind: Affine,
        visits: &[(A, 0), (B, 0)],
        swept: (B, 0),
        left: &[(COLD, 2, 0), (COLD, 0, 0)],
    },
    Row {
        warm: 2,
        kind: Any,
        visits: &[(A, 0), (B, 0)],
        swept: (B, 0),
        left: &[(COLD, 2, 0), (COLD, 0, 0)],
    },
    // A sweep clears the slots of its module, one that awaits or one that is warm, and no other.
    Row {
        warm: 2,
        kind: Batched(2),
        visits: &[(A, 0), (B, 1), (A, 0)],
        swept: (A, 1),
        left: &[(COLD, 1, 1), (WARM, 0, 1)],
    },
    Row {
        warm: 2,
        kind: Batched(1),
        visits: &[(A, 0), (B, 1)],
        swept: (B, 1),
        left: &[(WARM, 0, 1), (COLD, 1, 1)],
    },
];

// Makes the visits of a row.
fn check_visits(
    rt: &impl Abort,
    words: &Words<Noted>,
    pass: &mut Pass<Noted>,
    place: usize,
    row: &Row,
)
    requires own { IsPassOf words.now pass.old }
    requires idle { IsIdle pass.old }
    ensures same { IsSamePass pass.old pass.new }
    ensures idle { IsIdle pass.new }
{
    for (module, slot) in row.visits {
        let taken = visit(words, pass, row.kind, *module);
        assert!(rt; taken == Some(*slot), "row {place}");
    }
}

// Sees how the slots were left.
fn check_left(
    rt: &impl Abort,
    words: &Words<Noted>,
    pass: &mut Pass<Noted>,
    place: usize,
    slots: &[(State, u32, u32)],
)
    requires own { IsPassOf words.now pass.old }
    requires idle { IsIdle pass.old }
    requires slots { length slots.now ≡ slots_of words.now }
    requires few { length slots.now ≤ 3 }
{
    for n in 0..slots.len() {
        let noted = left(words, pass, n as u32);
        assert!(rt; noted == Some(slots[n]), "slot {n} of row {place}");
    }
}

fn check_row(rt: &impl Abort, alloc: Global, place: usize, row: &Row) {
    let slots = row.left.len();
    assert!(rt; slots >= 1 && slots <= 3);
    let (words, mut pass, _other) = opened(rt, alloc, slots as u32, row.warm);
    check_visits(rt, &words, &mut pass, place, row);
    let (module, cleaned) = row.swept;
    let swept = sweep(&words, &mut pass, u32::from(module));
    assert!(rt; swept == cleaned, "row {place}");
    check_left(rt, &words, &mut pass, place, row.left);
}

#[test]
fn slots_come_back_to_their_modules_and_are_cleaned_once(rt: HostRuntime) {
    for (place, row) in ROWS.iter().enumerate() {
        check_row(&rt, rt.alloc(), place, row);
    }
}
