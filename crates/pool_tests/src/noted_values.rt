//! A value that notes what is done to it, and pools of such values.
ghost use Rattle.std.specs.Prelude.{◌≡◌, ◌<◌, ◌≤◌};
ghost use Rattle.pool_core.specs.declared.limits.TheConstants.{TAG_LIMIT};
ghost use Rattle.slot_words.specs.Owned.{IsNewPassOf, passes_of, slots_of};

use pool_core::{NoMemory, TAG_LIMIT};
use slot_pools::{OpenSlot, open};
use slot_words::{Pass, Pooled, Words};
use std::alloc::Global;
use std::process::Abort;

// A value of the module `tag`, with how often it was cleared, restored and given back.
#[derive(Drop)]
pub(crate) struct Noted {
    pub tag: u32,
    pub clears: u32,
    pub restores: u32,
    pub visits: u32,
    ghost small: { tag < TAG_LIMIT },
}

impl Pooled for Noted {
    type Images = ();

    ghost own_tag = { λ x. x.tag };

    ghost fits = { λ s tag x. x.tag ≡ tag };

    fn clear(&mut self) {
        self.tag = 0;
        self.clears = self.clears.wrapping_add(1);
    }

    fn restore(&mut self, _images: &()) {
        self.restores = self.restores.wrapping_add(1);
    }

    fn tag(&self) -> u32 {
        self.tag
    }

    ghost fits_own_tag = { λ s tag x warm fits. fits };
}

impl OpenSlot for Noted {
    fn open(_alloc: Global, _images: &()) -> Result<Noted, NoMemory> {
        Ok(Noted {
            tag: 0,
            clears: 0,
            restores: 0,
            visits: 0,
        })
    }
}

// So many slots, of which so many may be warm, and two passes.
pub(crate) fn opened(
    rt: &impl Abort,
    alloc: Global,
    slots: u32,
    warm: u32,
) -> (Words<Noted>, Pass<Noted>, Pass<Noted>)
    requires { (1 ≤ slots) × (slots ≤ 1024) }
    ensures slots { slots_of result.0 ≡ slots }
    ensures passes { IsNewPassOf result.0 result.1 × IsNewPassOf result.0 result.2 × (passes_of result.0 ≡ 2) }
{
    let (words, mut passes) = open::<Noted>(alloc, &(), slots, warm, 2).expect(rt, "memory");
    let first = passes.pop().unwrap();
    let second = passes.pop().unwrap();
    (words, first, second)
}
