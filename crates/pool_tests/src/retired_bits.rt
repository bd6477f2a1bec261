//! A bit that one pass sets, every pass sees.
ghost use Rattle.std.specs.Prelude.{◌≡◌};
ghost use Rattle.retired_tags.specs.Passes.{IsNewTagPass, tags_of};

use retired_tags::{RetiredTags, TagPass};
use std::alloc::Global;
use std::process::Abort;

// Four tags and two passes.
fn opened(rt: &impl Abort, alloc: Global) -> (RetiredTags, TagPass, TagPass)
    ensures tags { tags_of result.0 ≡ 4 }
    ensures passes { IsNewTagPass result.0 result.1 × IsNewTagPass result.0 result.2 }
{
    let (bits, mut passes) = RetiredTags::open(alloc, 4, 2).expect(rt, "memory");
    let first = passes.pop().unwrap();
    let second = passes.pop().unwrap();
    (bits, first, second)
}

#[test]
fn a_bit_that_one_pass_sets_the_other_sees(rt: HostRuntime) {
    let (bits, mut first, mut second) = opened(&rt, rt.alloc());
    let told = [
        bits.retire(&mut first, 2),
        bits.is_retired(&mut second, 2),
        bits.retire(&mut second, 2),
        bits.is_retired(&mut second, 3),
    ];
    assert_eq!(rt; told, [false, true, true, false]);
}
