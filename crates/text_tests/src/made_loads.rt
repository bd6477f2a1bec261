//! Loads that were computed by hand.
use load_maker::make;

const MODULES: &str =
    "module add 0061736d0100000001070160027f7f017f030201000707010361646400000a09010700200020016a0b\n\
    module bump 0061736d010000000105016000017f0302010005030100010708010462756d7000000a160114004100410028020041016a36020041002802000b\n\
    module g 0061736d010000000108026000006000017f030302000105030100010710020564697274790000046c6f6f6b00010a26021500410140001a41ffff07417f3a000003400c000b0b0e00410140001a41ffff072d00000b\n";

// Seeds, numbers of calls, and the calls.
static ROWS: [(u64, u32, &str); 5] = [
    (1, 1, "call g dirty 43\n"),
    (0, 1, "call g look 100\n"),
    (1, 0, ""),
    (
        7,
        7,
        "call g dirty 19\ncall g look 100\ncall bump bump 100\ncall bump bump 100\ncall bump bump 100\n\
        call g look 100\ncall add add 100 i32:216297466 i32:7\n",
    ),
    (
        u64::MAX,
        2,
        "call add add 100 i32:393638122 i32:1\ncall g look 100\n",
    ),
];

#[test]
fn loads_are_those_that_were_computed_by_hand(rt: HostRuntime) {
    for &(seed, count, calls) in &ROWS {
        let want = [MODULES, calls].join(rt.alloc(), "").expect(&rt, "memory");
        let file = make(rt.alloc(), seed, count).expect(&rt, "memory");
        assert!(rt; file.as_slice() == want.as_bytes(), "of seed {seed}");
    }
}
