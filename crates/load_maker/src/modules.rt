//! The modules of a load, as the hex digits of their bytes.

/// Adds two `i32`: its export is `add`.
pub const ADD: &[u8] =
    b"0061736d0100000001070160027f7f017f030201000707010361646400000a09010700200020016a0b";

/// Counts its calls in its memory: its export is `bump`, without arguments.
pub const BUMP: &[u8] =
    b"0061736d010000000105016000017f0302010005030100010708010462756d7000000a160114004100410028020041016a36020041002802000b";

/// Grows its memory: `dirty` writes the last byte and then loops until its fuel is used up, and `look` gives that byte.
pub const GROWN: &[u8] =
    b"0061736d010000000108026000006000017f03030200010503010001071002056469727479000004\
      6c6f6f6b00010a26021500410140001a41ffff07417f3a000003400c000b0b0e00410140001a41ffff072d00000b";
