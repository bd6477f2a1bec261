//! Sources and sinks that fail, or give and take a few bytes at a time.
use crate::harness::{Ends, Run, check, ended};
use host_edge::{Failed, MemSink, OpenGate, Sink};
use host_run::refuse_words;

const RUN: &str = "poolhost run";

// A module that exports the addition of two i32 under the name add, and a call of it.
const ADDITION: &[u8] =
    b"module add 0061736d0100000001070160027f7f017f030201000707010361646400000a09010700200020016a0b
call add add 100 i32:2 i32:3
";

const REPORT: &[u8] = b"module add ok\n1 ok i32:5\n";

// Three modules and a call that loops until its fuel is used up.
const LOAD: &[u8] =
    b"module add 0061736d0100000001070160027f7f017f030201000707010361646400000a09010700200020016a0b
module bump 0061736d010000000105016000017f0302010005030100010708010462756d7000000a160114004100410028020041016a36020041002802000b
module g 0061736d010000000108026000006000017f030302000105030100010710020564697274790000046c6f6f6b00010a26021500410140001a41ffff07417f3a000003400c000b0b0e00410140001a41ffff072d00000b
call g dirty 43
";

static ENDS: [Run; 11] = [
    // in small pieces
    Run {
        line: RUN,
        bytes: ADDITION,
        ends: Ends {
            source: (3, &[]),
            sink: (1, &[]),
        },
        status: 0,
        written: REPORT,
    },
    // with several workers
    Run {
        line: "poolhost run --workers 4",
        bytes: ADDITION,
        ends: Ends {
            source: (3, &[]),
            sink: (1, &[]),
        },
        status: 0,
        written: REPORT,
    },
    // in slices
    Run {
        line: "poolhost run --workers 2 --slice 1",
        bytes: ADDITION,
        ends: Ends {
            source: (3, &[]),
            sink: (1, &[]),
        },
        status: 0,
        written: REPORT,
    },
    // a read that fails
    Run {
        line: RUN,
        bytes: ADDITION,
        ends: Ends {
            source: (16, &[3]),
            sink: (4096, &[]),
        },
        status: 3,
        written: b"",
    },
    // a write that fails
    Run {
        line: RUN,
        bytes: ADDITION,
        ends: Ends {
            source: (4096, &[]),
            sink: (5, &[2]),
        },
        status: 4,
        written: b"modul",
    },
    // several workers and one memory, unread
    Run {
        line: "poolhost run --workers 2 --memories 1",
        bytes: b"abc",
        ends: Ends {
            source: (16, &[1]),
            sink: (4096, &[]),
        },
        status: 2,
        written: b"refused words\n",
    },
    // one memory too many, unread
    Run {
        line: "poolhost run --memories 1025",
        bytes: b"abc",
        ends: Ends {
            source: (16, &[1]),
            sink: (4096, &[]),
        },
        status: 2,
        written: b"refused words\n",
    },
    // a refusal in part
    Run {
        line: "poolhost run run",
        bytes: b"",
        ends: Ends {
            source: (4096, &[]),
            sink: (5, &[3]),
        },
        status: 4,
        written: b"refused wo",
    },
    // a load, with the source unread
    Run {
        line: "poolhost make 1 1",
        bytes: b"abc",
        ends: Ends {
            source: (16, &[1]),
            sink: (4096, &[]),
        },
        status: 0,
        written: LOAD,
    },
    // a load in part
    Run {
        line: "poolhost make 1 1",
        bytes: b"",
        ends: Ends {
            source: (4096, &[]),
            sink: (5, &[2]),
        },
        status: 4,
        written: b"modul",
    },
    // its summary
    Run {
        line: "poolhost run --summary",
        bytes: LOAD,
        ends: Ends {
            source: (4096, &[]),
            sink: (7, &[]),
        },
        status: 0,
        written: b"modules ok 3\nmodules refused 0\ncalls ok 0\ncalls trap 0\ncalls fuel 1\ncalls refused 0\n",
    },
];

#[test]
fn runs_end_with_their_status_and_text(rt: HostRuntime) {
    for run in &ENDS {
        check(&rt, rt.alloc(), run, &OpenGate);
    }
}

// A source gives 4,096 bytes at a time, and would fail behind the byte past 64 MiB, which is the last that is read.
const PAST_64_MIB: Ends = Ends {
    source: (4096, &[16_386]),
    sink: (4096, &[]),
};

#[test]
fn a_file_of_more_than_64_mib_is_refused_with_ample_memory(rt: HostRuntime) {
    let bytes = b"#".repeat(rt.alloc(), 67_108_865).expect(&rt, "memory");
    let run = Run {
        line: RUN,
        bytes: bytes.as_slice(),
        ends: PAST_64_MIB,
        status: 2,
        written: b"file too long\n",
    };
    check(&rt, rt.alloc(), &run, &OpenGate);
}

// Runs of the addition over such ends.
fn addition<'a>(ends: Ends<'a>) -> Run<'a> {
    Run {
        line: RUN,
        bytes: ADDITION,
        ends,
        status: 0,
        written: REPORT,
    }
}

// The file has 123 bytes: eight reads of 16 bytes take them, and a ninth finds the end.
#[test]
fn each_read_fails_in_turn(rt: HostRuntime) {
    for call in 1..11 {
        let fails = [call];
        let run = addition(Ends {
            source: (16, &fails),
            sink: (4096, &[]),
        });
        let (status, sink) = ended(&rt, rt.alloc(), &run, &OpenGate);
        assert_eq!(rt; status, if call < 10 { 3 } else { 0 }, "at {call}");
        assert_eq!(rt; sink.bytes().is_empty(), call < 10, "at {call}");
    }
}

// The report has 25 bytes: five writes of 5 bytes.
#[test]
fn each_write_fails_in_turn(rt: HostRuntime) {
    for call in 1..7 {
        let fails = [call];
        let run = addition(Ends {
            source: (4096, &[]),
            sink: (5, &fails),
        });
        let (status, sink) = ended(&rt, rt.alloc(), &run, &OpenGate);
        let written = call as usize * 5 - 5;
        assert_eq!(rt; status, if call < 6 { 4 } else { 0 }, "at {call}");
        assert_eq!(rt; Some(sink.bytes()), REPORT.get(..written), "at {call}");
    }
}

static REFUSED: [&str; 6] = [
    "poolhost make",
    "poolhost make 1",
    "poolhost make -1 1",
    "poolhost make 1 0",
    "poolhost make 1 100001",
    "poolhost make 18446744073709551616 1",
];

// Ends of which the source would fail if it were read.
const UNREAD: Ends = Ends {
    source: (1, &[1]),
    sink: (4096, &[]),
};

#[test]
fn words_of_make_are_refused(rt: HostRuntime) {
    for &line in &REFUSED {
        let run = Run {
            line,
            bytes: b"",
            ends: UNREAD,
            status: 2,
            written: b"refused words\n",
        };
        check(&rt, rt.alloc(), &run, &OpenGate);
    }
}

// A sink that notes how many bytes each write was handed.
#[derive(Drop)]
struct NotingSink {
    inner: MemSink,
    handed: [usize; 4],
    writes: usize,
}

impl Sink for NotingSink {
    ghost use Rattle.std.specs.Prelude.{Some};
    ghost use Rattle.host_edge.specs.Memory.{bytes_written, write_faults};

    ghost written = { λ s. Some (bytes_written s.inner) };

    ghost faults = { λ s. write_faults s.inner };

    fn write(&mut self, piece: &[u8]) -> Result<usize, Failed> {
        if self.writes < self.handed.len() {
            self.handed[self.writes] = piece.len();
            self.writes += 1;
        }
        self.inner.write(piece)
    }
}

#[test]
fn each_write_is_handed_all_that_is_left(rt: HostRuntime) {
    let alloc = rt.alloc();
    let mut sink = NotingSink {
        inner: MemSink::new(alloc, 5, Vec::new(alloc)),
        handed: [0; 4],
        writes: 0,
    };
    assert_eq!(rt; refuse_words(&mut sink), 2);
    assert_eq!(rt; sink.inner.bytes(), b"refused words\n".as_slice());
    assert_eq!(rt; sink.handed, [14, 9, 4, 0]);
}
