//! Words that are taken, and words that are refused.
use command_line::{Command, WordsFault, read_command};
use pool_limits::{Numbers, PoolConfig};
use std::alloc::Global;

// What is asked of a run: its numbers in the order of the struct (workers, instances, memories, tables, warm, batch, pages, elements,
// depth, frame), whether it is summed up, and of how many instructions a slice is.
type Asked = ([u32; 10], bool, u32);

// The usual numbers, the least, the greatest, and numbers in other forms.
static RUNS: &[(&str, Asked)] = &[
    ("run", ([1, 4, 4, 4, 2, 4, 32, 1024, 128, 1024], false, 0)),
    (
        "run --workers 1 --instances 1 --memories 1 --tables 1 --warm 0 --batch 1 --pages 1 --elements 0 --depth 1 --frame 1 --slice 0",
        ([1, 1, 1, 1, 0, 1, 1, 0, 1, 1], false, 0),
    ),
    (
        "run --workers 16 --instances 1024 --memories 1024 --tables 1024 --warm 1024 --batch 1024 --pages 256 --elements 65536 \
         --depth 1000 --frame 4096 --slice 4294967295 --summary",
        (
            [16, 1024, 1024, 1024, 1024, 1024, 256, 65536, 1000, 4096],
            true,
            u32::MAX,
        ),
    ),
    (
        "run --workers 2 --instances 2 --memories 2 --tables 2",
        ([2, 2, 2, 2, 2, 4, 32, 1024, 128, 1024], false, 0),
    ),
    (
        "run --warm +3 --summary --batch=007",
        ([1, 4, 4, 4, 3, 7, 32, 1024, 128, 1024], true, 0),
    ),
];

// Words of a load, with its seed and its count.
static LOADS: &[(&str, u64, u32)] = &[
    ("make 0 1", 0, 1),
    ("make 18446744073709551615 100000", u64::MAX, 100_000),
    ("make +7 007", 7, 7),
];

// Numbers out of their ranges, too few slots for several workers, and other words.
static OTHERS: &[&str] = &[
    "run --workers 0",
    "run --workers 17",
    "run --instances 0",
    "run --instances 1025",
    "run --memories 0",
    "run --memories 1025",
    "run --tables 0",
    "run --tables 1025",
    "run --warm -1",
    "run --warm 1025",
    "run --batch 0",
    "run --batch 1025",
    "run --pages 0",
    "run --pages 257",
    "run --elements 65537",
    "run --depth 0",
    "run --depth 1001",
    "run --frame 0",
    "run --frame 4097",
    "run --slice -1",
    "run --slice 4294967296",
    "run --workers 2 --instances 1",
    "run --workers 2 --memories 1",
    "run --workers 2 --tables 1",
    "run --warm two",
    "run --warm 2 --warm 2",
    "run --warm",
    "run --slice 1 --slice 1",
    "run --summary --summary",
    "run --summary=true",
    "run now",
    "run run",
    "run --help",
    "make",
    "make 1",
    "make -1 1",
    "make one 1",
    "make 18446744073709551616 1",
    "make 1 0",
    "make 1 100001",
    "make 1 1 1",
    "make 1 1 --summary",
    "make 1 1 --slice 1",
    "--help",
    "--version",
    "help",
    "",
];

// What the words of a line ask for, behind the program's name. There are at most 27.
fn read(alloc: Global, line: &str) -> Result<Command, WordsFault> {
    let mut words = ["poolhost"; 28];
    let mut count = 1;
    for word in line.split_whitespace() {
        if count < 28 {
            words[count] = word;
            count += 1;
        }
    }
    read_command(alloc, &words[..count.min(28)])
}

// What a command asks of a run, if it is one.
fn asked(command: Command) -> Option<Asked> {
    let Command::Run {
        config,
        summary,
        slice,
    } = command
    else {
        return None;
    };
    let Numbers {
        workers,
        instances,
        memories,
        tables,
        warm,
        batch,
        pages,
        elements,
        depth,
        frame,
    } = config.numbers();
    let numbers = [
        workers, instances, memories, tables, warm, batch, pages, elements, depth, frame,
    ];
    Some((numbers, summary, slice))
}

#[test]
fn a_run_without_options_has_the_default_configuration(rt: HostRuntime) {
    let want = Command::Run {
        config: PoolConfig::default(),
        summary: false,
        slice: 0,
    };
    assert!(rt; read(rt.alloc(), "run") == Ok(want));
}

#[test]
fn a_run_has_the_numbers_that_are_named_and_the_usual_others(rt: HostRuntime) {
    for (line, want) in RUNS {
        let got = read(rt.alloc(), line).map(asked);
        assert!(rt; got == Ok(Some(*want)), "at {line}");
    }
}

#[test]
fn a_load_has_a_seed_and_a_count(rt: HostRuntime) {
    for (line, seed, count) in LOADS {
        let want = Command::Make {
            seed: *seed,
            count: *count,
        };
        assert!(rt; read(rt.alloc(), line) == Ok(want), "at {line}");
    }
}

#[test]
fn other_words_are_refused(rt: HostRuntime) {
    for line in OTHERS {
        let got = read(rt.alloc(), line);
        assert!(rt; got == Err(WordsFault::Refused), "at {line}");
    }
}
