//! Whole runs on large request files that a function makes.
use crate::harness::{check, ended, over};
use host_edge::OpenGate;
use request_text::MOST_CALLS;
use std::alloc::Global;
use std::process::Abort;
use std::sync::Wait;
use std::thread::Threads;

// What a run over a text must write.
fn check_text<R: Abort + Threads + Wait + Sync>(
    rt: &R,
    alloc: Global,
    line: &str,
    text: &str,
    written: &str,
) {
    check(rt, alloc, &over(line, text, written), &OpenGate);
}

// How many modules the large file retires, and how many calls stand before each of these lines.
const RETIRED: u8 = 20;

const CALLS: u8 = 50;

// Appends a call, behind the line of its tenant where that is another one.
fn push_call<R: Abort>(rt: &R, text: &mut String, call: u8) {
    let tenant = match call {
        10 => "  for a\n",
        30 => "for b\n# b's calls\n\n",
        _ => "",
    };
    let (directive, bytes) = if call % 3 == 0 {
        ("send", " 00")
    } else {
        ("call", "")
    };
    let module = call % RETIRED;
    write!(text, "{tenant}{directive} m{module} bump 8{bytes}\n").expect(rt, "memory");
}

// Appends what is written on a call before the retire line of module k.
fn push_line<R: Abort>(rt: &R, written: &mut String, k: u8, call: u8) {
    let number = k as u32 * CALLS as u32 + call as u32 + 1;
    let line = if call % RETIRED < k {
        "refused retired"
    } else if call % 3 == 0 {
        "ok i32:1 out:-"
    } else {
        "ok i32:1"
    };
    write!(written, "{number} {line}\n").expect(rt, "memory");
}

// Appends the calls before the retire line of module k, by each tenant, and the line, with what is written on them.
fn push_round<R: Abort>(rt: &R, text: &mut String, written: &mut String, k: u8) {
    for call in 0..CALLS {
        push_call(rt, text, call);
        push_line(rt, written, k, call);
    }
    write!(text, "retire m{k}\n").expect(rt, "memory");
    write!(written, "retire m{k} done\n").expect(rt, "memory");
}

// Appends the line of module k, with what is written on it.
fn push_module<R: Abort>(rt: &R, text: &mut String, written: &mut String, k: u8) {
    write!(
        text,
        "module m{k} 0061736d010000000105016000017f0302010005030100010708010462756d7000000a160114004100410028020041016a36020041002802000b\n"
    )
    .expect(rt, "memory");
    write!(written, "module m{k} ok\n").expect(rt, "memory");
}

// Appends a file of 1,000 calls and 20 retire lines that has every directive, and the report on it.
fn push_large<R: Abort>(rt: &R, text: &mut String, written: &mut String) {
    let head = "# every directive\n\nprofile 5\ntenant a 1 1 1 1\ntenant b 1 1 1 0\n";
    text.push_str(head).expect(rt, "memory");
    for k in 0..RETIRED {
        push_module(rt, text, written, k);
    }
    for k in 0..RETIRED {
        push_round(rt, text, written, k);
    }
}

static MANY: [&str; 6] = [
    "poolhost run --pages 1",
    "poolhost run --pages 1 --slice 100",
    "poolhost run --pages 1 --workers 2",
    "poolhost run --pages 1 --workers 4 --slice 100",
    "poolhost run --pages 1 --workers 16",
    "poolhost run --pages 1 --workers 16 --slice 100",
];

const LAST: &str = "\n1000 refused retired\nretire m19 done\n";

#[test]
fn many_retire_lines_have_one_report(rt: HostRuntime) {
    let mut text = String::new(rt.alloc());
    let mut written = String::new(rt.alloc());
    push_large(&rt, &mut text, &mut written);
    assert!(rt; written.as_str().ends_with(LAST));
    for &line in &MANY {
        check_text(&rt, rt.alloc(), line, text.as_str(), written.as_str());
    }
}

// Pushes the export of a memory under the digits of a number, the last one first.
fn push_export<R: Abort>(rt: &R, text: &mut String, number: u32) {
    text.push_str("05").expect(rt, "memory");
    let mut digits = number;
    for _ in 0..5 {
        write!(text, "3{}", digits % 10).expect(rt, "memory");
        digits /= 10;
    }
    text.push_str("0200").expect(rt, "memory");
}

// Pushes a module whose memory is exported under 100,000 names, the last one first.
fn push_exports<R: Abort>(rt: &R, text: &mut String) {
    text.push_str("module m 0061736d0100000005030100000785eab08000a08d868000")
        .expect(rt, "memory");
    for number in (0..100_000).rev() {
        push_export(rt, text, number);
    }
    text.push_str("\n").expect(rt, "memory");
}

#[test]
fn many_names_are_exported(rt: HostRuntime) {
    let mut text = String::new(rt.alloc());
    push_exports(&rt, &mut text);
    check_text(
        &rt,
        rt.alloc(),
        "poolhost run",
        text.as_str(),
        "module m ok\n",
    );
}

// Pushes the lines of 4,096 modules, and the calls of them in turn.
fn push_calls<R: Abort>(rt: &R, text: &mut String) {
    for k in 0..4_096 {
        write!(
            text,
            "module m{k} 0061736d0100000001070160027f7f017f030201000707010361646400000a09010700200020016a0b\n"
        )
        .expect(rt, "memory");
    }
    for k in 0..MOST_CALLS {
        write!(text, "call m{} add 4 i32:{k} i32:1\n", k % 4_096).expect(rt, "memory");
    }
}

const LAST_CALLS: &[u8] = b"\n999999 ok i32:999999\n1000000 ok i32:1000000\n";

// The last calls of a file that has as many as it may.
#[test]
fn as_many_calls_as_a_file_may_have_are_answered(rt: HostRuntime) {
    let mut text = String::new(rt.alloc());
    push_calls(&rt, &mut text);
    let run = over("poolhost run", text.as_str(), "");
    let (status, sink) = ended(&rt, rt.alloc(), &run, &OpenGate);
    assert_eq!(rt; status, 0);
    assert!(rt; sink.bytes().ends_with(LAST_CALLS));
}
