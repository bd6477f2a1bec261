//! Lines of a report, and its summary.
use report_text::{
    CallLine, ModuleLine, ReportLine, report_text, write_call, write_module, write_retire,
    write_summary,
};
use std::alloc::Global;
use std::process::Abort;
use wasm_values::{Items, Outcome, TrapKind, Val};

static MODULES: [ModuleLine; 6] = [
    ModuleLine::Accepted,
    ModuleLine::Malformed,
    ModuleLine::Unsupported,
    ModuleLine::Invalid,
    ModuleLine::Limit,
    ModuleLine::Segment,
];

static ENDS: [Outcome; 13] = [
    Outcome::Done(None),
    Outcome::Done(Some(Val::I32(5))),
    Outcome::Done(Some(Val::I32(2147483648))),
    Outcome::Done(Some(Val::I64(18446744073709551615))),
    Outcome::Trap(TrapKind::Unreachable),
    Outcome::Trap(TrapKind::Memory),
    Outcome::Trap(TrapKind::Element),
    Outcome::Trap(TrapKind::Uninit),
    Outcome::Trap(TrapKind::Signature),
    Outcome::Trap(TrapKind::Divide),
    Outcome::Trap(TrapKind::Overflow),
    Outcome::Trap(TrapKind::Exhausted),
    Outcome::Fuel,
];

// Their lines: modules, a retirement, and calls from 1 on, the last six refused or answered with bytes.
const APPENDED: &str =
    "module e ok\nmodule e refused malformed\nmodule e refused unsupported\nmodule e refused invalid\n\
    module e refused limit\nmodule e refused segment\nretire e done\n1 ok\n2 ok i32:5\n3 ok i32:-2147483648\n4 ok i64:-1\n\
    5 trap unreachable\n6 trap memory\n7 trap element\n8 trap uninit\n9 trap signature\n10 trap divide\n\
    11 trap overflow\n12 trap exhausted\n13 fuel\n14 refused module\n15 refused export\n16 refused args\n\
    17 ok i32:3 out:00ff\n18 ok out:-\n19 refused retired\n";

fn items<R: Abort>(rt: &R, alloc: Global, bytes: &[u8]) -> Items<u8> {
    Items::new(Vec::from_slice(alloc, bytes).expect(rt, "memory"))
}

fn append_call<R: Abort>(rt: &R, alloc: Global, out: &mut Vec<u8>, number: u32, line: CallLine) {
    write_call(alloc, out, number, &line).expect(rt, "memory");
}

// Appends the lines of modules, of a retirement, and of calls that ended, which are numbered from 1 on.
fn append_ends<R: Abort>(rt: &R, alloc: Global, out: &mut Vec<u8>) {
    for &line in &MODULES {
        write_module(alloc, out, b"e", line).expect(rt, "memory");
    }
    write_retire(alloc, out, b"e").expect(rt, "memory");
    let mut number = 1u32;
    for &end in &ENDS {
        append_call(rt, alloc, out, number, CallLine::Done(end));
        number = number.wrapping_add(1);
    }
}

#[test]
fn lines_are_appended(rt: HostRuntime) {
    let alloc = rt.alloc();
    let mut out = Vec::new(alloc);
    append_ends(&rt, alloc, &mut out);
    append_call(&rt, alloc, &mut out, 14, CallLine::NoModule);
    append_call(&rt, alloc, &mut out, 15, CallLine::NoExport);
    append_call(&rt, alloc, &mut out, 16, CallLine::BadArgs);
    let three = CallLine::Sent(Some(Val::I32(3)), items(&rt, alloc, b"\x00\xff"));
    append_call(&rt, alloc, &mut out, 17, three);
    let none = CallLine::Sent(None, items(&rt, alloc, b""));
    append_call(&rt, alloc, &mut out, 18, none);
    append_call(&rt, alloc, &mut out, 19, CallLine::Retired);
    assert!(rt; out.as_slice() == APPENDED.as_bytes());
}

static FILE_MODULES: [ModuleLine; 5] = [
    ModuleLine::Accepted,
    ModuleLine::Malformed,
    ModuleLine::Accepted,
    ModuleLine::Segment,
    ModuleLine::Limit,
];

static FILE_ENDS: [Outcome; 6] = [
    Outcome::Done(None),
    Outcome::Done(Some(Val::I32(5))),
    Outcome::Trap(TrapKind::Uninit),
    Outcome::Fuel,
    Outcome::Fuel,
    Outcome::Fuel,
];

fn push_call<R: Abort>(rt: &R, lines: &mut Vec<ReportLine>, line: CallLine) {
    lines
        .push(ReportLine::Call { number: 1, line })
        .expect(rt, "memory");
}

// Lines of a report: modules, calls, and a retirement.
fn report<R: Abort>(rt: &R, alloc: Global) -> Vec<ReportLine> {
    let mut lines = Vec::new(alloc);
    for &line in &FILE_MODULES {
        let name = items(rt, alloc, b"calls");
        lines
            .push(ReportLine::Module { name, line })
            .expect(rt, "memory");
    }
    for &end in &FILE_ENDS {
        push_call(rt, &mut lines, CallLine::Done(end));
    }
    push_call(rt, &mut lines, CallLine::NoModule);
    push_call(rt, &mut lines, CallLine::NoExport);
    push_call(rt, &mut lines, CallLine::BadArgs);
    push_call(rt, &mut lines, CallLine::BadArgs);
    push_call(rt, &mut lines, CallLine::Retired);
    push_call(rt, &mut lines, CallLine::Sent(None, items(rt, alloc, b"")));
    let name = items(rt, alloc, b"calls");
    lines
        .push(ReportLine::Retired { name })
        .expect(rt, "memory");
    lines
}

const SUMMARY: &str =
    "before\nmodules ok 2\nmodules refused 3\ncalls ok 3\ncalls trap 1\ncalls fuel 3\ncalls refused 5\n";

const TEXT: &str =
    "module calls ok\nmodule calls refused malformed\nmodule calls ok\nmodule calls refused segment\n\
    module calls refused limit\n1 ok\n1 ok i32:5\n1 trap uninit\n1 fuel\n1 fuel\n1 fuel\n1 refused module\n\
    1 refused export\n1 refused args\n1 refused args\n1 refused retired\n1 ok out:-\nretire calls done\n";

#[test]
fn a_report_has_its_text_and_its_summary(rt: HostRuntime) {
    let alloc = rt.alloc();
    let lines = report(&rt, alloc);
    let mut out = Vec::from_slice(alloc, b"before\n").expect(&rt, "memory");
    write_summary(alloc, &mut out, &lines).expect(&rt, "memory");
    assert!(rt; out.as_slice() == SUMMARY.as_bytes());
    let text = report_text(alloc, lines).expect(&rt, "memory");
    assert!(rt; text.as_slice() == TEXT.as_bytes());
}
