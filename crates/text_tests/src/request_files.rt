//! Texts and what is read from them.
use pool_limits::{Numbers, PoolConfig};
use request_text::{Directive, Invocation, ParseFault, Reason, Requests, parse, write_text_fault};
use std::alloc::Global;
use std::process::Abort;
use wasm_values::Profile;

// Four totals that differ, so that each share is seen to be compared with its own: tenants may want 4, 5, 6 and 7.
const NUMBERS: Numbers = Numbers {
    workers: 2,
    instances: 6,
    memories: 7,
    tables: 8,
    warm: 7,
    batch: 4,
    pages: 32,
    elements: 1_024,
    depth: 128,
    frame: 1_024,
};

fn push<R: Abort>(rt: &R, text: &mut String, more: &str) {
    text.push_str(more).expect(rt, "memory");
}

// Pushes characters.
fn push_name<R: Abort>(rt: &R, text: &mut String, name: &[u8]) {
    for byte in name {
        text.push(char::from(*byte)).expect(rt, "memory");
    }
}

// Pushes bytes in hex.
fn push_hex<R: Abort>(rt: &R, text: &mut String, bytes: &[u8]) {
    for byte in bytes {
        write!(text, "{byte:02x}").expect(rt, "memory");
    }
}

// Pushes a call: its module's place, its export, its fuel, its request if it has one, and its arguments.
fn push_invocation<R: Abort>(rt: &R, text: &mut String, module: u32, invocation: &Invocation) {
    let directive = match &invocation.request {
        None => "call",
        Some(_) => "send",
    };
    write!(text, "{directive} {module} ").expect(rt, "memory");
    push_name(rt, text, invocation.export.as_slice());
    write!(text, " {}", invocation.fuel).expect(rt, "memory");
    if let Some(request) = &invocation.request {
        push(rt, text, " =");
        push_hex(rt, text, request.bytes());
    }
    for arg in invocation.args.as_slice() {
        write!(text, " {arg:?}").expect(rt, "memory");
    }
}

// Pushes a directive as one line: a module's name and bytes, a call, behind its tenant's number if that isn't 0 and `retired` if its
// module is, or a retired module's place and name.
fn push_directive<R: Abort>(rt: &R, text: &mut String, directive: &Directive) {
    match directive {
        Directive::Module { name, bytes } => {
            push(rt, text, "module ");
            push_name(rt, text, name.as_slice());
            push(rt, text, " ");
            push_hex(rt, text, bytes.as_slice());
        }
        Directive::Call {
            tenant,
            module,
            retired,
            invocation,
        } => {
            if *tenant != 0 {
                write!(text, "for {tenant}: ").expect(rt, "memory");
            }
            push(rt, text, if *retired { "retired: " } else { "" });
            push_invocation(rt, text, *module, invocation);
        }
        Directive::Retire { module, name } => {
            write!(text, "retire {module} ").expect(rt, "memory");
            push_name(rt, text, name.as_slice());
        }
    }
    push(rt, text, "\n");
}

// Pushes what was read, line by line.
fn push_requests<R: Abort>(rt: &R, text: &mut String, requests: &Requests) {
    let profile = match requests.profile() {
        Profile::One => "",
        Profile::Two => "profile 2\n",
        Profile::Three => "profile 3\n",
    };
    push(rt, text, profile);
    push(rt, text, if requests.runs_whole() { "whole\n" } else { "" });
    for want in requests.wants() {
        write!(text, "wants {} {} ", want.instances, want.memories).expect(rt, "memory");
        write!(text, "{} {}\n", want.tables, want.warm).expect(rt, "memory");
    }
    for directive in requests.directives() {
        push_directive(rt, text, directive);
    }
}

// Pushes what was read, or the fault.
fn push_parsed<R: Abort>(rt: &R, text: &mut String, parsed: &Result<Requests, ParseFault>) {
    match parsed {
        Ok(requests) => push_requests(rt, text, requests),
        Err(fault) => write!(text, "{fault}").expect(rt, "memory"),
    }
}

// What is read of a text, line by line, or the fault.
fn described<R: Abort>(rt: &R, alloc: Global, config: &PoolConfig, text: &[u8]) -> String {
    let mut lines = String::new(alloc);
    let parsed = parse(alloc, config, text);
    push_parsed(rt, &mut lines, &parsed);
    lines
}

// Texts, and what is read of them.
static CALLS: [(&str, &str); 29] = [
    ("", ""),
    ("module a 00FFab\n", "module a 00ffab\n"),
    (
        "# \x01\x02\n\n   \n  module   a 00 \n#module a 00\nmodule b 01",
        "module a 00\nmodule b 01\n",
    ),
    (
        "module a 00\nmodule b 01\ncall b f 7\ncall a g 0004294967295",
        "module a 00\nmodule b 01\ncall 1 f 7\ncall 0 g 4294967295\n",
    ),
    (
        "module a 00\ncall a f 0 i32:-2147483648 i32:4294967295 i32:-0 i32:007 i32:-1",
        "module a 00\ncall 0 f 0 I32(2147483648) I32(4294967295) I32(0) I32(7) I32(4294967295)\n",
    ),
    (
        "module a 00\ncall a f 0 i64:-9223372036854775808 i64:18446744073709551615 i64:-1",
        "module a 00\ncall 0 f 0 I64(9223372036854775808) I64(18446744073709551615) I64(18446744073709551615)\n",
    ),
    ("call a f 1", "line 1: unknown module"),
    ("#\n\nmodule a 00\tx\nmodule a 0", "line 3: bad byte"),
    ("module a 00\r\n", "line 1: bad byte"),
    ("module a \x7f", "line 1: bad byte"),
    ("Module a 00", "line 1: unknown directive"),
    (" #", "line 1: unknown directive"),
    ("module a", "line 1: bad words"),
    ("module a 00 x", "line 1: bad words"),
    ("module a 00\ncall a f", "line 2: bad words"),
    ("module a 0", "line 1: bad hex"),
    ("module a 0g", "line 1: bad hex"),
    ("module a 00\nmodule a 0", "line 2: bad hex"),
    ("module a 00\nmodule a 00", "line 2: name used twice"),
    ("module a 00\ncall b f -1", "line 2: unknown module"),
    ("module a 00\ncall a f +1 x", "line 2: bad fuel"),
    ("module a 00\ncall a f 4294967296", "line 2: bad fuel"),
    (
        "module a 00\ncall a f 1 i32:4294967296",
        "line 2: bad argument",
    ),
    (
        "module a 00\ncall a f 1 i32:-2147483649",
        "line 2: bad argument",
    ),
    (
        "module a 00\ncall a f 1 i64:18446744073709551616",
        "line 2: bad argument",
    ),
    (
        "module a 00\ncall a f 1 i64:-9223372036854775809",
        "line 2: bad argument",
    ),
    ("module a 00\ncall a f 1 i32:", "line 2: bad argument"),
    ("module a 00\ncall a f 1 i32:+1", "line 2: bad argument"),
    (
        "module a 00\ncall a f 1 i32:1 f32:1",
        "line 2: bad argument",
    ),
];

// Files that name a profile, and what each is read as or why it is refused.
static PROFILES: [(&str, &str); 11] = [
    (
        "# first\n\n profile 2\nmodule a 00",
        "profile 2\nmodule a 00\n",
    ),
    ("profile 1\nmodule a 00", "module a 00\n"),
    ("module a 00\nprofile 2", "line 2: late profile"),
    ("profile 1\nprofile 2", "line 2: late profile"),
    ("module a 00\nprofile", "line 2: late profile"),
    ("profile 9", "line 1: bad profile"),
    ("profile", "line 1: bad profile"),
    ("profile 02", "line 1: bad profile"),
    ("profile 1 2", "line 1: bad profile"),
    ("profile 2\t", "line 1: bad byte"),
    ("profiles 2", "line 1: unknown directive"),
];

// Files with calls that are sent bytes, and what each is read as or why it is refused.
static REQUESTS: [(&str, &str); 10] = [
    (
        "profile 3\nmodule a 00\nsend a f 7 00fFaB i32:1\nsend a f 0 -\ncall a - 1",
        "profile 3\nmodule a 00\nsend 0 f 7 =00ffab I32(1)\nsend 0 f 0 =\ncall 0 - 1\n",
    ),
    ("module a 00\nsend a f 1 -", "line 2: unknown directive"),
    (
        "profile 2\nmodule a 00\nsend a f 1 -",
        "line 3: unknown directive",
    ),
    ("profile 3\nmodule a 00\nsend a f 1", "line 3: bad words"),
    ("profile 3\nsend a f x 0 x", "line 2: unknown module"),
    ("profile 3\nmodule a 00\nsend a f x 0 x", "line 3: bad fuel"),
    (
        "profile 3\nmodule a 00\nsend a f 1 0 x",
        "line 3: bad request",
    ),
    (
        "profile 3\nmodule a 00\nsend a f 1 0g",
        "line 3: bad request",
    ),
    (
        "profile 3\nmodule a 00\nsend a f 1 -- x",
        "line 3: bad request",
    ),
    (
        "profile 3\nmodule a 00\nsend a f 1 - x",
        "line 3: bad argument",
    ),
];

// Files with tenants, and what each is read as or why it is refused. A call is that of the tenant that was named last.
static TENANTS: [(&str, &str); 6] = [
    ("profile 4\n", "profile 3\nwhole\n"),
    (
        "profile 4\ntenant a 1 2 3 4\ntenant b 003 3 3 0",
        "profile 3\nwhole\nwants 1 2 3 4\nwants 3 3 3 0\n",
    ),
    (
        "profile 4\ntenant a 1 1 1 3\n tenant  b 1 1 1 4 ",
        "profile 3\nwhole\nwants 1 1 1 3\nwants 1 1 1 4\n",
    ),
    (
        "profile 4\nmodule a 00\ncall a f 0\ntenant a 1 1 1 0\ncall a f 1",
        "profile 3\nwhole\nwants 1 1 1 0\nmodule a 00\ncall 0 f 0\ncall 0 f 1\n",
    ),
    (
        "profile 4\nmodule m 00\ntenant a 1 1 1 0\ntenant b 1 1 1 0\nfor b\ncall m f 1\nsend m f 2 -\ncall m f 3\nfor a\ncall m f 4\nfor b\nfor b\ncall m f 5",
        "profile 3\nwhole\nwants 1 1 1 0\nwants 1 1 1 0\nmodule m 00\nfor 2: call 0 f 1\nfor 2: send 0 f 2 =\nfor 2: call 0 f 3\nfor 1: call 0 f 4\nfor 2: call 0 f 5\n",
    ),
    (
        "profile 4\ntenant a 1 1 1 0\nfor a\nmodule m 00\ntenant b 1 1 1 0\ncall m f 1\n#for b\n\ncall m f 2",
        "profile 3\nwhole\nwants 1 1 1 0\nwants 1 1 1 0\nmodule m 00\nfor 1: call 0 f 1\nfor 1: call 0 f 2\n",
    ),
];

// Texts that name tenants, and their first bad line.
static BAD_TENANTS: [(&str, &str); 34] = [
    ("tenant a 1 1 1 0", "line 1: unknown directive"),
    ("profile 3\ntenant a 1 1 1 0", "line 2: unknown directive"),
    ("profile 3\nfor a", "line 2: unknown directive"),
    ("profile 4\ntenants a 1 1 1 0", "line 2: unknown directive"),
    ("profile 4\nFor a", "line 2: unknown directive"),
    (
        "profile 4\ntenant a 1 1 1 0\nprofile 4",
        "line 3: late profile",
    ),
    ("profile 6\ntenant a 1 1 1 0", "line 1: bad profile"),
    ("profile 4\n\ntenant a 1 1 1", "line 3: bad words"),
    ("profile 4\ntenant a 1 1 1 0 0", "line 2: bad words"),
    ("profile 4\nfor", "line 2: bad words"),
    ("profile 4\nfor a a", "line 2: bad words"),
    ("profile 4\nfor a\t", "line 2: bad byte"),
    ("profile 4\ntenant a 0 1 1 0", "line 2: bad share"),
    ("profile 4\ntenant a 1 0 1 0", "line 2: bad share"),
    ("profile 4\ntenant a 1 1 0 0", "line 2: bad share"),
    ("profile 4\ntenant a 1025 1 1 0", "line 2: bad share"),
    ("profile 4\ntenant a 1 1025 1 0", "line 2: bad share"),
    ("profile 4\ntenant a 1 1 1025 0", "line 2: bad share"),
    ("profile 4\ntenant a 1 1 1 1025", "line 2: bad share"),
    ("profile 4\ntenant a +1 1 1 0", "line 2: bad share"),
    ("profile 4\ntenant a 1 1 1 -0", "line 2: bad share"),
    ("profile 4\ntenant a 1024 1 1 0", "line 2: share too large"),
    ("profile 4\ntenant a 1 1 1 1024", "line 2: share too large"),
    ("profile 4\ntenant a 5 1 1 0", "line 2: share too large"),
    ("profile 4\ntenant a 1 6 1 0", "line 2: share too large"),
    ("profile 4\ntenant a 1 1 7 0", "line 2: share too large"),
    ("profile 4\ntenant a 1 1 1 8", "line 2: share too large"),
    (
        "profile 4\ntenant a 3 1 1 0\ntenant b 2 1 1 0",
        "line 3: share too large",
    ),
    (
        "profile 4\ntenant a 1 1 1 4\ntenant b 1 1 1 4",
        "line 3: share too large",
    ),
    (
        "profile 4\ntenant a 1 1 1 0\ntenant a 0 1 1 0",
        "line 3: bad share",
    ),
    (
        "profile 4\ntenant a 1 1 1 0\ntenant a 9 1 1 0",
        "line 3: name used twice",
    ),
    (
        "profile 4\nmodule a 00\ntenant b 1 1 1 0\nfor a",
        "line 4: unknown tenant",
    ),
    (
        "profile 4\nfor a\ntenant a 1 1 1 0",
        "line 2: unknown tenant",
    ),
    (
        "profile 4\ntenant a 1 1 1 0\nfor a\nfor 0",
        "line 4: unknown tenant",
    ),
];

// Texts that retire modules, which they may from profile 5 on, and what is read of them.
static RETIREMENTS: [(&str, &str); 20] = [
    (
        "profile 5\nmodule a 00\ncall a f 1\nretire a\ncall a f 2\n retire  b ",
        "line 6: unknown module",
    ),
    (
        "profile 5\nmodule a 00\nmodule b 01\ncall a f 1\n retire  b \ncall a f 2\ncall b f 3\nretire a\ncall b f 4\ncall a f 5\nmodule c 02\ncall c f 6\nretire c",
        "profile 3\nwhole\nmodule a 00\nmodule b 01\ncall 0 f 1\nretire 1 b\ncall 0 f 2\nretired: call 1 f 3\nretire 0 a\nretired: call 1 f 4\nretired: call 0 f 5\nmodule c 02\ncall 2 f 6\nretire 2 c\n",
    ),
    (
        "profile 5\ntenant t 1 1 1 0\nmodule a 00\nfor t\nretire a\nsend a f 1 0a",
        "profile 3\nwhole\nwants 1 1 1 0\nmodule a 00\nretire 0 a\nfor 1: retired: send 0 f 1 =0a\n",
    ),
    (
        "profile 5\ntenant t 1 1 1 0\nretire t",
        "line 3: unknown module",
    ),
    ("profile 5\nretire a\nmodule a 00", "line 2: unknown module"),
    ("profile 5\nmodule a 00\nretire A", "line 3: unknown module"),
    (
        "profile 5\nmodule a 00\nretire a\nretire a",
        "line 4: retired twice",
    ),
    (
        "profile 5\nmodule a 00\nmodule b 00\nretire b\nretire a\n#\nretire b",
        "line 7: retired twice",
    ),
    (
        "profile 5\nmodule a 00\nretire a\nretire a a",
        "line 4: bad words",
    ),
    ("profile 5\nretire", "line 2: bad words"),
    ("profile 5\nretire b b", "line 2: bad words"),
    ("profile 5\nretire a\t", "line 2: bad byte"),
    ("profile 5\nRetire a", "line 2: unknown directive"),
    (
        "profile 5\nmodule a 00\nretire a\nmodule a 00",
        "line 4: name used twice",
    ),
    (
        "profile 5\nmodule a 00\nretire a\nprofile 5",
        "line 4: late profile",
    ),
    ("\nmodule a 00\nretire a", "line 3: unknown directive"),
    (
        "profile 1\nmodule a 00\nretire a",
        "line 3: unknown directive",
    ),
    (
        "profile 2\nmodule a 00\nretire a",
        "line 3: unknown directive",
    ),
    (
        "profile 3\nmodule a 00\nretire a",
        "line 3: unknown directive",
    ),
    (
        "profile 4\nmodule a 00\nretire a",
        "line 3: unknown directive",
    ),
];

// The configuration of these numbers.
fn config<R: Abort>(rt: &R) -> PoolConfig {
    PoolConfig::new(NUMBERS).expect(rt, "in range")
}

fn check_texts<R: Abort>(rt: &R, alloc: Global, rows: &[(&str, &str)]) {
    let config = config(rt);
    for (text, want) in rows {
        let got = described(rt, alloc, &config, text.as_bytes());
        assert_eq!(rt; got.as_str(), *want, "of {text}");
    }
}

#[test]
fn modules_and_calls_are_read_or_refused_at_the_first_bad_line(rt: HostRuntime) {
    check_texts(&rt, rt.alloc(), &CALLS);
}

#[test]
fn a_profile_is_read_or_refused_at_the_first_bad_line(rt: HostRuntime) {
    check_texts(&rt, rt.alloc(), &PROFILES);
}

#[test]
fn requests_are_read_or_refused_at_the_first_bad_line(rt: HostRuntime) {
    check_texts(&rt, rt.alloc(), &REQUESTS);
}

#[test]
fn tenants_are_read_or_refused_at_the_first_bad_line(rt: HostRuntime) {
    check_texts(&rt, rt.alloc(), &TENANTS);
    check_texts(&rt, rt.alloc(), &BAD_TENANTS);
}

#[test]
fn modules_are_retired_from_profile_5_on(rt: HostRuntime) {
    check_texts(&rt, rt.alloc(), &RETIREMENTS);
}

// A file of 1,048,576 modules, `m0` to `m1048575`, and a line.
fn most_modules<R: Abort>(rt: &R, alloc: Global, last: &str) -> String {
    let mut text = String::new(alloc);
    for k in 0..1_048_576 {
        write!(text, "module m{k} 00\n").expect(rt, "memory");
    }
    push(rt, &mut text, last);
    text
}

// The place of the module of the last call.
fn last_place(requests: &Requests) -> Option<u32> {
    match requests.directives().last() {
        Some(Directive::Call { module, .. }) => Some(*module),
        _ => None,
    }
}

// What is read of the last call behind as many modules, or the fault.
fn last_read<R: Abort>(rt: &R, alloc: Global, last: &str) -> Result<Option<u32>, ParseFault> {
    let config = config(rt);
    let text = most_modules(rt, alloc, last);
    let requests = parse(alloc, &config, text.as_bytes())?;
    Ok(last_place(&requests))
}

#[test]
fn as_many_modules_as_a_file_may_have_are_read(rt: HostRuntime) {
    let read = last_read(&rt, rt.alloc(), "call m1048575 f 1\n");
    assert_eq!(rt; read, Ok(Some(1_048_575)));
}

#[test]
fn one_module_more_is_refused(rt: HostRuntime) {
    let read = last_read(&rt, rt.alloc(), "module m 00");
    let (line, reason) = (1_048_577, Reason::TooManyModules);
    assert_eq!(rt; read, Err(ParseFault::TextFault { line, reason }));
}

#[test]
fn a_refusal_is_appended(rt: HostRuntime) {
    let mut out = Vec::from_slice(rt.alloc(), b"a\n").expect(&rt, "memory");
    write_text_fault(rt.alloc(), &mut out, 2, Reason::BadArgument).expect(&rt, "memory");
    assert!(rt; out.as_slice() == b"a\nline 2: bad argument\n".as_slice());
}
