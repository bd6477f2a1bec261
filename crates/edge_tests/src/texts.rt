//! What faults are called.
use command_line::WordsFault;
use host_edge::Failed;
use job_queue::Stray;

#[test]
fn faults_have_their_texts(rt: HostRuntime) {
    let text = format!(in rt.alloc();
        "{}; {}; {}; {}; {}",
        Failed,
        Stray::Double(1),
        Stray::Stranger(2),
        WordsFault::Refused,
        WordsFault::NoMemory
    )
    .expect(&rt, "memory");
    assert_eq!(rt;
        text.as_str(),
        "the stream failed; call 1 was collected before; there is no call 2; refused words; out of memory"
    );
}
