//! The board of calls and the queue of jobs, each with one item, and the run queue with two.
use job_queue::{Board, Jobs, RunQueue, Stray};
use report_text::CallLine;
use std::marker::Brand;

#[test]
fn a_line_is_collected_once(rt: HostRuntime) {
    let mut board = Board::open(rt.alloc(), 1).expect(&rt, "memory");
    let answers = [
        board.collect(1, CallLine::NoExport),
        board.collect(1, CallLine::NoExport),
        board.collect(2, CallLine::NoExport),
    ];
    assert!(rt; answers == [Ok(()), Err(Stray::Double(1)), Err(Stray::Stranger(2))]);
}

#[test]
fn a_job_is_handed_out_once(rt: HostRuntime) {
    let (jobs, mut putter, mut takers) = Jobs::<u64>::open(rt.alloc(), 7, 1, 1).expect(
        &rt, "memory",
    );
    let mut taker = takers.pop().unwrap();
    jobs.put(&rt, &mut putter, 7, 5);
    let taken = jobs.next(&rt, &mut taker);
    jobs.join_pass(&mut putter, taker);
    let left = jobs.next(&rt, &mut putter);
    assert!(rt; [taken, left] == [Some((7, 5)), None]);
}

#[test]
fn what_is_put_back_comes_behind_what_waits(rt: HostRuntime) {
    let (queue, mut first, mut others) = RunQueue::<u64, Brand>::open(rt.alloc(), 2, 1).expect(
        &rt, "memory",
    );
    let mut second = others.pop().unwrap();
    queue.put(&rt, &mut first, 5);
    queue.put(&rt, &mut first, 6);
    let Some(item) = queue.next(&rt, &mut second) else {
        panic!(rt; "none");
    };
    queue.put(&rt, &mut second, item);
    queue.join_pass(&mut first, second);
    let next = queue.next(&rt, &mut first);
    let again = queue.next(&rt, &mut first);
    let left = queue.next(&rt, &mut first);
    assert!(rt; [Some(item), next, again, left] == [Some(5), Some(6), Some(5), None]);
}
