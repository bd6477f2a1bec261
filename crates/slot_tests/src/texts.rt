//! What errors say.
use initial_image::{Misfit, SegmentIndex};
use module_store::LoadFault;
use pool_limits::{BadNumber, Measure, Over, Part, PlanFault, Setting};

#[test]
fn errors_are_told_in_words(rt: HostRuntime) {
    let number = BadNumber {
        which: Setting::Batch,
        value: 0,
    };
    let shares = PlanFault::Over {
        kind: Part::Warm,
        sum: 3,
        total: 2,
    };
    let frame = LoadFault::OverLimit(Over {
        which: Measure::Frame(3),
        value: 1_025,
        limit: 1_024,
    });
    let data = LoadFault::Segment(Misfit {
        which: SegmentIndex::Data(0),
        end: 65_537,
        size: 65_536,
    });
    let told = format!(in rt.alloc(); "{number}\n{shares}\n{frame}\n{data}").expect(&rt, "room");
    let want =
        "the number 0 of Batch is out of range\nWarm: 3 is too much of 2\nFrame(3): 1025 is past the limit of 1024\n\
        Data(0) ends at 65537, past the size 65536";
    assert_eq!(rt; told.as_str(), want);
}
