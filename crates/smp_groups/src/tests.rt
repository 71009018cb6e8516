//! What is counted and answered.

use crate::Counts;
use smp_model::{Reply, Request};

#[test]
fn counted_and_answered(rt: HostRuntime) {
    let mut counts = Counts::default();
    counts.drop_one();
    counts.reply(false);
    assert_eq!(rt;
        counts.answer(&Request::Echo("hi")),
        Some(Reply::Echo("hi"))
    );
    assert_eq!(rt; counts.answer(&Request::Reset), Some(Reply::Empty));
    assert_eq!(rt;
        counts.answer(&Request::Parameters),
        Some(Reply::Parameters)
    );
    assert_eq!(rt; counts.answer(&Request::StatList), Some(Reply::StatList));
    assert_eq!(rt; counts.answer(&Request::ImageList), None);
    let numbers = Reply::StatGroup {
        handled: 1,
        dropped: 1,
        errors: 0,
    };
    assert_eq!(rt; counts.answer(&Request::StatGroup("smp")), Some(numbers));
    let unknown = Reply::GroupError {
        group: 2,
        number: 2,
    };
    assert_eq!(rt; counts.answer(&Request::StatGroup("smp2")), Some(unknown));
}

#[test]
fn numbers_stay_at_the_greatest(rt: HostRuntime) {
    let mut counts = Counts {
        handled: 4294967295,
        dropped: 4294967294,
        errors: 4294967295,
    };
    counts.reply(true);
    counts.drop_one();
    counts.drop_one();
    let greatest = Counts {
        handled: 4294967295,
        dropped: 4294967295,
        errors: 4294967295,
    };
    assert_eq!(rt; counts, greatest);
}
