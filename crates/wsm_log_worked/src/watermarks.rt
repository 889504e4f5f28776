//! One run of each, since no contract says that memory is had.

use std::test::Fail;
use wsm_watermarks::{Held, MOST_STAMPS, Rule, Stamp, Timed, Watermarks};

const RULE: Rule = Rule {
    agree: 2,
    forget: 1000,
    bound: 20,
    step: 10,
    start: 0,
};

#[test]
fn two_clocks_agree(rt: HostRuntime) -> Result<(), Fail> {
    let mut watermarks = Watermarks::open(rt.alloc(), 3, RULE)?;
    let stamps = [
        (0, 100, None),
        (1, 31_536_090, Some(80)),
        (2, 95, None),
        (2, 114, Some(90)),
    ];
    for (clock, time, raised) in stamps {
        if clock < watermarks.clocks() && watermarks.heard() < MOST_STAMPS {
            assert_eq!(rt; watermarks.tell(Stamp { clock, time }), raised);
        }
    }
    assert_eq!(rt; watermarks.heard(), 4);
    watermarks.note(85);
    assert_eq!(rt; watermarks.mark(), 90);
    Ok(())
}

// There is room for one: the later one goes on.
#[test]
fn rows_wait(rt: HostRuntime) -> Result<(), Fail> {
    let mut held = Held::open(rt.alloc(), 1)?;
    assert_eq!(rt; held.put(Timed { time: 500, row: 1 }), None);
    assert_eq!(rt;
        held.put(Timed { time: 300, row: 2 }),
        Some(Timed { time: 500, row: 1 })
    );
    assert_eq!(rt; held.next(200, 50), None);
    assert_eq!(rt; held.next(250, 50), Some(Timed { time: 300, row: 2 }));
    Ok(())
}
