//! One run, since no contract says that memory is had.

use std::test::Fail;
use wsm_admission::Clock;
use wsm_doubles::Doubles;
use wsm_windows::Shape;

const CLOCK: Clock = Clock {
    start: 0,
    skew: 100,
    lateness: 10,
    from_window: false,
    records: 1000,
};

// Each of 20,000 records comes with the watermark at its time, so that few of them may count at a time.
#[test]
fn few_are_kept(rt: HostRuntime) -> Result<(), Fail> {
    let shape = Shape::Fixed(60);
    let mut doubles = Doubles::new(rt.alloc());
    for number in 0..20_000u64 {
        let text = format!(in rt.alloc(); "order {number}")?;
        let time = number as i64;
        let passes = doubles.pass(text.as_bytes(), time, &CLOCK, &shape, time)?;
        assert!(rt; passes);
    }
    assert!(rt; doubles.len() <= 4096);
    let last = b"order 19999";
    let known = doubles.pass(last, 19_999, &CLOCK, &shape, 20_009)?;
    assert!(rt; !known);
    let forgotten = doubles.pass(last, 19_999, &CLOCK, &shape, 20_010)?;
    assert!(rt; forgotten);
    Ok(())
}
