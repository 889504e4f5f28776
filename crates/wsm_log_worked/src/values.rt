//! Local times by the table of a zone.

use std::alloc::Global;
use std::test::Fail;
use wsm_values::{Fold, LocalForm, TimeForm, Unit, Word, Zone, ZoneFault, time_of};

// Berlin in 2026: the two nights at which its clocks change, and the rule for what comes after.
const BERLIN: [u8; 165] = *b"TZif2\0\0\0\0\0\0\0\0\0\0\0\0\0\0\0\
    \0\0\0\0\0\0\0\0\0\0\0\0\0\0\0\0\0\0\0\x01\0\0\0\x04\
    \0\0\x0e\x10\0\0CET\0\
    TZif2\0\0\0\0\0\0\0\0\0\0\0\0\0\0\0\
    \0\0\0\0\0\0\0\0\0\0\0\0\0\0\0\x02\0\0\0\x02\0\0\0\x09\
    \0\0\0\0i\xc8y\x90\0\0\0\0j\xddT\x90\x01\0\
    \0\0\x0e\x10\0\0\0\0\x1c \x01\x04CET\0CEST\0\
    \nCET-1CEST,M3.5.0,M10.5.0/3\n";

// A day and a time in Berlin.
fn there(alloc: Global, fold: Fold) -> Result<TimeForm, Fail> {
    let zone = match Zone::of_table(alloc, &BERLIN) {
        Ok(zone) => zone,
        Err(_) => return Err(Fail::from("no zone")),
    };
    Ok(TimeForm::Local(LocalForm {
        pattern: Word::new(alloc, "%Y-%m-%d %H:%M")?,
        fold,
        zone,
    }))
}

// By the table in 2026, and by the rule behind it. Each number is that of Python's zoneinfo for these bytes.
#[test]
fn odd_nights(rt: HostRuntime) -> Result<(), Fail> {
    let refused = there(rt.alloc(), Fold::Refused)?;
    let first = there(rt.alloc(), Fold::First)?;
    let second = there(rt.alloc(), Fold::Second)?;
    let cases = [
        ("2025-12-31 23:59", Some(1_767_221_940), Some(1_767_221_940)),
        ("2026-03-29 01:59", Some(1_774_745_940), Some(1_774_745_940)),
        ("2026-03-29 02:30", None, None),
        ("2026-03-29 03:00", Some(1_774_746_000), Some(1_774_746_000)),
        ("2026-10-25 02:30", Some(1_792_888_200), Some(1_792_891_800)),
        ("2026-10-25 03:00", Some(1_792_893_600), Some(1_792_893_600)),
        ("2027-03-28 02:30", None, None),
        ("2027-03-28 03:00", Some(1_806_195_600), Some(1_806_195_600)),
        ("2027-10-31 02:30", Some(1_824_942_600), Some(1_824_946_200)),
    ];
    for (text, early, late) in cases {
        let once = if early == late { early } else { None };
        assert_eq!(rt; time_of(&refused, Unit::Seconds, text), once, "at {text}");
        assert_eq!(rt;
            time_of(&first, Unit::Seconds, text),
            early,
            "the first at {text}"
        );
        assert_eq!(rt;
            time_of(&second, Unit::Seconds, text),
            late,
            "the second at {text}"
        );
    }
    Ok(())
}

// Bytes that are cut off are no zone.
#[test]
fn no_table(rt: HostRuntime) {
    let refused = Zone::of_table(rt.alloc(), &BERLIN[..164]);
    assert!(rt; matches!(refused, Err(ZoneFault::NoTable)));
}
