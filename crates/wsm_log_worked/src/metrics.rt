//! Metrics with each kind of value.

use std::test::Fail;
use wsm_metrics::{Kind, Labelled, Metric, Values, metrics_text};

#[test]
fn writes_metrics(rt: HostRuntime) -> Result<(), Fail> {
    let refused = [
        Labelled {
            word: "BadTag",
            value: 3,
        },
        Labelled {
            word: "a \"b\"\\\n",
            value: 0,
        },
    ];
    let metrics = [
        Metric {
            name: "wsm_lines_total",
            help: "Lines of the log.",
            kind: Kind::Counter,
            values: Values::One(18446744073709551615),
        },
        Metric {
            name: "wsm_refused",
            help: "Refused rows\nby \\ word.",
            kind: Kind::Gauge,
            values: Values::By("word", &refused),
        },
    ];
    let text = metrics_text(rt.alloc(), &metrics)?;
    assert_eq!(rt;
        text.as_slice(),
        b"# HELP wsm_lines_total Lines of the log.\n\
          # TYPE wsm_lines_total counter\n\
          wsm_lines_total 18446744073709551615\n\
          # HELP wsm_refused Refused rows\\nby \\\\ word.\n\
          # TYPE wsm_refused gauge\n\
          wsm_refused{word=\"BadTag\"} 3\n\
          wsm_refused{word=\"a \\\"b\\\"\\\\\\n\"} 0\n"
            .as_slice()
    );
    Ok(())
}
