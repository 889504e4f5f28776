//! Rows in pieces, and their counts as text.

use std::test::Fail;
use wsm_row_counts::Lines;

#[test]
fn counts_rows_in_pieces(rt: HostRuntime) -> Result<(), Fail> {
    let mut lines = Lines::new(rt.alloc());
    lines.take(b"pane,on_time,a,0,60,2,10\nrefu")?;
    lines.take(b"sed,7,BadTag\nrefused,9,BadTime\nrefused,12,BadTag\n\xff\nend,12")?;
    let mut text = Vec::new(rt.alloc());
    let counts = lines.counts();
    counts
        .kinds
        .write("rows_total", "Rows by their first word.", &mut text)?;
    counts
        .refused
        .write("refused_total", "Refused rows.", &mut text)?;
    assert_eq!(rt;
        str::from_utf8(&text),
        Ok(
            "# HELP rows_total Rows by their first word.\n\
          # TYPE rows_total counter\n\
          rows_total{word=\"pane\"} 1\n\
          rows_total{word=\"refused\"} 3\n\
          # HELP refused_total Refused rows.\n\
          # TYPE refused_total counter\n\
          refused_total{word=\"BadTag\"} 2\n\
          refused_total{word=\"BadTime\"} 1\n"
        )
    );
    Ok(())
}
