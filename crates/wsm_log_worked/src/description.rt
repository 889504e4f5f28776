//! Sources that are read, and refusals as they are told of.

use std::test::Fail;
use wsm_description::{Format, describe};

// The text of the refusal of a source.
fn refusal_of(rt: &HostRuntime, text: &str) -> Result<String, Fail> {
    match describe(rt.alloc(), text) {
        Ok(_) => Ok(String::new(rt.alloc())),
        Err(refusal) => Ok(format!(in rt.alloc(); "{refusal}")?),
    }
}

#[test]
fn told(rt: HostRuntime) -> Result<(), Fail> {
    let cases = [
        ("format = \"json\"\nlongest = \n", "L1 NotToml at 2:11"),
        (
            "format = \"json\"\n  colour = 1\n",
            "L2 UnknownKey in colour at 2:3",
        ),
        (
            "format = \"json\"\n[key]\nnames = \"n.csv\"\n",
            "L3 MissingKey in key.at at 2:1",
        ),
        (
            "format = \"json\"\nkey = { at = \"k\", prefixes = { \"/a\" = 1 } }\n",
            "L4 BadType in key.prefixes./a at 2:1",
        ),
        ("", "L3 MissingKey in format"),
    ];
    for (text, want) in cases {
        assert_eq!(rt; refusal_of(&rt, text)?.as_str(), want);
    }
    Ok(())
}

#[test]
fn described(rt: HostRuntime) -> Result<(), Fail> {
    let text = "format = \"csv\"\nkey.at = \"who\"\ntime = { at = \"when\", form = \"seconds\" }\n";
    let description = describe(rt.alloc(), text)?;
    assert_eq!(rt; description.format, Format::Csv(b','));
    assert_eq!(rt; description.longest, 1_048_576);
    assert_eq!(rt; description.key.at.as_str(), "who");
    assert!(rt; description.clock.is_none());
    Ok(())
}
