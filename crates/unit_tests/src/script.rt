//! A short script, and the replies that it is to get.
use byte_io::{SliceSource, VecSink};
use replay::replay;
use std::alloc::Global;
use std::test::Fail;

/// A meeting is called, its register is loaded, and a member asks for its own things.
pub(crate) const LINES: &str =
    r#"2026-06-01T09:00:00 OFFICE G1 call {"company":"private","kind":"general","given":"2026-06-01","appointed":"2026-06-18T10:00:00","record":"2026-06-16T18:00:00","resolutions":[["ordinary","Accounts"],["special","New articles"]]}
2026-06-16T18:00:00 OFFICE G1 register {"record":"2026-06-16T18:00:00","rows":[["M1","individual","Ada",100,100]]}
2026-06-16T18:00:01 M1 G1 mine {}
"#;

pub(crate) const REPLIES: &str = r#"{"ok":"called"}
{"ok":"loaded"}
{"authorised":[],"casts":[],"demands":[],"given":[],"meeting":"G1","ok":"mine","persons":[],"present":false,"received":[],"row":{"kind":"individual","name":"Ada","paid":100,"shares":100}}
"#;

/// The bytes of the first line, its line feed among them.
pub(crate) fn first_line() -> usize {
    LINES.find('\n').map_or(0, |place| place.saturating_add(1))
}

/// The first so many lines of the replies.
pub(crate) fn first_replies(alloc: Global, count: usize) -> Result<String, Fail> {
    let mut front = String::new(alloc);
    for line in REPLIES.split_inclusive('\n').take(count) {
        front.push_str(line)?;
    }
    Ok(front)
}

/// What is written for a script.
fn replayed(alloc: Global, script: &str) -> Result<VecSink, Fail> {
    let mut sink = VecSink::new(alloc);
    let outcome = replay(alloc, &mut SliceSource::new(script.as_bytes()), &mut sink);
    if outcome.is_err() {
        return Err("a fault of a device".into());
    }
    Ok(sink)
}

const NO_MEETING: &str = "{\"code\":8,\"refused\":\"NoMeeting\"}\n";

const UNREADABLE: &str = "{\"code\":5,\"refused\":\"Unreadable\"}\n";

const ROUTE: &str = "{\"code\":2,\"refused\":\"Route\"}\n";

/// A script, and the replies to it.
const LAST_LINES: &[(&str, &str)] = &[
    ("", ""),
    ("\n\r\n\n", ""),
    ("\r", UNREADABLE),
    ("2026-06-18T10:00:00 M1 G1 mine {}", NO_MEETING),
    ("2026-06-18T10:00:00 M1 G1 mine {}\r", NO_MEETING),
    ("2026-06-18T10:00:00 M1 G1 mine\r", ROUTE),
    ("\n\r\n2026-06-18T10:00:00 M1 G1 mine", NO_MEETING),
];

// A carriage return with no line feed behind it is a part of the line.
#[test]
fn last_lines_need_no_line_feed(rt: HostRuntime) -> Result<(), Fail> {
    for &(script, wanted) in LAST_LINES {
        let written = replayed(rt.alloc(), script)?;
        assert!(rt; written.as_slice() == wanted.as_bytes(), "{script:?}");
    }
    Ok(())
}
