//! Traces that are audited: of a packet on one switch, and of changes of its policy.
use policy_file::read_file;
use std::alloc::Global;
use std::test::Fail;
use trace_audit::{Verdict, audit};

const TWO_ROWS: &str = "priority,src,dst,sport,dport,proto,action\n\
    100,10.0.0.0/8,any,any,80,tcp,out:3\n\
    50,any,any,any,any,any,drop\n";

/// A change of the two rows.
const CHANGE: &str = "op,priority,src,dst,sport,dport,proto,action\n\
    remove,100\n\
    add,90,10.0.0.0/8,any,any,443,tcp,out:4\n";

const ROW: &str = "row 1: packet s0 10.1.1.1 9.9.9.9 5000 80 tcp\n";

const ENTERED: &str = "  entered 1 s0\n";

const DECIDED: &str = "  decided 1 v1 rule 100 out:3 authority s0 part 0\n";

const LEFT: &str = "  out 1 port 3\n";

const AGAIN: &str = "  submitted file 1 version 2\n";

const RETIRED: &str = "  retired 1\n";

/// Traces under the two rows.
const GOOD: [&[&str]; 8] = [
    &[],
    &[ROW, ENTERED, DECIDED, LEFT, "meter port 3 notes 1\n"],
    // retired after the packet's entry
    &[ROW, ENTERED, AGAIN, RETIRED, DECIDED, LEFT],
    &[
        ROW,
        "  closed 9 a\n",
        "  entered 999999999 a-name-of-16-let\n",
    ],
    &[ROW, ENTERED, "  decided 1 v1 rule 100 out:3 cache \n", LEFT],
    &[
        "row 1: packet s0 11.0.0.1 9.9.9.9 5000 80 6\n",
        ENTERED,
        "  decided 1 v1 rule 50 drop cache 7\n",
        "  dropped 1\n",
    ],
    &[ROW, ENTERED, "  stuck 1 \n"],
    &["row 0:  packet\n", "row \n", "  nothing\n", "quiet \n"],
];

/// Traces under the two rows, each with the number of its first bad line.
const BAD: [(&[&str], u32); 44] = [
    // no header is pending, or none any longer
    (&[ENTERED], 1),
    (&[ROW, "row 2: hop 1\n", ENTERED], 3),
    (&[ROW, ENTERED, "  entered 2 s0\n"], 3),
    (
        &["row 1:  packet s0 10.1.1.1 9.9.9.9 5000 80 tcp\n", ENTERED],
        2,
    ),
    // known already
    (&[ROW, ENTERED, ROW, ENTERED], 4),
    // decided otherwise, twice, or by a version that doesn't exist or was retired at the entry
    (
        &[ROW, ENTERED, "  decided 1 v1 rule 100 out:4 authority s0\n"],
        3,
    ),
    (
        &[ROW, ENTERED, "  decided 1 v1 rule 50 drop authority s0\n"],
        3,
    ),
    (
        &[
            ROW,
            ENTERED,
            "  decided 1 v1 rule 0100 out:3 authority s0\n",
        ],
        3,
    ),
    (&[ROW, ENTERED, DECIDED, DECIDED, LEFT], 4),
    (
        &[ROW, ENTERED, "  decided 1 v0 rule 100 out:3 authority s0\n"],
        3,
    ),
    (
        &[ROW, ENTERED, "  decided 1 v2 rule 100 out:3 authority s0\n"],
        3,
    ),
    (&[AGAIN, RETIRED, ROW, ENTERED, DECIDED, LEFT], 5),
    (&[ROW, ENTERED, "  lost 1\n", DECIDED], 4),
    // ends that the decision doesn't say, or a second one
    (&[ROW, ENTERED, LEFT], 3),
    (&[ROW, ENTERED, DECIDED, "  dropped 1\n"], 4),
    (&[ROW, ENTERED, DECIDED, "  out 1 port 4\n"], 4),
    (&[ROW, ENTERED, DECIDED, LEFT, LEFT], 5),
    // versions out of order, and files that don't exist
    (&["  submitted file 1 version 3\n"], 1),
    (&["  submitted file 0 version 2\n"], 1),
    (&["  submitted file 2 version 2\n"], 1),
    (&[RETIRED], 1),
    (&[AGAIN, "  retired 2\n"], 2),
    (&[AGAIN, RETIRED, RETIRED], 3),
    // rows of a packet of another form
    (&["row 1: packet s0 10."], 1),
    (&["row 1: packet\n"], 1),
    (&["row 0: packet s0 10.1.1.1 9.9.9.9 5000 80 tcp\n"], 1),
    (&["row 100001: packet s0 10.1.1.1 9.9.9.9 5000 80 tcp\n"], 1),
    (&["row 1: packet s0 10.1.1.1 9.9.9.9 05000 80 tcp\n"], 1),
    (&["row 1: packet s0 10.1.1.1 9.9.9.9 5000 any tcp\n"], 1),
    (&["row 1: packet s0 10.1.1.1 9.9.9.9 5000 80 tcp \n"], 1),
    (&["row 1: packet s0 10.1.1.1 9.9.9.9 5000 80 tcp\r\n"], 1),
    (
        &["row 1: packet a-name-of-17-lett 10.1.1.1 9.9.9.9 5000 80 tcp\n"],
        1,
    ),
    // moves of another form
    (&[ROW, "  entered 01 s0\n"], 2),
    (&[ROW, "  entered 1000000000 s0\n"], 2),
    (&[ROW, "  entered 1  s0\n"], 2),
    (&[ROW, "  entered 1 s0\r\n"], 2),
    (&[ROW, " entered 1 s0\n"], 2),
    (&[ROW, "  entered 1 s0"], 2),
    (&[ROW, ENTERED, "  decided 1 v1 rule 100 out:3 cache\n"], 3),
    (&[ROW, ENTERED, "  stuck 1\n"], 3),
    // and of none
    (&["\n"], 1),
    (&["row\n"], 1),
    (&["  nothing \n"], 1),
    (&["meter"], 1),
];

/// The line of the second policy, as it is submitted.
const SUBMITTED: &str = "  submitted file 2 version 2\n";

fn verdict(alloc: Global, parts: &[&str], policies: &[&str]) -> Result<Verdict, Fail> {
    let mut files = Vec::new(alloc);
    for text in policies {
        files.push(read_file(alloc, text.as_bytes())?)?;
    }
    let mut trace = Vec::new(alloc);
    for part in parts {
        trace.extend_from_slice(part.as_bytes())?;
    }
    Ok(audit(alloc, &trace, &files)?)
}

#[test]
fn traces_of_a_packet(rt: HostRuntime) -> Result<(), Fail> {
    let alloc = rt.alloc();
    for trace in &GOOD {
        assert!(rt; verdict(alloc, trace, &[TWO_ROWS])? == Verdict::Yes);
    }
    for (trace, line) in &BAD {
        assert!(rt; verdict(alloc, trace, &[TWO_ROWS])? == Verdict::No { line: *line });
    }
    Ok(())
}

const CHANGED_ROW: &str = "row 2: packet s0 10.1.1.1 9.9.9.9 5000 443 tcp\n";

/// Traces under the two rows and their change, each with the number of the first bad line.
const CHANGES: [(&[&str], Option<u32>); 3] = [
    (
        &[
            SUBMITTED,
            CHANGED_ROW,
            ENTERED,
            "  decided 1 v2 rule 90 out:4 cache \n",
            "  out 1 port 4\n",
        ],
        None,
    ),
    // the newest version no longer has the change's row
    (&[SUBMITTED, "  submitted file 2 version 3\n"], Some(2)),
    // a row that is removed no longer decides
    (
        &[
            SUBMITTED,
            ROW,
            ENTERED,
            "  decided 1 v2 rule 100 out:3 cache \n",
        ],
        Some(4),
    ),
];

fn verdict_of(line: Option<u32>) -> Verdict {
    match line {
        Some(line) => Verdict::No { line },
        None => Verdict::Yes,
    }
}

#[test]
fn traces_of_changes(rt: HostRuntime) -> Result<(), Fail> {
    let alloc = rt.alloc();
    for (trace, line) in &CHANGES {
        let told = verdict(alloc, trace, &[TWO_ROWS, CHANGE])?;
        assert!(rt; told == verdict_of(*line));
    }
    // there is no version before the first
    let first = verdict(alloc, &["  submitted file 1 version 1\n"], &[CHANGE])?;
    assert!(rt; first == Verdict::No { line: 1 });
    Ok(())
}
