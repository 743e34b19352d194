//! Arguments that the grammar doesn't have.
use crate::files::{NO_ROW, PAIR};
use crate::runs::{ends, run_over};

const ONE_PACKET: &str = "event,arguments\npacket,b,10.1.1.1,9.9.9.9,5000,80,tcp\n";

const FILES: [(&str, &str); 3] = [("n.toml", PAIR), ("s.csv", ONE_PACKET), ("p.csv", NO_ROW)];

/// Arguments that the grammar doesn't have, whatever files there are.
const OFF: [&[&str]; 26] = [
    &[],
    &["load"],
    &["load", "0"],
    &["load", "1001"],
    &["load", "05"],
    &["load", "5", "6"],
    &["load", "5", "--net", "n.toml"],
    &["load", "5", "--quiet"],
    &[
        "replay",
        "--net=n.toml",
        "s.csv",
        "p.csv",
        "--net",
        "n.toml",
    ],
    &["replay", "s.csv", "p.csv", "--net", "-n.toml"],
    &["replay", "s.csv", ""],
    &["replay", "--", "s.csv", "p.csv"],
    &["replay", "--help"],
    &["replays", "s.csv", "p.csv"],
    &["replay", "--quiet", "--quiet", "s.csv", "p.csv"],
    &["replay", "--quiet", "s.csv", "p.csv", "--quiet"],
    &["replay", "s.csv", "--quiet", "p.csv"],
    &["compile", "p.csv", "--quiet"],
    &["compile", "p.csv", "--net"],
    &["compile", "p.csv", "--net="],
    &["flows", "s.csv", "p.csv", "--quiet"],
    &["flows", "s.csv"],
    &["rebalance", "s.csv", "p.csv", "--quiet"],
    &["rebalance", "s.csv"],
    &["audit", "s.csv"],
    &["audit", "s.csv", "p.csv", "--net", "n.toml"],
];

#[test]
fn refuses_arguments_off_the_grammar(rt: HostRuntime) {
    for args in &OFF {
        let off = run_over(rt.alloc(), args, &FILES);
        assert!(rt; ends(off, 2, "", "difane: words\n"));
    }
}
