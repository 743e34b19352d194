//! Runs in which a read, a write or an allocation fails.
use crate::runs::{Ran, calls, ended, ends, metered, shelf_with_fault};
use shelf::MemSink;
use std::alloc::{AllocError, Global};

const ONE_PACKET: &str = "event,arguments\npacket,s0,10.1.1.1,9.9.9.9,5000,80,tcp\n";

const TWO_ROWS: &str = "priority,src,dst,sport,dport,proto,action\n\
    100,10.0.0.0/8,any,any,80,tcp,out:3\n\
    50,any,any,any,any,any,drop\n";

const MATCHED: &str = "row 1: packet s0 10.1.1.1 9.9.9.9 5000 80 tcp\n\
    \x20 entered 1 s0\n\
    \x20 decided 1 v1 rule 100 out:3 authority s0 part 0\n\
    \x20 out 1 port 3\n";

const NET: &str = "switch = [{ name = \"s0\", ports = [3], authority = 9 }]\n";

const ARGS: [&str; 6] = ["replay", "s.csv", "p.csv", "p.csv", "--net", "n.toml"];

const FILES: [(&str, &str); 3] = [("s.csv", ONE_PACKET), ("p.csv", TWO_ROWS), ("n.toml", NET)];

/// The call of a number in `failing_read`, `failing_write` or `failing_line` fails, counted from 1,
/// or none if it is 0; a write of the output accepts at most this many bytes.
#[derive(Clone, Copy)]
struct Trial {
    failing_read: u64,
    most_written: u64,
    failing_write: u64,
    failing_line: u64,
}

/// A replay of one packet, with a network and two policies.
fn played(alloc: Global, trial: &Trial) -> Result<Ran, AllocError> {
    let shelf = shelf_with_fault(alloc, &FILES, trial.failing_read)?;
    let out = MemSink::new(
        alloc,
        trial.most_written,
        calls(alloc, trial.failing_write)?,
    );
    let errs = MemSink::new(alloc, u64::MAX, calls(alloc, trial.failing_line)?);
    let (ran, _, _) = metered(alloc, &ARGS, shelf, out, errs, Vec::new(alloc))?;
    Ok(ran)
}

const READ_FAULT: &str = "difane: read fault\n";

/// The read, the write and the write of the line of errors that fail, the most bytes that a write
/// accepts, and how the run ends: its status, its output and its line of errors.
const FAULTS: [(u64, u64, u64, u64, u8, &str, &str); 9] = [
    (0, 0, 0, u64::MAX, 0, MATCHED, ""),
    (0, 0, 0, 1, 0, MATCHED, ""),
    (1, 0, 0, u64::MAX, 4, "", READ_FAULT),
    (2, 0, 0, u64::MAX, 4, "", READ_FAULT),
    (3, 0, 0, u64::MAX, 4, "", READ_FAULT),
    (4, 0, 0, u64::MAX, 4, "", READ_FAULT),
    (4, 0, 1, u64::MAX, 4, "", ""),
    (0, 1, 0, 10, 5, "", "difane: write fault\n"),
    (0, 2, 0, 10, 5, "row 1: pac", "difane: write fault\n"),
];

#[test]
fn answers_each_fault(rt: HostRuntime) {
    for (failing_read, failing_write, failing_line, most_written, status, out, line) in &FAULTS {
        let trial = Trial {
            failing_read: *failing_read,
            failing_write: *failing_write,
            failing_line: *failing_line,
            most_written: *most_written,
        };
        let ran = played(rt.alloc(), &trial);
        assert!(rt; ends(ran, *status, out, line), "{status} {line}");
    }
}

// Whether the run ended out of memory, with a part of what it would have written.
fn stopped(ran: &Ran) -> bool {
    let (status, written, told) = ran;
    *status == 7
        && MATCHED.as_bytes().starts_with(written.bytes())
        && b"difane: no memory\n".starts_with(told.bytes())
}

// For runs in which an allocation fails (`rt try --test --fail-alloc N`); the other tests assert
// that there is enough memory.
#[test]
fn ends_whole_or_out_of_memory(rt: HostRuntime) {
    let trial = Trial {
        failing_read: 0,
        failing_write: 0,
        failing_line: 0,
        most_written: u64::MAX,
    };
    let Ok(ran) = played(rt.alloc(), &trial) else {
        return;
    };
    assert!(rt; stopped(&ran) || ended(&ran, 0, MATCHED, ""));
}
