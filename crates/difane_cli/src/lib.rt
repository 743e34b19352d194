//! The program's top call: it reads the arguments and the files, and does what they ask. It plays
//! a schedule on a network, and writes the journal, the records of flows or the placement that is
//! proposed. It plans a policy for a network, and writes the plan or a switch's tables. It checks
//! a printed trace. Or it generates a load case, plays it and writes its summary.
//!
//! `run` has the headline. If a replay returns `Ok`, there are inputs that its journal answers; the
//! journal is a run of the abstract machine, and its items have their causes; if the files are
//! known, these are the inputs that the files state. The output gained the journal's text, then a
//! line for each meter that stayed and has a note, then with `--quiet` the line that says whether
//! the network is quiet, and nothing else; the meters that stayed are given back. If it returns
//! `Full`, the same is true up to the row that it names, without the lines after the journal's. All
//! this is true of `flows` too, except that the output gained the flow records of the meters that
//! left, and then of those that stayed, and nothing if it returns `Full`. `rebalance` plays with no
//! meters, and gives back those that it got; the output gained the placement that is proposed from
//! the weights of the partitions. All this is true of `load` for the case of its number, except
//! that the output gained the eleven counts of the journal instead of its text. A plan and tables
//! are the defined ones, and so are their lines. The verdict of an audit is the defined one, and it
//! is yes for each text that a replay printed whole, up to the longest trace. Each status except
//! out of memory has its cause in a clause.
#![tactic(auto)]

mod auditing;
mod ended;
mod flow_lines;
mod laws;
mod meter_lines;
mod metered;
mod playing;
mod printing;
mod proposing;
mod top_call;
mod verdict;
mod work;

pub use command_inputs::{Refusal, RefusedFileName, Status, Stop, write_status};
pub use ended::{Ended, Finished};
pub use flow_export::FlowMeter;
pub use laws::program_one_switch_laws;
pub use metered::{CommandEnd, run_metered};
pub use meters::{Meter, Recorder};
pub use top_call::run;
