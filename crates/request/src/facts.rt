//! What a command is given of a log, and what its notes say of logs, programs and runs.
#![tactic(auto)]

mod breach;
mod fewer;
mod flushes;
mod forced;
mod large;
mod left_out;
mod of_log;
mod of_run;
mod promises;
mod recording;
mod untold;

pub use breach::{Breach, breach_of};
pub use fewer::{Fewer, Smaller, fewer_images};
pub use left_out::LeftOut;
pub use of_log::{LogFacts, log_facts};
pub use of_run::RunFacts;
pub use promises::Promises;
pub use recording::Recording;
pub use untold::Untold;
