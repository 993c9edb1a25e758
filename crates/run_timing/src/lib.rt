//! How long a run of the machine takes if an event of each kind takes a given number of ticks, and the longest chain of events,
//! each of which depends on the one before it. The ticks are this project's profile.
#![tactic(auto)]

mod befores;
mod finishes;
mod laws;
mod making;
mod network;
mod noting;
mod room;
mod rows;
mod running;
mod text;
mod ticks;
mod time;
mod timing;
mod tracks;
mod way;

pub use finishes::{finish_events, finish_run};
pub use laws::{a_run_has_one_timing, the_time_is_the_greatest_finish};
pub use network::{Net, Network};
pub use text::{push_timing, time_text};
pub use ticks::Ticks;
pub use time::{time_events, time_run};
pub use timing::{Link, Timing};
