//! The timers of one worker: a bag from which the least comes first once it is due. Moments have one unit, which the
//! caller chooses.
#![tactic(auto)]

mod chains;
mod fault;
mod node;
mod scan;
mod timer;
mod used;
mod wheel;

pub use fault::WheelFault;
pub use timer::Timer;
pub use wheel::Wheel;
