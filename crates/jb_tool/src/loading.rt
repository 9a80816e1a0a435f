//! The handles of a queue text are run by the workers of a journal.

mod counting;
mod fault;
mod handle;
mod load;
mod loaded;
mod options;
mod telling;
mod words;
mod worker;

pub use fault::{LoadFault, QueueHandleFault};
pub use load::load_on;
pub use loaded::{Loaded, Refused};
pub use options::LoadOptions;
pub use telling::tell_loaded;
