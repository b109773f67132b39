//! The layout server `magicd` as a library: its command line, its files, its messages, and the whole program over any
//! devices.
#![tactic(auto)]

mod cell_argument;
mod cells;
mod devices;
mod fault;
mod files;
mod messages;
mod options;
mod program;
mod technology;
mod workers;

pub use cells::LoadFault;
pub use devices::Devices;
pub use fault::Fault;
pub use files::{FileFault, Files, HostFiles};
pub use options::OptionsFault;
pub use program::{fail, run};
pub use technology::TechnologyFault;
