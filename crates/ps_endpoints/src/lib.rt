//! The streams of a command, opened by their names over a world of `ps_io`, and given back.
//!
//! [`open_ports`] opens the source, the sink and the clock of each stream, in this order, and begins to read lines; where
//! one is refused, what was opened before is given back. [`give_back_ports`] gives all back, and takes no memory.
//!
//! `specs/Ports.antt` has the words of what they promise: `AreOpened`, each port is just what the world held under the names
//! of its stream, and no line of it was read; `AreHeld`, the world holds just what the ports tell; `AllBack`, each source,
//! sink and clock is held as before; `LeavesOthers`, nothing but the names of these streams was touched, stores and reports
//! neither; `AsksInOrder`, what was asked for is a front of `port_openings`; `FailedToOpen`, the world's count of faults rose
//! in the last opening. No two streams may share a source, a sink or a host (`AreApart`).
#![tactic(auto)]

mod port;
mod ports;

pub use port::{Port, PortOf};
pub use ports::{give_back_ports, open_ports};
