//! System files and strike lists.
#![tactic(auto)]

mod check;
mod encode;
mod fault;
mod list_fault;
mod record;
mod rows;
mod small;
mod strike_list;
mod system_file;
mod system_read;
mod system_write;

pub use fault::{ReadFault, Reason};
pub use list_fault::{ListFault, ListReason};
pub use record::{Record, Text};
pub use strike_list::read_record;
pub use system_file::SystemFile;
pub use system_read::{SystemRead, read_system};
pub use system_write::{SystemWriteFault, write_system};

#[cfg(test)]
mod list_tests;
#[cfg(test)]
mod read_tests;
#[cfg(test)]
mod write_tests;
