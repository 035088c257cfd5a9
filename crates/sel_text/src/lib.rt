//! Addresses, ports, names and numbers, as policy files, traces and certificates write them.
#![tactic(auto)]

pub use address::{Address, read_address};
pub use family::Family;
pub use fault::TextFault;
pub use item::{AddressItem, read_addresses};
pub use lists::NoMemory;
pub use name::{Name, read_name};
pub use number::{read_byte, read_number};
pub use parts::{place_of, split_once};
pub use port::{PortItem, read_port, read_type_code};
pub use print::{print_address, print_number};

mod address;
mod address_text;
mod family;
mod fault;
mod four;
mod item;
pub mod laws;
mod name;
mod number;
mod parts;
mod port;
mod print;
mod six;
#[cfg(test)]
mod tests;
