//! What the checker and the maker of certificates share: the boxes of both gateways' policies, line
//! by line and as the gateway sees them from which the packets go out, and the boxes whose trees
//! are still to come (RFC 4301 section 4.4.1).
#![tactic(auto)]

pub use boxes::Mark;
pub use gateway::Gateway;
pub use lists::NoMemory;
pub use side::Side;
pub use todo::Todo;

mod boxes;
mod gateway;
pub mod laws;
mod side;
mod todo;
