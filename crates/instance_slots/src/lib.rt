//! Tickets of instances: what a call needs beside its memory and its table. Threads share pools of them.
#![tactic(auto)]

mod pool;
mod ticket;

pub use pool::TicketPool;
pub use slot_pools::Full;
pub use ticket::Ticket;
