//! What is asked of a module, what a call is sent beside its arguments, and what it answers beside its result: bytes.
#![tactic(auto)]

mod answer;
mod call;
mod request;

pub use answer::{AnswerBuf, MOST_ANSWER, TooLong};
pub use call::Call;
pub use request::{MOST_REQUEST, Payload, read_part};
