//! The client's side of HTTP/1.1: the bytes of a request, and the answer of a connection, however its bytes are cut.
#![tactic(auto)]

mod heads;
mod laws;
mod lines;
mod requests;
mod responses;
mod room;

pub use heads::AnswerParts;
pub use laws::answers_are_one_way;
pub use requests::request_bytes;
pub use responses::{ResponseFault, ResponseReader, read_ended_response, read_response};
