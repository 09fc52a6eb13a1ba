//! A connection to a peer over HTTP.

/// A connection that was opened to this address, and on which nothing was sent yet.
#[derive(Drop)]
pub struct Opened<C: Drop> {
    pub address: String,
    pub connection: C,
}
