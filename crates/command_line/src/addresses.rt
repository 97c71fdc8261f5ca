//! Where a service listens.

/// Where a service listens.
#[derive(Clone, Copy)]
pub enum Address<'a> {
    /// At a TCP port of 127.0.0.1.
    Port(u16),
    /// At a Unix socket, by its path.
    Socket(&'a str),
}
