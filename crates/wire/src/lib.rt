//! Reading a request of HTTP and writing its reply, over any reader and any writer.
//!
//! [`read_message`] gives the message that the bytes of a reader mean, however they are cut into
//! reads, and [`write_reply`] writes exactly the text of an answer at a moment.
#![tactic(auto)]

mod devices;
mod framing;
mod heads;
mod laws;
mod messages;
mod replies;

pub use devices::{Broken, FromRead, Inlet, Outlet, ToWrite, is_end};
pub use laws::{one_reading, one_text, retargeted_reads, some_reading, stays_awaited, stays_read};
pub use messages::{Message, WireFault, read_message};
pub use replies::{Reply, WriteFault, write_reply};
