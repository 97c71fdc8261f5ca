//! How `serve` comes to listen: at a port, or at a socket.
ghost use Rattle.command_line.specs.Orders.{site_of};
ghost use Rattle.program.specs.Listening.{Takes, Replaces, AsksToListen, bound_site};

use crate::environment::{Connections, Standing};
use crate::reasons::Cause;
use command_line::Address;
use std::net::Ipv4Addr;

/// The mode of a socket: its owner and its group may connect.
const SOCKET_MODE: u32 = 0o660;

fn replace_socket<N: Connections>(network: &mut N, path: &str) -> Result<(), Cause>
    ensures { Replaces N.Connections path.now network.old result network.new }
{
    match network.remove(path) {
        Ok(()) => network.listen(path, SOCKET_MODE),
        Err(cause) => Err(cause),
    }
}

// Makes a socket at a path, in place of one at which nobody answers.
fn take_socket<N: Connections>(network: &mut N, path: &str) -> Result<(), Cause>
    ensures { Takes N.Connections path.now network.old result network.new }
{
    match network.look(path) {
        Ok(Standing::Nothing) => network.listen(path, SOCKET_MODE),
        Ok(Standing::Silent) => replace_socket(network, path),
        Ok(Standing::Answered) => Err(Cause::SocketTaken),
        Ok(Standing::Other) => Err(Cause::NoSocket),
        Err(cause) => Err(cause),
    }
}

/// Listens at an address, at no other one. Returns the address in use, or why it cannot listen.
pub fn listen<'a, N: Connections>(
    network: &mut N,
    address: Address<'a>,
) -> Result<Address<'a>, Cause>
    ensures { AsksToListen N.Connections (site_of address.entry) network.old (bound_site result) network.new }
{
    match address {
        Address::Port(port) => match network.bind(Ipv4Addr::LOCALHOST, port) {
            Ok(given) => Ok(Address::Port(given)),
            Err(cause) => Err(cause),
        },
        Address::Socket(path) => match take_socket(network, path) {
            Ok(()) => Ok(Address::Socket(path)),
            Err(cause) => Err(cause),
        },
    }
}
