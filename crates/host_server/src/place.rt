//! Where is listened, and where terminals come from.

ghost use Rattle.std.specs.Prelude.{◌≡◌, IfOk};
ghost use Rattle.std.specs.Net.Socket.{socket_ip};
ghost use Rattle.host_server.specs.Places.{number_of, IsPlace};

use mio::net::TcpListener;
use std::io;
use std::net::{IpAddr, Net, SocketAddr, ToSocketAddrs};

/// Listens at the first address of a place that can be had, and tells it. A host that is an address isn't looked up.
pub(crate) fn listen<R: Net>(rt: &R, host: &str, port: u16) -> io::Result<(TcpListener, SocketAddr)>
    ensures { IfOk result (λ listening. IsPlace host.now port listening.1) }
{
    if let Ok(ip) = host.parse::<IpAddr>() {
        let address = SocketAddr::new(ip, port);
        return Ok((TcpListener::bind(rt, address)?, address));
    }
    let mut last = io::Error::from(io::ErrorKind::InvalidInput);
    for found in (host, port).to_socket_addrs(rt)? {
        let mut address = found;
        address.set_port(port);
        match TcpListener::bind(rt, address) {
            Ok(listener) => return Ok((listener, address)),
            Err(error) => last = error,
        }
    }
    Err(last)
}

/// The number of an address. Those of IPv4 are told apart as the addresses of IPv6 that stand for them.
pub(crate) fn number_of(peer: &SocketAddr) -> u128
    ensures { result ≡ number_of (socket_ip peer.now) }
{
    match peer.ip() {
        IpAddr::V4(address) => address.to_ipv6_mapped().to_bits(),
        IpAddr::V6(address) => address.to_bits(),
    }
}
