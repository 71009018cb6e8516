// Addresses of the internet protocols.
ghost use Rattle.std.specs.Prelude.{◌≡◌, ◌≢◌, ◌++◌, List, ℕ, codes, IsTrue, IfSome, IfNone, IsSomeAnd};
ghost use Rattle.std.specs.declared.net.ipv6_addr.Ipv6Addr.{Ipv6Addr};
ghost use Rattle.std.specs.declared.net.ip_addr.IpAddr.{IpAddr};
ghost use Rattle.std.specs.declared.net.socket_addr.SocketAddr.{SocketAddr};
ghost use Rattle.smp_edge.specs.Address.{peer_at, IsAddressOf, IsMapped, IsBracketed, IsIpName, IsAddressName};

use crate::Peer;
use std::net::{IpAddr, Ipv4Addr, Ipv6Addr, SocketAddr, SocketAddrV4, SocketAddrV6, ToSocketAddrs};
use std::rt;

/// The port of a name that gives none.
const PORT: u16 = 1337;

/// The text between a pair of brackets.
fn in_brackets(text: &[u8]) -> Option<&[u8]>
    ensures some { IfSome result (λ inside. text.now ≡ codes "[" ++ inside.now ++ codes "]") }
    ensures none { IfNone result ((inside : List ℕ) → text.now ≢ codes "[" ++ inside ++ codes "]") }
{
    match text {
        [b'[', inside @ .., b']'] => Some(inside),
        _ => None,
    }
}

/// The address of IPv6 that is spelled in brackets.
fn bracketed(text: &[u8]) -> Option<Ipv6Addr>
    ensures some { IfSome result (IsBracketed text.now) }
    ensures none { IfNone result ((ip : Ipv6Addr) → ¬ IsBracketed text.now ip) }
{
    let inside = in_brackets(text)?;
    match Ipv6Addr::parse_ascii(inside) {
        Ok(ip) => Some(ip),
        Err(_) => None,
    }
}

/// The address that is spelled with no port: of IPv4, or of IPv6 with or without brackets.
fn ip_named(text: &[u8]) -> Option<IpAddr>
    ensures some { IfSome result (IsIpName text.now) }
    ensures none { IfNone result ((ip : IpAddr) → ¬ IsIpName text.now ip) }
{
    if let Ok(ip) = IpAddr::parse_ascii(text) {
        return Some(ip);
    }
    match bracketed(text) {
        Some(ip) => Some(IpAddr::V6(ip)),
        None => None,
    }
}

/// The address that is spelled, which is at port 1337 where no port is.
fn spelled_address(text: &[u8]) -> Option<SocketAddr>
    ensures some { IfSome result (IsAddressName text.now) }
    ensures none { IfNone result ((a : SocketAddr) → ¬ IsAddressName text.now a) }
{
    if let Ok(address) = SocketAddr::parse_ascii(text) {
        return Some(address);
    }
    match ip_named(text) {
        Some(ip) => Some(SocketAddr::new(ip, PORT)),
        None => None,
    }
}

/// The first address of a host's name, which the system looks up.
fn host_address<N: rt::Net>(net: &N, name: &str) -> Option<SocketAddr> {
    let found = if name.contains(':') {
        name.to_socket_addrs(net)
    } else {
        (name, PORT).to_socket_addrs(net)
    };
    found.ok()?.next()
}

/// The address of a name: the one that it spells, or the first that the system knows for a host's name;
/// at port 1337 where the name gives none.
pub(crate) fn address_named<N: rt::Net>(net: &N, name: &str) -> Option<SocketAddr>
    ensures spelled { (a : SocketAddr) → IsAddressName name.now a
        → IsSomeAnd result (IsAddressName name.now) }
{
    match spelled_address(name.as_bytes()) {
        Some(address) => Some(address),
        None => host_address(net, name),
    }
}

/// The address as a peer.
pub(crate) fn peer_at(address: SocketAddr) -> Peer
    ensures { result ≡ peer_at address }
{
    let number = match address.ip() {
        IpAddr::V4(ip) => 0xffff_0000_0000 + u128::from(ip.to_bits()),
        IpAddr::V6(ip) => ip.to_bits(),
    };
    Peer {
        address: number,
        port: address.port(),
    }
}

/// The peer's address of IPv4, where it has one.
fn v4_address(peer: Peer) -> Option<SocketAddr>
    ensures some { IfSome result (IsAddressOf peer) }
    ensures none { IfNone result (¬ IsMapped peer) }
{
    if peer.address / 0x1_0000_0000 != 0xffff {
        return None;
    }
    let ip = Ipv4Addr::from_bits((peer.address % 0x1_0000_0000) as u32);
    Some(SocketAddr::V4(SocketAddrV4::new(ip, peer.port)))
}

/// The peer's address of IPv6.
fn v6_address(peer: Peer) -> SocketAddr
    ensures { IsAddressOf peer result }
{
    SocketAddr::V6(SocketAddrV6::new(Ipv6Addr::from_bits(peer.address), peer.port, 0, 0))
}

/// The peer's address for a socket of this family, where it has one.
pub(crate) fn address_at(peer: Peer, is_ipv4: bool) -> Option<SocketAddr>
    ensures some { IfSome result (IsAddressOf peer) }
    ensures none { IfNone result (IsTrue is_ipv4 × ¬ IsMapped peer) }
{
    if is_ipv4 {
        v4_address(peer)
    } else {
        Some(v6_address(peer))
    }
}
