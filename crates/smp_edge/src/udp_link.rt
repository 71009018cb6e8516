// The link over UDP.
ghost use Rattle.std.specs.Prelude.{◌≡◌, ◌≢◌, ◌<◌, ◌⊎◌, Some, None, Ok, IfOk, IfErr, IfSome, IsErr, length};
ghost use Rattle.std.specs.IoError.{error_kind};
ghost use Rattle.std.specs.Duration.{as_nanos};
ghost use Rattle.smp_edge.specs.Address.{peer_at, IsAddressOf};
ghost use Rattle.smp_edge.specs.Link.{FitsIn};

use crate::address::{address_at, address_named, peer_at};
use crate::{Failed, Heard, Link, Peer, Role};
use std::io::ErrorKind;
use std::net::{Ipv4Addr, Ipv6Addr, SocketAddr, UdpSocket};
use std::time::Duration;
use std::{io, rt};

/// What the socket's answer to a receiving call means; none where the call is to be made again.
fn meaning(answer: io::Result<(usize, SocketAddr)>) -> Result<Option<Heard>, Failed>
    ensures packet { IfOk answer (λ r. result ≡ Ok (Some (Heard.Packet (peer_at r.1) r.0))) }
    ensures quiet { IfErr answer (λ e.
        error_kind e ≡ ErrorKind.WouldBlock → result ≡ Ok (Some Heard.Quiet)) }
    ensures timed { IfErr answer (λ e.
        error_kind e ≡ ErrorKind.TimedOut → result ≡ Ok (Some Heard.Quiet)) }
    ensures again { IfErr answer (λ e. error_kind e ≡ ErrorKind.Interrupted → result ≡ Ok None) }
    ensures failed { IfErr answer (λ e. error_kind e ≢ ErrorKind.WouldBlock
        → error_kind e ≢ ErrorKind.TimedOut → error_kind e ≢ ErrorKind.Interrupted → IsErr result) }
{
    match answer {
        Ok((length, from)) => Ok(Some(Heard::Packet {
            from: peer_at(from),
            length,
        })),
        Err(error) => match error.kind() {
            ErrorKind::WouldBlock | ErrorKind::TimedOut => Ok(Some(Heard::Quiet)),
            ErrorKind::Interrupted => Ok(None),
            _ => Err(Failed),
        },
    }
}

/// Receives one packet, and keeps where it came from. A call that is interrupted is made again.
fn receive(
    socket: &UdpSocket,
    into: &mut [u8],
    known: &mut Option<SocketAddr>,
) -> Result<Heard, Failed>
    ensures fits { IfOk result (FitsIn (length into.new)) }
{
    'turns: for _ in 0..u64::MAX {
        let answer = socket.recv_from(into);
        if let Ok((_, from)) = &answer {
            *known = Some(*from);
        }
        match meaning(answer) {
            Ok(Some(heard)) => return Ok(heard),
            Ok(None) => {}
            Err(Failed) => return Err(Failed),
        }
    }
    Err(Failed)
}

/// Sends one packet. A call that is interrupted is made again.
fn transmit(socket: &UdpSocket, to: SocketAddr, packet: &[u8]) -> Result<(), Failed> {
    'turns: for _ in 0..u64::MAX {
        match socket.send_to(packet, to) {
            Ok(count) if count == packet.len() => return Ok(()),
            Err(error) if error.kind() == ErrorKind::Interrupted => {}
            _ => return Err(Failed),
        }
    }
    Err(Failed)
}

/// The address to send to: the known one where it is the peer's, which may have a scope that a peer
/// does not tell, or else the peer's own for a socket of this family.
fn destination(to: Peer, known: Option<SocketAddr>, is_ipv4: bool) -> Option<SocketAddr>
    ensures address { IfSome result (λ a. (peer_at a ≡ to) ⊎ IsAddressOf to a) }
    ensures known { IfSome known (λ a. peer_at a ≡ to → result ≡ Some a) }
{
    match known {
        Some(address) if peer_at(address) == to => Some(address),
        _ => address_at(to, is_ipv4),
    }
}

/// How long a link waits for a packet unless told otherwise, in milliseconds.
const WAIT: u64 = 250;

/// A link over UDP. It tells nothing. A packet that is longer than the buffer is cut to it.
#[derive(Drop)]
pub struct UdpLink<'a, N: rt::Net> {
    net: &'a N,
    wait: Duration,
    socket: Option<UdpSocket>,
    is_ipv4: bool,
    /// The address that was attached to, or of the packet that was heard last.
    known: Option<SocketAddr>,
    faults: u64,
}

impl<'a, N: rt::Net> UdpLink<'a, N> {
    /// A link that waits 250 ms for a packet, and has taken up no name yet.
    pub fn new(net: &'a N) -> UdpLink<'a, N>
        ensures { result.faults ≡ 0 }
    {
        UdpLink::with_wait(net, Duration::from_millis(WAIT))
    }

    /// A link that waits so long for a packet, which is not 0, and has taken up no name yet.
    pub fn with_wait(net: &'a N, wait: Duration) -> UdpLink<'a, N>
        requires { 0 < as_nanos wait }
        ensures wait { result.wait ≡ wait }
        ensures faults { result.faults ≡ 0 }
    {
        UdpLink {
            net,
            wait,
            socket: None,
            is_ipv4: true,
            known: None,
            faults: 0,
        }
    }

    /// Opens the socket at this address.
    fn bind(&mut self, address: SocketAddr) -> Result<SocketAddr, Failed>
        ensures { self.new.faults ≡ self.old.faults }
    {
        let Ok(socket) = UdpSocket::bind(self.net, address) else {
            return Err(Failed);
        };
        if socket.set_read_timeout(Some(self.wait)).is_err() {
            return Err(Failed);
        }
        let Ok(own) = socket.local_addr() else {
            return Err(Failed);
        };
        self.socket = Some(socket);
        self.is_ipv4 = own.is_ipv4();
        self.known = None;
        Ok(own)
    }

    /// Opens a socket at any free port, to reach this address.
    fn reach(&mut self, address: SocketAddr) -> Result<Peer, Failed>
        ensures faults { self.new.faults ≡ self.old.faults }
        ensures peer { IfOk result (λ peer. peer ≡ peer_at address) }
    {
        let any = match address {
            SocketAddr::V4(_) => SocketAddr::from((Ipv4Addr::UNSPECIFIED, 0)),
            SocketAddr::V6(_) => SocketAddr::from((Ipv6Addr::UNSPECIFIED, 0)),
        };
        if self.bind(any).is_err() {
            return Err(Failed);
        }
        self.known = Some(address);
        Ok(peer_at(address))
    }

    /// Takes up a name.
    fn take_up(&mut self, role: Role, name: &str) -> Result<Peer, Failed>
        ensures { self.new.faults ≡ self.old.faults }
    {
        let Some(address) = address_named(self.net, name) else {
            return Err(Failed);
        };
        match role {
            Role::Serve => match self.bind(address) {
                Ok(own) => Ok(peer_at(own)),
                Err(Failed) => Err(Failed),
            },
            Role::Reach => self.reach(address),
        }
    }

    fn send_now(&self, to: Peer, packet: &[u8]) -> Result<(), Failed> {
        match (&self.socket, destination(to, self.known, self.is_ipv4)) {
            (Some(socket), Some(address)) => transmit(socket, address, packet),
            _ => Err(Failed),
        }
    }

    fn hear_now(&mut self, into: &mut [u8]) -> Result<Heard, Failed>
        ensures fits { IfOk result (FitsIn (length into.new)) }
        ensures faults { self.new.faults ≡ self.old.faults }
    {
        match &self.socket {
            Some(socket) => receive(socket, into, &mut self.known),
            None => Err(Failed),
        }
    }
}

impl<N: rt::Net> Link for UdpLink<'_, N> {
    ghost names = { λ _. None };

    ghost script = { λ _. None };

    ghost sent = { λ _. None };

    ghost faults = { λ link. link.faults };

    /// A name that spells no address and is no host's, and an address that cannot be served, fail.
    fn attach(&mut self, role: Role, name: &str) -> Result<Peer, Failed> {
        match self.take_up(role, name) {
            Ok(peer) => Ok(peer),
            Err(Failed) => {
                self.faults = self.faults.saturating_add(1);
                Err(Failed)
            }
        }
    }

    /// Fails where no name was taken up.
    fn send(&mut self, to: Peer, packet: &[u8]) -> Result<(), Failed> {
        match self.send_now(to, packet) {
            Ok(()) => Ok(()),
            Err(Failed) => {
                self.faults = self.faults.saturating_add(1);
                Err(Failed)
            }
        }
    }

    /// Fails where no name was taken up. A wait that is interrupted begins anew.
    fn hear(&mut self, into: &mut [u8]) -> Result<Heard, Failed> {
        match self.hear_now(into) {
            Ok(heard) => Ok(heard),
            Err(Failed) => {
                self.faults = self.faults.saturating_add(1);
                Err(Failed)
            }
        }
    }
}
