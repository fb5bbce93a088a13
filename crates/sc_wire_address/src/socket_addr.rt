ghost use Rattle.std.specs.Prelude.{◌≡◌, ◌∷◌, [], Some, None, IfOk, codes, option_map};
ghost use Rattle.sc_wire_address.specs.Addresses.{address_text, is_unix_path, mark, net_of, net_text, parsed};
ghost use Rattle.std.specs.Net.Addr.{ipv4_octets};

use crate::address_error::AddressError;
use crate::escapes::{Escaped, unescape};
use sc_entry::{ByteText, Text};
use std::alloc::Global;
use std::fmt;
use std::fmt::{Display, Formatter, Write};
use std::net::Ipv4Addr;

/// The port of a server that is told none.
pub const DEFAULT_PORT: u16 = 4226;

/// An address of the network.
#[derive(Clone, Copy, Debug, PartialEq, Eq)]
pub struct NetAddr {
    pub ip: Ipv4Addr,
    pub port: u16,
}

/// An address at which a server listens.
#[derive(Debug, Drop, PartialEq, Eq)]
pub enum SocketAddr {
    Net(NetAddr),
    /// The path of a Unix socket.
    Unix(Text),
    /// The name of a Unix socket that has no path.
    UnixAbstract(ByteText),
}

impl SocketAddr {
    /// A port of this machine: of 127.0.0.1.
    pub fn with_port(port: u16) -> SocketAddr
        ensures { result ≡ SocketAddr.Net (record { ip = Ipv4Addr.LOCALHOST; port = port }) }
    {
        SocketAddr::Net(NetAddr {
            ip: Ipv4Addr::LOCALHOST,
            port,
        })
    }

    /// The address of the network, where it is one.
    pub fn as_net(&self) -> Option<&NetAddr>
        ensures { option_map (λ a. a.now) result ≡ net_of self.now }
    {
        match self {
            SocketAddr::Net(addr) => Some(addr),
            SocketAddr::Unix(_) => None,
            SocketAddr::UnixAbstract(_) => None,
        }
    }

    /// Whether it is the path of a Unix socket.
    pub fn is_unix_path(&self) -> bool
        ensures { result ≡ is_unix_path self.now }
    {
        matches!(self, SocketAddr::Unix(_))
    }

    /// The address of a Unix socket that a text names: an abstract name where it begins with `\x00`, else a path. In a name
    /// `\t`, `\n`, `\r`, `\'`, `\"`, `\\`, and `\x` with two hexadecimal digits stand for a byte each, and any other byte but
    /// a backslash for itself.
    pub fn parse_uds(alloc: Global, text: &str) -> Result<SocketAddr, AddressError>
        ensures ok { IfOk result (λ address. parsed text.now ≡ Some address) }
        ensures bad { result ≡ Err AddressError.BadEscape → parsed text.now ≡ None }
    {
        match text.as_bytes().strip_prefix(b"\\x00".as_slice()) {
            Some(name) => {
                let name = unescape(alloc, name)?;
                Ok(SocketAddr::UnixAbstract(name))
            }
            None => {
                let path = Text::from_str(alloc, text)?;
                Ok(SocketAddr::Unix(path))
            }
        }
    }
}

impl Display for NetAddr {
    ghost output = { λ address. Some (net_text address) };

    fn fmt<W: Write>(&self, f: &mut Formatter<W>) -> fmt::Result {
        write!(f, "{}:{}", self.ip, self.port)
    }
}

impl Display for SocketAddr {
    ghost output = { λ address. Some (address_text address) };

    fn fmt<W: Write>(&self, f: &mut Formatter<W>) -> fmt::Result {
        match self {
            SocketAddr::Net(address) => f.write(*address),
            SocketAddr::Unix(path) => f.write_str(path.as_str()),
            SocketAddr::UnixAbstract(name) => {
                f.write_str("\\x00")?;
                f.write(Escaped(name.as_slice()))
            }
        }
    }
}
