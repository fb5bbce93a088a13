ghost use Rattle.std.specs.Prelude.{◌≡◌, IfOk};
ghost use Rattle.sc_link.specs.Connecting.{is_abstract};

use sc_entry::NoMemory;
use sc_wire_address::SocketAddr;

/// Whether an address is a name that has no path. Nobody opens one here.
pub fn is_abstract(addr: &SocketAddr) -> bool
    ensures { result ≡ is_abstract addr.now }
{
    match addr {
        SocketAddr::Net(_) => false,
        SocketAddr::Unix(_) => false,
        SocketAddr::UnixAbstract(_) => true,
    }
}

/// The same address.
pub fn copy_of(addr: &SocketAddr) -> Result<SocketAddr, NoMemory>
    ensures { IfOk result (λ copy. copy ≡ addr.now) }
{
    match addr {
        SocketAddr::Net(addr) => Ok(SocketAddr::Net(*addr)),
        SocketAddr::Unix(path) => Ok(SocketAddr::Unix(path.try_clone()?)),
        SocketAddr::UnixAbstract(name) => Ok(SocketAddr::UnixAbstract(name.try_clone()?)),
    }
}
