//! A connection to a server by a connector that what is outside makes.
ghost use Rattle.std.specs.Prelude.{◌≡◌, ◌≤◌};
ghost use Rattle.sc_client.specs.Conversations.{beginning};
ghost use Rattle.sc_main_client.specs.Connecting.{Connects, of_make};

use sc_client::{ClientError, ServerConnection, connect_to_server};
use sc_link::Connector;
use sc_main_outside::{MakeError, Outside};
use sc_wire_address::SocketAddr;

/// Why nothing was asked of a server: a part that wasn't made counts as a link's fault.
pub(crate) fn of_make(error: MakeError) -> ClientError
    ensures { result ≡ of_make error }
{
    match error {
        MakeError::NoMemory => ClientError::NoMemory,
        MakeError::MakeFault => ClientError::LinkFault,
    }
}

/// A connection to the server at an address. A connector is made, and asked once.
pub(crate) fn connection<X: Outside>(
    outside: &mut X,
    addr: &SocketAddr,
) -> Result<ServerConnection<<X::Connector as Connector>::Link>, ClientError>
    ensures connects { Connects addr.now X.Connector.asked X.Connector.links X.Connector.fault_count (λ link. beginning (X.Connector.Link.ahead link) (X.Connector.Link.written link) (X.Connector.Link.fault_count link)) (X.fault_count outside.old) (X.fault_count outside.new) result }
    ensures same { X.around outside.new ≡ X.around outside.old }
    ensures later { X.fault_count outside.old ≤ X.fault_count outside.new }
{
    let alloc = outside.alloc();
    match outside.connector() {
        Ok(mut connector) => connect_to_server(alloc, &mut connector, addr),
        Err(error) => Err(of_make(error)),
    }
}
