//! What is printed is read again.
ghost use Rattle.std.specs.Prelude.{◌≡◌, ◌<◌, ℕ, List, Some, All, false};
ghost use Rattle.sc_wire_address.specs.Addresses.{address_text, is_marked, parsed};
ghost use Rattle.sc_wire_address.specs.declared.socket_addr.SocketAddr.TheVariants.{Unix, UnixAbstract};

/// The printed address of a Unix socket is read as that address, but for a path that begins as an abstract name does.
pub fn addresses_are_read_again()
    ensures names { (name : List ℕ) → All (λ b. b < 256) name → parsed (address_text (UnixAbstract name)) ≡ Some (UnixAbstract name) }
    ensures paths { (path : List ℕ) → is_marked path ≡ false → parsed (address_text (Unix path)) ≡ Some (Unix path) }
{}
