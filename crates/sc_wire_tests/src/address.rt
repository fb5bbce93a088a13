use sc_entry::ByteText;
use sc_wire_address::{AddressError, DEFAULT_PORT, SocketAddr};
use std::alloc::Global;
use std::test::Fail;

/// Whether an address is shown so.
fn shows(alloc: Global, address: &SocketAddr, text: &str) -> Result<bool, Fail> {
    let shown = format!(in alloc; "{address}")?;
    Ok(shown.as_str() == text)
}

fn shows_port(alloc: Global, text: &str) -> Result<bool, Fail> {
    let address = SocketAddr::with_port(DEFAULT_PORT);
    shows(alloc, &address, text)
}

#[test]
fn port_of_this_machine_is_shown(rt: HostRuntime) -> Result<(), Fail> {
    assert!(rt; shows_port(rt.alloc(), "127.0.0.1:4226")?);
    Ok(())
}

/// Whether an abstract name is shown so.
fn shows_name(alloc: Global, name: &[u8], text: &str) -> Result<bool, Fail> {
    let address = SocketAddr::UnixAbstract(ByteText::from_slice(alloc, name)?);
    shows(alloc, &address, text)
}

#[test]
fn abstract_name_is_shown(rt: HostRuntime) -> Result<(), Fail> {
    let name = b"a ~\t\n\r'\"\\\x00\x1f\x7f\xff".as_slice();
    let text = "\\x00a ~\\t\\n\\r\\'\\\"\\\\\\x00\\x1f\\x7f\\xff";
    assert!(rt; shows_name(rt.alloc(), name, text)?);
    Ok(())
}

#[test]
fn refusal_is_told(rt: HostRuntime) -> Result<(), Fail> {
    let text = format!(in rt.alloc(); "{}", AddressError::BadEscape)?;
    assert_eq!(rt; text.as_str(), "bad escape");
    Ok(())
}
