// Questions that own what a callback borrows.
ghost use Rattle.std.specs.Prelude.{◌≡◌, IfOk};
ghost use Rattle.ssh_auth.specs.declared.question.Admission.TheVariants as by;
ghost use Rattle.ssh_auth.specs.declared.question.Happening.TheVariants as what;
ghost use Rattle.ssh_auth.specs.declared.question.Judged.TheVariants as whether;
ghost use Rattle.ssh_auth.specs.declared.question.OpenType.TheVariants as type;

use bytes::Bytes;
use ssh_auth::{
    Admission, Happening, Judged, OpenType, PublicKeyOffer, Response, VerifiedPublicKey,
    copied_response,
};
use ssh_keys::Certificate;
use ssh_wire::{Modes, Pty, Text, WireError};
use std::alloc::Global;

/// A request of method none.
pub fn none(alloc: Global, user: &str) -> Result<Admission, WireError>
    ensures { IfOk result (λ made. made ≡ by.None user.now) }
{
    Ok(Admission::None {
        user: Text::new(alloc, user)?,
    })
}

/// A request of method password.
pub fn password(alloc: Global, user: &str, password: &str) -> Result<Admission, WireError>
    ensures { IfOk result (λ made. made ≡ by.Password user.now password.now) }
{
    Ok(Admission::Password {
        user: Text::new(alloc, user)?,
        password: Text::new(alloc, password)?,
    })
}

/// The offer of a key.
pub fn offered(alloc: Global, user: &str, offer: PublicKeyOffer<'_>) -> Result<Admission, WireError>
    ensures { IfOk result (λ made. made ≡ by.PublickeyOffered user.now offer.entry.public_key.now
        offer.entry.algorithm) }
{
    Ok(Admission::PublickeyOffered {
        user: Text::new(alloc, user)?,
        public_key: offer.public_key.copy()?,
        algorithm: offer.algorithm,
    })
}

/// A request that a key has signed.
pub fn publickey(
    alloc: Global,
    user: &str,
    key: VerifiedPublicKey<'_>,
) -> Result<Admission, WireError>
    ensures { IfOk result (λ made. made ≡ by.Publickey user.now key.entry.public_key.now
        key.entry.algorithm) }
{
    Ok(Admission::Publickey {
        user: Text::new(alloc, user)?,
        public_key: key.public_key.copy()?,
        algorithm: key.algorithm,
    })
}

/// A request that the key of a certificate has signed.
pub fn certificate(
    alloc: Global,
    user: &str,
    certificate: &Certificate,
) -> Result<Admission, WireError>
    ensures { IfOk result (λ made. made ≡ by.OpensshCertificate user.now certificate.now) }
{
    Ok(Admission::OpensshCertificate {
        user: Text::new(alloc, user)?,
        certificate: certificate.copy()?,
    })
}

/// A request by prompts, or a response to them.
pub fn interactive(
    alloc: Global,
    user: &str,
    submethods: &str,
    response: Option<Response<'_>>,
) -> Result<Admission, WireError>
    ensures { IfOk result (λ made. made ≡ by.KeyboardInteractive user.now submethods.now
        response.entry) }
{
    Ok(Admission::KeyboardInteractive {
        user: Text::new(alloc, user)?,
        submethods: Text::new(alloc, submethods)?,
        response: copied_response(alloc, response)?,
    })
}

/// A connection to the peer's X server.
pub fn x11_type(
    alloc: Global,
    originator_address: &str,
    originator_port: u32,
) -> Result<OpenType, WireError>
    ensures { IfOk result (λ made. made ≡ type.X11 originator_address.now originator_port) }
{
    Ok(OpenType::X11 {
        originator_address: Text::new(alloc, originator_address)?,
        originator_port,
    })
}

/// A connection to a host.
pub fn direct_tcpip(
    alloc: Global,
    host_to_connect: &str,
    port_to_connect: u32,
    originator_address: &str,
    originator_port: u32,
) -> Result<OpenType, WireError>
    ensures { IfOk result (λ made. made ≡ type.DirectTcpip host_to_connect.now port_to_connect
        originator_address.now originator_port) }
{
    Ok(OpenType::DirectTcpip {
        host_to_connect: Text::new(alloc, host_to_connect)?,
        port_to_connect,
        originator_address: Text::new(alloc, originator_address)?,
        originator_port,
    })
}

/// A connection that came to a forwarded port.
pub fn forwarded_tcpip(
    alloc: Global,
    host_to_connect: &str,
    port_to_connect: u32,
    originator_address: &str,
    originator_port: u32,
) -> Result<OpenType, WireError>
    ensures { IfOk result (λ made. made ≡ type.ForwardedTcpip host_to_connect.now port_to_connect
        originator_address.now originator_port) }
{
    Ok(OpenType::ForwardedTcpip {
        host_to_connect: Text::new(alloc, host_to_connect)?,
        port_to_connect,
        originator_address: Text::new(alloc, originator_address)?,
        originator_port,
    })
}

/// A connection to a socket.
pub fn direct_streamlocal(alloc: Global, socket_path: &str) -> Result<OpenType, WireError>
    ensures { IfOk result (λ made. made ≡ type.DirectStreamlocal socket_path.now) }
{
    Ok(OpenType::DirectStreamlocal {
        socket_path: Text::new(alloc, socket_path)?,
    })
}

/// Data of the peer.
pub fn data(alloc: Global, bytes: &[u8]) -> Result<Happening, WireError>
    ensures { IfOk result (λ made. made ≡ what.Data bytes.now) }
{
    Ok(Happening::Data {
        bytes: Bytes::copy_from_slice(alloc, bytes)?,
    })
}

/// Data of another type.
pub fn extended_data(alloc: Global, code: u32, bytes: &[u8]) -> Result<Happening, WireError>
    ensures { IfOk result (λ made. made ≡ what.ExtendedData code bytes.now) }
{
    Ok(Happening::ExtendedData {
        code,
        bytes: Bytes::copy_from_slice(alloc, bytes)?,
    })
}

// The same modes.
fn copied_modes(alloc: Global, modes: &[(Pty, u32)]) -> Result<Modes, WireError>
    ensures { IfOk result (λ copies. copies ≡ modes.now) }
{
    let mut copies = Modes::new(alloc);
    for mode in modes {
        copies.push(*mode)?;
    }
    Ok(copies)
}

/// The request of a terminal.
pub fn pty(
    alloc: Global,
    term: &str,
    col_width: u32,
    row_height: u32,
    pix_width: u32,
    pix_height: u32,
    modes: &[(Pty, u32)],
) -> Result<Happening, WireError>
    ensures { IfOk result (λ made. made ≡ what.PtyRequest term.now col_width row_height pix_width
        pix_height modes.now) }
{
    Ok(Happening::PtyRequest {
        term: Text::new(alloc, term)?,
        col_width,
        row_height,
        pix_width,
        pix_height,
        modes: copied_modes(alloc, modes)?,
    })
}

/// The request that X11 is forwarded.
pub fn x11(
    alloc: Global,
    single_connection: bool,
    x11_auth_protocol: &str,
    x11_auth_cookie: &str,
    x11_screen_number: u32,
) -> Result<Happening, WireError>
    ensures { IfOk result (λ made. made ≡ what.X11Request single_connection x11_auth_protocol.now
        x11_auth_cookie.now x11_screen_number) }
{
    Ok(Happening::X11Request {
        single_connection,
        x11_auth_protocol: Text::new(alloc, x11_auth_protocol)?,
        x11_auth_cookie: Text::new(alloc, x11_auth_cookie)?,
        x11_screen_number,
    })
}

/// A variable of the environment.
pub fn env(alloc: Global, variable_name: &str, variable_value: &str) -> Result<Happening, WireError>
    ensures { IfOk result (λ made. made ≡ what.EnvRequest variable_name.now variable_value.now) }
{
    Ok(Happening::EnvRequest {
        variable_name: Text::new(alloc, variable_name)?,
        variable_value: Text::new(alloc, variable_value)?,
    })
}

/// A program that is to be run.
pub fn exec(alloc: Global, bytes: &[u8]) -> Result<Happening, WireError>
    ensures { IfOk result (λ made. made ≡ what.ExecRequest bytes.now) }
{
    Ok(Happening::ExecRequest {
        bytes: Bytes::copy_from_slice(alloc, bytes)?,
    })
}

/// The request of a subsystem.
pub fn subsystem(alloc: Global, name: &str) -> Result<Happening, WireError>
    ensures { IfOk result (λ made. made ≡ what.SubsystemRequest name.now) }
{
    Ok(Happening::SubsystemRequest {
        name: Text::new(alloc, name)?,
    })
}

/// That connections to an address are forwarded no longer.
pub fn cancel_tcpip(alloc: Global, address: &str, port: u32) -> Result<Judged, WireError>
    ensures { IfOk result (λ made. made ≡ whether.CancelTcpipForward address.now port) }
{
    Ok(Judged::CancelTcpipForward {
        address: Text::new(alloc, address)?,
        port,
    })
}

/// That connections to a socket are forwarded.
pub fn streamlocal(alloc: Global, socket_path: &str) -> Result<Judged, WireError>
    ensures { IfOk result (λ made. made ≡ whether.StreamlocalForward socket_path.now) }
{
    Ok(Judged::StreamlocalForward {
        socket_path: Text::new(alloc, socket_path)?,
    })
}

/// That they are forwarded no longer.
pub fn cancel_streamlocal(alloc: Global, socket_path: &str) -> Result<Judged, WireError>
    ensures { IfOk result (λ made. made ≡ whether.CancelStreamlocalForward socket_path.now) }
{
    Ok(Judged::CancelStreamlocalForward {
        socket_path: Text::new(alloc, socket_path)?,
    })
}
