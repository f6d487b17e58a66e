// The kinds of authentication method.
ghost use Rattle.std.specs.Prelude.{◌≡◌, MatchResult, MatchOption};
ghost use Rattle.ssh_wire.specs.Methods.{method_name, IsNoMethod};

use std::str::FromStr;

/// A method by which a user is authenticated (RFC 4252 section 5).
#[derive(Clone, Copy, Debug, PartialEq, Eq)]
pub enum MethodKind {
    /// "none", which asks for the methods that can continue (RFC 4252 section 5.2).
    None,
    /// A password (RFC 4252 section 8).
    Password,
    /// A public key, plain or in a certificate (RFC 4252 section 7).
    PublicKey,
    /// The host that the user comes from (RFC 4252 section 9).
    HostBased,
    /// Questions and answers (RFC 4256).
    KeyboardInteractive,
    /// GSS-API with a message integrity code (RFC 4462 section 3).
    GssapiWithMic,
}

impl MethodKind {
    /// The name of this method on the wire.
    pub fn name(self) -> &'static str
        ensures { result.now ≡ method_name self }
    {
        match self {
            MethodKind::None => "none",
            MethodKind::Password => "password",
            MethodKind::PublicKey => "publickey",
            MethodKind::HostBased => "hostbased",
            MethodKind::KeyboardInteractive => "keyboard-interactive",
            MethodKind::GssapiWithMic => "gssapi-with-mic",
        }
    }
}

impl From<&MethodKind> for &'static str {
    ghost from_gives = { λ kind name. name.now ≡ method_name kind.now };

    fn from(kind: &MethodKind) -> &'static str {
        kind.name()
    }
}

/// Reads the name of a method as it stands on the wire.
impl FromStr for MethodKind {
    /// No method has this name.
    type Err = ();

    ghost from_str_gives = { λ name read. MatchResult read (λ kind. method_name kind ≡ name)
        (λ _. IsNoMethod name) };

    fn from_str(name: &str) -> Result<MethodKind, ()> {
        match name {
            "none" => Ok(MethodKind::None),
            "password" => Ok(MethodKind::Password),
            "publickey" => Ok(MethodKind::PublicKey),
            "hostbased" => Ok(MethodKind::HostBased),
            "keyboard-interactive" => Ok(MethodKind::KeyboardInteractive),
            "gssapi-with-mic" => Ok(MethodKind::GssapiWithMic),
            _ => Err(()),
        }
    }
}

/// A method's own name is read as that method.
pub fn method_from_own_name(kind: MethodKind) -> Result<MethodKind, ()>
    ensures { result ≡ Ok kind }
{
    kind.name().parse()
}
