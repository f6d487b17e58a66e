// Why a request of authentication, or a response, gets no reply.
ghost use Rattle.std.specs.Prelude.{◌≡◌};
ghost use Rattle.ssh_auth.specs.Failure.{auth_error_of, auth_error_of_key};

use ssh_keys::KeyError;
use ssh_wire::WireError;

/// Why a request of authentication, or a response to prompts, gets no reply. `E` is the handler's
/// error.
#[derive(Debug, Drop)]
pub enum AuthError<E> {
    /// There was no memory.
    NoMemory,
    /// A field of the payload does not fit its layout; or it is `TooLong`, and the reply that the
    /// handler's answer asks for would have more than 2^32 - 1 bytes.
    Encoding(WireError),
    /// The request names another service than `ssh-connection`.
    Inconsistent,
    /// The blob of a key or a certificate does not fit its layout, or else the signature of one
    /// that can be used does not: always `KeyError::Blob`.
    Key(KeyError),
    /// The handler answered `Auth::UnsupportedMethod` to a user of keyboard-interactive.
    UnsupportedAuthMethod,
    /// The handler answered this error.
    Handler(E),
}

impl<E> From<WireError> for AuthError<E> {
    ghost from_gives = { λ e r. r ≡ auth_error_of e };

    fn from(error: WireError) -> AuthError<E> {
        match error {
            WireError::NoMemory => AuthError::NoMemory,
            refused => AuthError::Encoding(refused),
        }
    }
}

impl<E> From<KeyError> for AuthError<E> {
    ghost from_gives = { λ e r. r ≡ auth_error_of_key e };

    fn from(error: KeyError) -> AuthError<E> {
        match error {
            KeyError::NoMemory => AuthError::NoMemory,
            refused => AuthError::Key(refused),
        }
    }
}
