// What a handler answers to a request of authentication.
ghost use Rattle.std.specs.Prelude.{◌≡◌, None, false, IfOk, IfErr};
ghost use Rattle.ssh_wire.specs.declared.error.WireError.TheVariants.{NoMemory};
ghost use Rattle.ssh_auth.specs.declared.auth.Auth.TheVariants.{Reject};

use crate::Prompts;
use ssh_wire::{MethodSet, Text, WireError};
use std::alloc::Global;

/// The answer to an authentication request (RFC 4252 section 5.1).
#[derive(Drop, PartialEq, Eq)]
pub enum Auth {
    /// The request is refused.
    Reject {
        /// The methods that can continue from now on. None takes none and password away where they
        /// were refused, and leaves the list as it is after any other method.
        proceed_with_methods: Option<MethodSet>,
        /// Whether the request was right, and more is needed.
        partial_success: bool,
    },
    /// The user is authenticated.
    Accept,
    /// The server does not have the method: none and password are taken away from those that can
    /// continue, a key or a certificate is refused, and keyboard-interactive ends the run with
    /// `UnsupportedAuthMethod`.
    UnsupportedMethod,
    /// The user is prompted, and goes on with a response (RFC 4256 section 3.2). Only
    /// keyboard-interactive can be answered so; to other methods it says what `UnsupportedMethod`
    /// does.
    Partial {
        /// What the prompts are about.
        name: Text,
        /// What the user is told before them.
        instructions: Text,
        /// The prompts.
        prompts: Prompts,
    },
}

impl Auth {
    /// A plain refusal: it names no methods, and nothing was right.
    pub fn reject() -> Auth
        ensures { result ≡ Reject None false }
    {
        Auth::Reject {
            proceed_with_methods: None,
            partial_success: false,
        }
    }

    /// An equal answer. `NoMemory` is the only error.
    pub fn copy(&self, alloc: Global) -> Result<Auth, WireError>
        ensures ok { IfOk result (λ auth. auth ≡ self.now) }
        ensures memory { IfErr result (λ e. e ≡ NoMemory) }
    {
        match self {
            Auth::Reject {
                proceed_with_methods,
                partial_success,
            } => Ok(Auth::Reject {
                proceed_with_methods: *proceed_with_methods,
                partial_success: *partial_success,
            }),
            Auth::Accept => Ok(Auth::Accept),
            Auth::UnsupportedMethod => Ok(Auth::UnsupportedMethod),
            Auth::Partial {
                name,
                instructions,
                prompts,
            } => Ok(Auth::Partial {
                name: name.copy()?,
                instructions: instructions.copy()?,
                prompts: prompts.copy(alloc)?,
            }),
        }
    }
}
