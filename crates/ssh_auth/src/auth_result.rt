// How a request of authentication ended.
ghost use Rattle.std.specs.Prelude.{◌≡◌, ◌↔◌, IsTrue};
ghost use Rattle.ssh_auth.specs.declared.auth_result.AuthResult.TheVariants.{Success};

use ssh_wire::MethodSet;

/// How a request of authentication ended (RFC 4252 section 5.1).
#[derive(Clone, Copy, PartialEq, Eq)]
pub enum AuthResult {
    /// The user is authenticated.
    Success,
    /// The request was refused.
    Failure {
        /// The methods that can continue.
        remaining_methods: MethodSet,
        /// Whether the request was right, and more is needed.
        partial_success: bool,
    },
}

impl AuthResult {
    /// Whether the user is authenticated.
    pub fn success(&self) -> bool
        ensures { IsTrue result ↔ (self.now ≡ Success) }
    {
        match self {
            AuthResult::Success => true,
            AuthResult::Failure { .. } => false,
        }
    }
}
