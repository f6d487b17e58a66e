// The state of authentication between requests.
ghost use Rattle.std.specs.Prelude.{◌≡◌, Some, None, true, false, not, IfOk, IfErr, OnOk, OnErr};
ghost use Rattle.ssh_wire.specs.declared.error.WireError.TheVariants.{NoMemory};
ghost use Rattle.ssh_auth.specs.Request.{server_request, client_request, principal_of, pair_of};
ghost use Rattle.ssh_auth.specs.Request.{initial_of, is_bound, bound_to, is_probed, prompt_of};
ghost use Rattle.ssh_auth.specs.Request.{begun, count_after};
ghost use Rattle.ssh_auth.specs.declared.auth_request.CurrentRequest.TheVariants.{KeyboardInteractive};

use crate::Method;
use bytes::Bytes;
use ssh_wire::{MethodSet, Text, WireError};
use std::alloc::Global;

/// The user and the service that a request named (RFC 4252 section 5).
#[derive(Drop, PartialEq, Eq)]
pub struct Principal {
    /// The user's name.
    pub user: Text,
    /// The service that is to start once the user is authenticated.
    pub service: Text,
}

/// What was begun and is gone on with by a later request.
#[derive(Drop, PartialEq, Eq)]
pub enum CurrentRequest {
    /// A key that the client asked about (RFC 4252 section 7).
    PublicKey {
        /// The key's blob, as it was offered.
        key: Bytes,
        /// The name of the algorithm, as it was offered.
        algo: Text,
        /// Whether PK_OK was answered, so that the key may sign.
        sent_pk_ok: bool,
    },
    /// Prompts that wait for responses (RFC 4256 section 3.2).
    KeyboardInteractive {
        /// The submethods that the client would like, joined by commas.
        submethods: Text,
    },
    /// GSS-API (RFC 4462).
    GssapiWithMic,
}

/// What is known of a client that asks to be authenticated.
#[derive(Drop, PartialEq, Eq)]
pub struct AuthRequest {
    /// The methods that can continue.
    pub methods: MethodSet,
    /// Whether the last rejection was a partial success (RFC 4252 section 5.1).
    pub partial_success: bool,
    /// What was begun: the round that a request goes on with.
    pub current: Option<CurrentRequest>,
    /// How many requests and responses were rejected, partial successes left out.
    pub rejection_count: usize,
    bound: Option<Principal>,
    initial: MethodSet,
}

impl AuthRequest {
    /// Before the first request, of a server with these methods.
    pub fn server(methods: MethodSet) -> AuthRequest
        ensures { result ≡ server_request methods }
    {
        AuthRequest {
            methods,
            partial_success: false,
            current: None,
            rejection_count: 0,
            bound: None,
            initial: methods,
        }
    }

    /// Before the first request, of a client that would go on with this method: prompts and GSS-API
    /// are begun. `NoMemory` is the only error.
    pub fn new(method: &Method) -> Result<AuthRequest, WireError>
        ensures ok { IfOk result (λ auth. auth ≡ client_request method.now) }
        ensures memory { IfErr result (λ e. e ≡ NoMemory) }
    {
        let current = match method {
            Method::KeyboardInteractive { submethods } => {
                Some(CurrentRequest::KeyboardInteractive {
                    submethods: submethods.copy()?,
                })
            }
            Method::GssapiWithMic { .. } => Some(CurrentRequest::GssapiWithMic),
            _ => None,
        };
        let methods = MethodSet::client_supported();
        Ok(AuthRequest {
            methods,
            partial_success: false,
            current,
            rejection_count: 0,
            bound: None,
            initial: methods,
        })
    }

    /// The user and the service that the last request named.
    pub fn principal(&self) -> Option<(&str, &str)>
        ensures { pair_of result ≡ principal_of self.now }
    {
        match &self.bound {
            Some(principal) => Some((principal.user.as_str(), principal.service.as_str())),
            None => None,
        }
    }

    /// The methods that another user can continue with.
    pub fn initial_methods(&self) -> MethodSet
        ensures { result ≡ initial_of self.now }
    {
        self.initial
    }

    /// Binds the user and the service that a request names. True where they differ from the bound
    /// ones: then the initial methods come back, the partial flag and the round are cleared, and
    /// the count of rejections stays.
    pub fn bind_or_reset_principal(
        &mut self,
        alloc: Global,
        user: &str,
        service: &str,
    ) -> Result<bool, WireError>
        ensures ok { OnOk result (self.new ≡ bound_to self.old user.now service.now) }
        ensures differed { IfOk result (λ differed. differed
            ≡ not (is_bound self.old.bound user.now service.now)) }
        ensures restored { result ≡ Ok true → (self.new.methods ≡ initial_of self.old)
            × (self.new.partial_success ≡ false)
            × (self.new.current ≡ None) × (self.new.rejection_count ≡ self.old.rejection_count) }
        ensures memory { IfErr result (λ e. e ≡ NoMemory) }
        ensures err { OnErr result (self.new ≡ self.old) }
    {
        if let Some(bound) = &self.bound {
            if bound.user.as_str() == user && bound.service.as_str() == service {
                return Ok(false);
            }
        }
        let user = Text::new(alloc, user)?;
        let service = match Text::new(alloc, service) {
            Ok(service) => service,
            Err(e) => {
                drop(user);
                return Err(e);
            }
        };
        self.bound = Some(Principal { user, service });
        self.methods = self.initial;
        self.partial_success = false;
        self.current = None;
        Ok(true)
    }

    /// A round of prompts begins, with these submethods.
    pub(crate) fn begin_prompts(&mut self, submethods: Text)
        ensures { self.new ≡ record self.old { current = Some (KeyboardInteractive submethods) } }
    {
        self.current = Some(CurrentRequest::KeyboardInteractive { submethods });
    }

    /// Whether the round is the accepted probe of this blob under this name of an algorithm.
    pub(crate) fn is_probed(&self, name: &str, blob: &[u8]) -> bool
        ensures { result ≡ is_probed self.now.current name.now blob.now }
    {
        match &self.current {
            Some(
                CurrentRequest::PublicKey {
                    key,
                    algo,
                    sent_pk_ok,
                },
            ) => *sent_pk_ok && key.as_slice() == blob && algo.as_str() == name,
            _ => false,
        }
    }

    /// Whether it is so for a request that names this user and this service.
    pub(crate) fn was_probed(&self, user: &str, service: &str, name: &str, blob: &[u8]) -> bool
        ensures { result
            ≡ is_probed (begun self.now user.now service.now).current name.now blob.now }
    {
        match &self.bound {
            Some(bound) => {
                bound.user.as_str() == user
                    && bound.service.as_str() == service
                    && self.is_probed(name, blob)
            }
            None => false,
        }
    }

    /// The user whom prompts wait for, and the submethods of their round.
    pub(crate) fn prompt(&self) -> Option<(&str, &str)>
        ensures { pair_of result ≡ prompt_of self.now }
    {
        match (&self.current, &self.bound) {
            (Some(CurrentRequest::KeyboardInteractive { submethods }), Some(principal)) => {
                Some((principal.user.as_str(), submethods.as_str()))
            }
            _ => None,
        }
    }
}

/// The count of rejections after one more. A partial success is none.
pub(crate) fn count_after_rejection(partial_success: bool, count: usize) -> usize
    ensures { result ≡ count_after partial_success count }
{
    if partial_success {
        count
    } else {
        count.saturating_add(1)
    }
}
