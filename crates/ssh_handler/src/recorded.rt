// A handler that tells the calls that it passes on.
ghost use Rattle.std.specs.Prelude.{◌≡◌, [], ◌∷◌, ◌++◌, Some, None, Err, OnOk, OnErr, IfOk, IfErr};
ghost use Rattle.std.specs.Prelude.{IfSome, IsOk};
ghost use Rattle.ssh_link.specs.Told.{AddsOne, Tells, IsUntold};
ghost use Rattle.ssh_handler.specs.declared.recorded.RecordError.TheVariants.{NoMemory, Untold};
ghost use Rattle.ssh_handler.specs.Recording.{IsPassed, Keeps, Passes, Records, passed_on};
ghost use Rattle.ssh_auth.specs.declared.call.Call.TheVariants.{AuthenticationBanner, AuthNone};
ghost use Rattle.ssh_auth.specs.declared.call.Call.TheVariants.{AuthPassword, AuthPublickeyOffered};
ghost use Rattle.ssh_auth.specs.declared.call.Call.TheVariants.{AuthPublickey};
ghost use Rattle.ssh_auth.specs.declared.call.Call.TheVariants.{AuthOpensshCertificate};
ghost use Rattle.ssh_auth.specs.declared.call.Call.TheVariants.{AuthKeyboardInteractive};

// Passes the answer on, and tells the call of this variant, all of whose fields are Copy; and with
// a session, the commands that were recorded.
macro_rules! pass {
    ($told:expr, $inner:expr, $call:ident $(, $field:ident: $value:expr)*) => {{
        let given = $inner;
        let answer = crate::recorded::passed(given);
        let call = ssh_auth::Call::$call { $($field: $value,)* answer };
        $told.pass(given, Ok(call))
    }};
    ($told:expr, $session:expr, $inner:expr, $call:ident $(, $field:ident: $value:expr)*) => {{
        let given = $inner;
        let answer = crate::recorded::passed(given);
        match $session.copy_recorded() {
            Ok(commands) => {
                let call = ssh_auth::Call::$call { $($field: $value,)* answer, commands };
                $told.pass(given, Ok(call))
            }
            Err(e) => $told.pass(given, Err(e)),
        }
    }};
}

mod handler;

use crate::made::{
    made_auth_keyboard_interactive, made_auth_none, made_auth_openssh_certificate,
    made_auth_password, made_auth_publickey, made_auth_publickey_offered,
    made_authentication_banner,
};
use ssh_auth::{Auth, AuthHandler, Call, PublicKeyOffer, Response, Unwritten, VerifiedPublicKey};
use ssh_keys::Certificate;
use ssh_wire::{Text, WireError};
use std::alloc::Global;
use std::marker::Model;

/// Why a callback of a recording handler cannot go on.
#[derive(Clone, Copy, Debug, Drop, PartialEq, Eq)]
pub enum RecordError<E> {
    /// There was no memory to record the call. From then on no call is told.
    NoMemory,
    /// `untold` was called, as by a callback that is not written, and cannot be told. From then on
    /// no call is told.
    Untold,
    /// The inner handler answered this error.
    Inner(E),
}

// The calls so far, as long as there is memory for them. A clause sees those that are told.
#[derive(Drop)]
struct Telling<E> {
    calls: Vec<Call<RecordError<E>>>,
    goes_on: bool,
}

impl<E> Model for Telling<E> {
    ghost use Rattle.std.specs.Prelude.{List, Option};
    ghost use Rattle.ssh_auth.specs.declared.call.Call.{Call};
    ghost use Rattle.ssh_handler.specs.declared.recorded.RecordError.{RecordError};
    ghost use Rattle.ssh_handler.specs.Recording.{told_while};

    ghost Value = { Option (List (Call (RecordError E))) };

    ghost view = { λ telling. told_while telling.goes_on telling.calls.items };
}

// Adds the item at the end.
fn pushed<T: Drop>(items: &mut Vec<T>, item: T) -> Result<(), WireError>
    ensures ok { OnOk result (items.new.items ≡ items.old.items ++ item ∷ []) }
    ensures err { OnErr result (items.new.items ≡ items.old.items) }
{
    items.push(item)?;
    Ok(())
}

impl<E: Copy> Telling<E> {
    fn new(alloc: Global) -> Telling<E>
        ensures { result ≡ Some [] }
    {
        Telling {
            calls: Vec::new(alloc),
            goes_on: true,
        }
    }

    // The calls, as long as they are told.
    fn calls(&self) -> &[Call<RecordError<E>>]
        ensures { IfSome self.now (λ calls. result.now ≡ calls) }
    {
        self.calls.as_slice()
    }

    // From now on no call is told.
    fn stop(&mut self)
        ensures { self.new ≡ None }
    {
        self.goes_on = false;
    }

    // Tells the call from now on; where there is no memory for it, no call is told any more.
    fn keep(&mut self, call: Result<Call<RecordError<E>>, WireError>) -> Result<(), RecordError<E>>
        ensures ok { OnOk result (IfOk call (AddsOne self.old self.new)) }
        ensures made { OnOk result (IsOk call) }
        ensures err { OnErr result (self.new ≡ None) }
        ensures memory { IfErr result (λ e. e ≡ NoMemory) }
    {
        let kept = match call {
            Ok(call) => pushed(&mut self.calls, call),
            Err(e) => Err(e),
        };
        if kept.is_err() {
            self.goes_on = false;
            return Err(RecordError::NoMemory);
        }
        Ok(())
    }

    // Tells the call from now on, and passes its answer on; where there is no memory for it, no
    // call is told any more.
    fn pass<T: Drop>(
        &mut self,
        answer: Result<T, E>,
        call: Result<Call<RecordError<E>>, WireError>,
    ) -> Result<T, RecordError<E>>
        ensures keeps { Keeps self.old self.new result call }
        ensures passed { IsPassed answer result }
    {
        self.keep(call)?;
        passed(answer)
    }
}

/// A handler that passes each call on to another, and tells them with their answers.
#[derive(Drop)]
pub struct Recorded<H: AuthHandler> {
    pub(crate) inner: H,
    told: Telling<H::Error>,
    alloc: Global,
}

impl<H: AuthHandler> Recorded<H>
where
    H::Error: Copy,
{
    /// A handler that passes its calls on to this one, and has told none yet.
    pub fn new(alloc: Global, inner: H) -> Recorded<H>
        ensures inner { result.inner ≡ inner }
        ensures told { result.told ≡ Some [] }
    {
        Recorded {
            inner,
            told: Telling::new(alloc),
            alloc,
        }
    }

    /// The calls that are told, in order. Once memory was wanting none is told, and some are
    /// missing here.
    pub fn calls(&self) -> &[Call<RecordError<H::Error>>]
        ensures { IfSome self.now.told (λ calls. result.now ≡ calls) }
    {
        self.told.calls()
    }
}

// The answer of the inner handler as it is passed on.
pub(crate) fn passed<T, E>(answer: Result<T, E>) -> Result<T, RecordError<E>>
    ensures { result ≡ passed_on answer }
{
    match answer {
        Ok(value) => Ok(value),
        Err(e) => Err(RecordError::Inner(e)),
    }
}

impl<H: AuthHandler> AuthHandler for Recorded<H>
where
    H::Error: Copy,
{
    type Error = RecordError<H::Error>;

    ghost told = { λ r. r.told };

    fn untold(&mut self, _by: Unwritten) -> Result<(), RecordError<H::Error>>
        ensures untold { result ≡ Err Untold }
        ensures stops { self.new.told ≡ None }
        ensures told { IsUntold self.old.told self.new.told result }
    {
        self.told.stop();
        Err(RecordError::Untold)
    }

    fn authentication_banner(&mut self) -> Result<Option<Text>, RecordError<H::Error>>
        ensures tells { Tells self.old.told self.new.told result (AuthenticationBanner result) }
        ensures records { Records self.old.told self.new.told result (AuthenticationBanner result) }
        ensures passes { Passes H.told self.old.inner self.new.inner result AuthenticationBanner }
    {
        let answer = self.inner.authentication_banner();
        let call = made_authentication_banner(&answer);
        self.told.pass(answer, call)
    }

    fn auth_none(&mut self, user: &str) -> Result<Auth, RecordError<H::Error>>
        ensures tells { Tells self.old.told self.new.told result (AuthNone user.now result) }
        ensures records { Records self.old.told self.new.told result (AuthNone user.now result) }
        ensures passes { Passes H.told self.old.inner self.new.inner result (AuthNone user.now) }
    {
        let answer = self.inner.auth_none(user);
        let call = made_auth_none(self.alloc, user, &answer);
        self.told.pass(answer, call)
    }

    fn auth_password(&mut self, user: &str, password: &str) -> Result<Auth, RecordError<H::Error>>
        ensures tells { Tells self.old.told self.new.told result (AuthPassword user.now password.now
            result) }
        ensures records { Records self.old.told self.new.told result
            (AuthPassword user.now password.now result) }
        ensures passes { Passes H.told self.old.inner self.new.inner result
            (AuthPassword user.now password.now) }
    {
        let answer = self.inner.auth_password(user, password);
        let call = made_auth_password(self.alloc, user, password, &answer);
        self.told.pass(answer, call)
    }

    fn auth_publickey_offered(
        &mut self,
        user: &str,
        offer: PublicKeyOffer<'_>,
    ) -> Result<Auth, RecordError<H::Error>>
        ensures tells { Tells self.old.told self.new.told result
            (AuthPublickeyOffered user.now offer.entry.public_key.now offer.entry.algorithm
            result) }
        ensures records { Records self.old.told self.new.told result
            (AuthPublickeyOffered user.now offer.entry.public_key.now offer.entry.algorithm
            result) }
        ensures passes { Passes H.told self.old.inner self.new.inner result
            (AuthPublickeyOffered user.now offer.entry.public_key.now offer.entry.algorithm) }
    {
        let PublicKeyOffer {
            public_key,
            algorithm,
        } = offer;
        let answer = self.inner.auth_publickey_offered(user, offer);
        let call = made_auth_publickey_offered(self.alloc, user, public_key, algorithm, &answer);
        self.told.pass(answer, call)
    }

    fn auth_publickey(
        &mut self,
        user: &str,
        key: VerifiedPublicKey<'_>,
    ) -> Result<Auth, RecordError<H::Error>>
        ensures tells { Tells self.old.told self.new.told result
            (AuthPublickey user.now key.entry.public_key.now key.entry.algorithm result) }
        ensures records { Records self.old.told self.new.told result
            (AuthPublickey user.now key.entry.public_key.now key.entry.algorithm result) }
        ensures passes { Passes H.told self.old.inner self.new.inner result
            (AuthPublickey user.now key.entry.public_key.now key.entry.algorithm) }
    {
        let VerifiedPublicKey {
            public_key,
            algorithm,
        } = key;
        let answer = self.inner.auth_publickey(user, key);
        let call = made_auth_publickey(self.alloc, user, public_key, algorithm, &answer);
        self.told.pass(answer, call)
    }

    fn auth_openssh_certificate(
        &mut self,
        user: &str,
        certificate: &Certificate,
    ) -> Result<Auth, RecordError<H::Error>>
        ensures tells { Tells self.old.told self.new.told result
            (AuthOpensshCertificate user.now certificate.now result) }
        ensures records { Records self.old.told self.new.told result
            (AuthOpensshCertificate user.now certificate.now result) }
        ensures passes { Passes H.told self.old.inner self.new.inner result
            (AuthOpensshCertificate user.now certificate.now) }
    {
        let answer = self.inner.auth_openssh_certificate(user, certificate);
        let call = made_auth_openssh_certificate(self.alloc, user, certificate, &answer);
        self.told.pass(answer, call)
    }

    fn auth_keyboard_interactive(
        &mut self,
        user: &str,
        submethods: &str,
        response: Option<Response<'_>>,
    ) -> Result<Auth, RecordError<H::Error>>
        ensures tells { Tells self.old.told self.new.told result
            (AuthKeyboardInteractive user.now submethods.now response.entry result) }
        ensures records { Records self.old.told self.new.told result
            (AuthKeyboardInteractive user.now submethods.now response.entry result) }
        ensures passes { Passes H.told self.old.inner self.new.inner result
            (AuthKeyboardInteractive user.now submethods.now response.entry) }
    {
        let told = match &response {
            Some(response) => Some(response.copy()),
            None => None,
        };
        let answer = self
            .inner
            .auth_keyboard_interactive(user, submethods, response);
        let call = made_auth_keyboard_interactive(self.alloc, user, submethods, told, &answer);
        self.told.pass(answer, call)
    }
}
