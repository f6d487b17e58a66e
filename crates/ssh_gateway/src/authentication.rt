// The callbacks of a gateway's handler while a user is authenticated.
ghost use Rattle.std.specs.Prelude.{◌≡◌};
ghost use Rattle.ssh_handler.specs.Recording.{passed_on};

use crate::keeper::{Keeper, Pin};
use ssh_auth::{Auth, AuthHandler, PublicKeyOffer, Response, Unwritten, VerifiedPublicKey};
use ssh_handler::RecordError;
use ssh_keys::Certificate;
use ssh_wire::Text;

// An answer of the handler of authentication, as it is passed on.
fn passed<T, E>(answer: Result<T, E>) -> Result<T, RecordError<E>>
    ensures { result ≡ passed_on answer }
{
    match answer {
        Ok(value) => Ok(value),
        Err(e) => Err(RecordError::Inner(e)),
    }
}

impl<A: AuthHandler, J: Pin> AuthHandler for Keeper<'_, '_, A, J> {
    type Error = RecordError<A::Error>;

    ghost use Rattle.ssh_gateway.specs.Answering.{told_of};

    // It tells by whom it goes, what that one told, and what else was asked.
    ghost told = { λ keeper. told_of keeper.auth.ghost_name (A.told keeper.auth.now)
        keeper.notebook.now };

    fn untold(&mut self, _by: Unwritten) -> Result<(), RecordError<A::Error>> {
        self.notebook.loses()
    }

    fn authentication_banner(&mut self) -> Result<Option<Text>, RecordError<A::Error>> {
        self.notebook.begins()?;
        passed(self.auth.authentication_banner())
    }

    fn auth_none(&mut self, user: &str) -> Result<Auth, RecordError<A::Error>> {
        self.notebook.begins()?;
        passed(self.auth.auth_none(user))
    }

    fn auth_password(&mut self, user: &str, password: &str) -> Result<Auth, RecordError<A::Error>> {
        self.notebook.begins()?;
        passed(self.auth.auth_password(user, password))
    }

    fn auth_publickey_offered(
        &mut self,
        user: &str,
        offer: PublicKeyOffer<'_>,
    ) -> Result<Auth, RecordError<A::Error>> {
        self.notebook.begins()?;
        passed(self.auth.auth_publickey_offered(user, offer))
    }

    fn auth_publickey(
        &mut self,
        user: &str,
        key: VerifiedPublicKey<'_>,
    ) -> Result<Auth, RecordError<A::Error>> {
        self.notebook.begins()?;
        passed(self.auth.auth_publickey(user, key))
    }

    fn auth_openssh_certificate(
        &mut self,
        user: &str,
        certificate: &Certificate,
    ) -> Result<Auth, RecordError<A::Error>> {
        self.notebook.begins()?;
        passed(self.auth.auth_openssh_certificate(user, certificate))
    }

    fn auth_keyboard_interactive(
        &mut self,
        user: &str,
        submethods: &str,
        response: Option<Response<'_>>,
    ) -> Result<Auth, RecordError<A::Error>> {
        self.notebook.begins()?;
        passed(
            self.auth
                .auth_keyboard_interactive(user, submethods, response),
        )
    }
}
