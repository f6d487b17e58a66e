// The callbacks of a script's handler while a user is authenticated.
use crate::asked::{keep, or_lost};
use crate::script_handler::{ScriptError, ScriptHandler, banner_of, copied};
use ssh_auth::{
    Auth, AuthHandler, PublicKeyOffer, Question, Response, Unwritten, VerifiedPublicKey,
};
use ssh_handler::RecordError;
use ssh_keys::Certificate;
use ssh_questions::made;
use ssh_wire::Text;

impl AuthHandler for ScriptHandler {
    type Error = RecordError<ScriptError>;

    ghost use Rattle.ssh_players.specs.Telling.{told_by};

    // It tells first what it answers by, and then its calls.
    ghost told = { told_by };

    fn untold(&mut self, _by: Unwritten) -> Result<(), RecordError<ScriptError>> {
        self.lost = true;
        Err(RecordError::Untold)
    }

    fn authentication_banner(&mut self) -> Result<Option<Text>, RecordError<ScriptError>> {
        let banner = or_lost(&mut self.lost, copied(&self.answers.banner))?;
        keep(&mut self.asked, &mut self.lost, Question::Banner)?;
        let answer = banner_of(self.banners_left, banner);
        self.banners_left = self.banners_left.saturating_sub(1);
        answer
    }

    fn auth_none(&mut self, user: &str) -> Result<Auth, RecordError<ScriptError>> {
        let Ok(admission) = made::none(self.alloc, user) else {
            return self.loses();
        };
        self.admits(admission)
    }

    fn auth_password(
        &mut self,
        user: &str,
        password: &str,
    ) -> Result<Auth, RecordError<ScriptError>> {
        let Ok(admission) = made::password(self.alloc, user, password) else {
            return self.loses();
        };
        self.admits(admission)
    }

    fn auth_publickey_offered(
        &mut self,
        user: &str,
        offer: PublicKeyOffer<'_>,
    ) -> Result<Auth, RecordError<ScriptError>> {
        let Ok(admission) = made::offered(self.alloc, user, offer) else {
            return self.loses();
        };
        self.admits(admission)
    }

    fn auth_publickey(
        &mut self,
        user: &str,
        key: VerifiedPublicKey<'_>,
    ) -> Result<Auth, RecordError<ScriptError>> {
        let Ok(admission) = made::publickey(self.alloc, user, key) else {
            return self.loses();
        };
        self.admits(admission)
    }

    fn auth_openssh_certificate(
        &mut self,
        user: &str,
        certificate: &Certificate,
    ) -> Result<Auth, RecordError<ScriptError>> {
        let Ok(admission) = made::certificate(self.alloc, user, certificate) else {
            return self.loses();
        };
        self.admits(admission)
    }

    fn auth_keyboard_interactive(
        &mut self,
        user: &str,
        submethods: &str,
        response: Option<Response<'_>>,
    ) -> Result<Auth, RecordError<ScriptError>> {
        let Ok(admission) = made::interactive(self.alloc, user, submethods, response) else {
            return self.loses();
        };
        self.admits(admission)
    }
}
