// The service request (RFC 4253 section 10).
ghost use Rattle.std.specs.Prelude.{ℕ, List, Some, None, Result};
ghost use Rattle.ssh_wire.specs.declared.error.WireError.{WireError as Misfit};
ghost use Rattle.ssh_rules.specs.World.{World};
ghost use Rattle.ssh_rules.specs.Outcome.{Goes};
ghost use Rattle.ssh_auth.specs.Plan.{Finish};
ghost use Rattle.ssh_rules.specs.Spelling.{Spells};
ghost use Rattle.ssh_rules.specs.Reading.{said_of, Service, service};
ghost use Rattle.ssh_rules.specs.Rows.{row, service_row, served, greets};
ghost use Rattle.ssh_serving.specs.Serve.{Stays, IsSameServer, Refines, Serves, Completes, Turned};

use crate::Server;
use crate::outside::Outside;
use ssh_auth::AuthRequest;
use ssh_messages::{banner_frame, read_text, service_accept_frame};
use ssh_rules::{EncryptedState, Flow, RunError};
use ssh_wire::Text;

impl Server {
    /// SERVICE_REQUEST.
    pub(crate) fn serve_service_request<O: Outside>(
        &mut self,
        outside: &mut O,
        fields: &[u8],
    ) -> Result<Flow, RunError<O::Error, O::KexError>>
        ensures does { (w : World) (moment : ℕ) → Refines self.old w →
            (read : Result (List ℕ) Misfit) × Spells service fields.now read
            × Completes (row w moment (said_of Service read)) (O.Transport.heard outside.old)
            (O.Transport.heard outside.new) self.new result }
        ensures stays { Stays O.Transport.heard self.old self.new outside.old outside.new }
    {
        let name = read_text(fields)?;
        self.serve_service(outside, name)?;
        Ok(Flow::Continue)
    }

    /// The service `ssh-userauth` asks for a banner; another does nothing.
    fn serve_service<O: Outside>(
        &mut self,
        outside: &mut O,
        name: &str,
    ) -> Result<(), RunError<O::Error, O::KexError>>
        ensures does { (w : World) → Refines self.old w →
            Serves (service_row w name.now) (λ _ world. Finish (Goes world))
            (O.Transport.heard outside.old) (O.Transport.heard outside.new) self.new result }
        ensures stays { Stays O.Transport.heard self.old self.new outside.old outside.new }
    {
        if name != "ssh-userauth" {
            return Ok(());
        }
        match outside.banner() {
            Ok(banner) => self.greet(banner),
            Err(e) => Err(RunError::Handler(e)),
        }
    }

    /// SERVICE_ACCEPT, and USERAUTH_BANNER where there is one (RFC 4252 section 5.4). Requests of
    /// authentication are read from now on.
    fn greet<E, F>(&mut self, banner: Option<Text>) -> Result<(), RunError<E, F>>
        ensures does { (w : World) → Refines self.old w → Turned (greets banner) w self.new result }
        ensures session { IsSameServer self.old self.new }
    {
        match banner {
            Some(message) => {
                let greeted = self.greet_with(message.as_str());
                drop(message);
                greeted
            }
            None => self.greet_alone(),
        }
    }

    /// SERVICE_ACCEPT alone.
    fn greet_alone<E, F>(&mut self) -> Result<(), RunError<E, F>>
        ensures does { (w : World) → Refines self.old w → Turned (greets None) w self.new result }
        ensures session { IsSameServer self.old self.new }
    {
        let accept = service_accept_frame(self.alloc)?;
        self.wait_for_requests();
        self.table.stage(accept)?;
        Ok(())
    }

    /// SERVICE_ACCEPT, and this USERAUTH_BANNER.
    fn greet_with<E, F>(&mut self, message: &str) -> Result<(), RunError<E, F>>
        ensures does { (w : World) → Refines self.old w →
            Turned (greets (Some message.now)) w self.new result }
        ensures session { IsSameServer self.old self.new }
    {
        let accept = service_accept_frame(self.alloc)?;
        let banner = banner_frame(self.alloc, message)?;
        self.wait_for_requests();
        self.table.stage(accept)?;
        self.table.stage(banner)?;
        Ok(())
    }

    /// Requests of authentication are read from now on.
    fn wait_for_requests(&mut self)
        ensures world { (w : World) → Refines self.old w → Refines self.new (served w) }
        ensures session { IsSameServer self.old self.new }
    {
        self.state = EncryptedState::WaitingAuthRequest(AuthRequest::server(
            self.common.config.methods,
        ));
    }
}
