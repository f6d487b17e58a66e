// The outside of a run, of a handler, an exchange of keys and a link, and that of a flush.
ghost use Rattle.std.specs.Prelude.{◌≡◌, None};

use bytes::Bytes;
use ssh_auth::{AuthError, AuthRequest, AuthStep, Judged, Lent, serve_request, serve_response};
use ssh_handler::{Handler, ask, judge};
use ssh_keys::Verifier;
use ssh_link::{
    CommandList, CommandOutcome, Frame, Kex, KexFault, KexStep, Link, LinkFault, Notice,
};
use ssh_serving::{Outside, Server, Transport};
use ssh_wire::{ChannelId, Text};
use std::alloc::Global;

/// A handler, an exchange of keys and a link.
#[derive(Drop)]
pub(crate) struct Sides<'a, H, K, L> {
    pub(crate) handler: &'a mut H,
    pub(crate) kex: &'a mut K,
    pub(crate) link: &'a mut L,
}

impl<'a, H: Handler, K: Kex, L: Link> Sides<'a, H, K, L> {
    /// These three.
    pub(crate) fn new(handler: &'a mut H, kex: &'a mut K, link: &'a mut L) -> Sides<'a, H, K, L>
        ensures same_handler { result.handler.ghost_name ≡ handler.entry.ghost_name }
        ensures same_kex { result.kex.ghost_name ≡ kex.entry.ghost_name }
        ensures same_link { result.link.ghost_name ≡ link.entry.ghost_name }
        ensures handler { result.handler.now ≡ handler.old }
        ensures kex { result.kex.now ≡ kex.old }
        ensures link { result.link.now ≡ link.old }
    {
        Sides { handler, kex, link }
    }
}

impl<'a, H: Handler, K: Kex, L: Link> Transport for Sides<'a, H, K, L> {
    type Error = H::Error;

    type KexError = K::Error;

    ghost heard = { λ sides. record {
      calls = H.AuthHandler.told sides.handler.now;
      steps = K.steps sides.kex.now;
      trace = L.trace sides.link.now;
      faults = L.faults sides.link.now;
      starved = L.starved sides.link.now;
      handler = sides.handler.ghost_name;
      kex = sides.kex.ghost_name;
      link = sides.link.ghost_name;
      repeats = K.repeats sides.kex.now;
    } };

    fn notice(&mut self, notice: Notice) -> Result<(), LinkFault> {
        self.link.notice(notice)
    }

    fn answer(&mut self, ticket: u64, outcome: CommandOutcome) -> Result<(), LinkFault> {
        self.link.answer(ticket, outcome)
    }

    fn send(&mut self, frame: Frame) -> Result<(), LinkFault> {
        self.link.send(frame)
    }

    fn repeatable(&self) -> bool {
        self.kex.repeatable()
    }

    fn begin_exchange(&mut self) -> Result<Bytes, KexFault<K::Error>> {
        self.kex.begin()
    }

    fn step_exchange(&mut self, payload: &[u8]) -> Result<KexStep, KexFault<K::Error>> {
        self.kex.step(payload)
    }
}

impl<'a, H: Handler, K: Kex, L: Link> Outside for Sides<'a, H, K, L> {
    ghost suits = { H.suits };

    fn banner(&mut self) -> Result<Option<Text>, H::Error> {
        self.handler.authentication_banner()
    }

    fn request<V: Verifier>(
        &mut self,
        alloc: Global,
        auth: &mut AuthRequest,
        verifier: &V,
        session_id: &[u8],
        moment: u64,
        payload: &[u8],
    ) -> Result<AuthStep, AuthError<H::Error>> {
        serve_request(
            alloc,
            auth,
            self.handler,
            verifier,
            session_id,
            moment,
            payload,
        )
    }

    fn response(
        &mut self,
        alloc: Global,
        auth: &mut AuthRequest,
        payload: &[u8],
    ) -> Result<AuthStep, AuthError<H::Error>> {
        serve_response(alloc, auth, self.handler, payload)
    }

    fn ask(&mut self, server: &Server, lent: Lent) -> Result<CommandList, H::Error> {
        let mut commands = server.lend();
        match ask(self.handler, lent, &mut commands) {
            Ok(()) => Ok(commands.into_list()),
            Err(e) => {
                drop(commands);
                Err(e)
            }
        }
    }

    fn judge(&mut self, server: &Server, judged: Judged) -> Result<(bool, CommandList), H::Error> {
        let mut commands = server.lend();
        match judge(self.handler, judged, &mut commands) {
            Ok(granted) => Ok((granted, commands.into_list())),
            Err(e) => {
                drop(commands);
                Err(e)
            }
        }
    }

    fn listen(
        &mut self,
        server: &Server,
        address: &str,
        port: u32,
    ) -> Result<(bool, u32, CommandList), H::Error> {
        let mut commands = server.lend();
        let mut bound = port;
        match self
            .handler
            .tcpip_forward(address, &mut bound, &mut commands)
        {
            Ok(granted) => Ok((granted, bound, commands.into_list())),
            Err(e) => {
                drop(commands);
                Err(e)
            }
        }
    }

    fn adjust_window(&mut self, channel: ChannelId, current: u32) -> Result<u32, H::Error> {
        self.handler.adjust_window(channel, current)
    }

    fn command_done(&mut self, place: usize, outcome: CommandOutcome) -> Result<(), H::Error> {
        self.handler.command_done(place, outcome)
    }
}

/// An exchange of keys and a link, where no callback is made: the name of a handler is that of the
/// exchange.
#[derive(Drop)]
pub(crate) struct Ends<'a, K, L> {
    pub(crate) kex: &'a mut K,
    pub(crate) link: &'a mut L,
}

impl<'a, K: Kex, L: Link> Ends<'a, K, L> {
    /// These two.
    pub(crate) fn new(kex: &'a mut K, link: &'a mut L) -> Ends<'a, K, L>
        ensures same_kex { result.kex.ghost_name ≡ kex.entry.ghost_name }
        ensures same_link { result.link.ghost_name ≡ link.entry.ghost_name }
        ensures kex { result.kex.now ≡ kex.old }
        ensures link { result.link.now ≡ link.old }
    {
        Ends { kex, link }
    }
}

impl<'a, K: Kex, L: Link> Transport for Ends<'a, K, L> {
    type Error = ();

    type KexError = K::Error;

    ghost heard = { λ ends. record {
      calls = None;
      steps = K.steps ends.kex.now;
      trace = L.trace ends.link.now;
      faults = L.faults ends.link.now;
      starved = L.starved ends.link.now;
      handler = ends.kex.ghost_name;
      kex = ends.kex.ghost_name;
      link = ends.link.ghost_name;
      repeats = K.repeats ends.kex.now;
    } };

    fn notice(&mut self, notice: Notice) -> Result<(), LinkFault> {
        self.link.notice(notice)
    }

    fn answer(&mut self, ticket: u64, outcome: CommandOutcome) -> Result<(), LinkFault> {
        self.link.answer(ticket, outcome)
    }

    fn send(&mut self, frame: Frame) -> Result<(), LinkFault> {
        self.link.send(frame)
    }

    fn repeatable(&self) -> bool {
        self.kex.repeatable()
    }

    fn begin_exchange(&mut self) -> Result<Bytes, KexFault<K::Error>> {
        self.kex.begin()
    }

    fn step_exchange(&mut self, payload: &[u8]) -> Result<KexStep, KexFault<K::Error>> {
        self.kex.step(payload)
    }
}
