// A script of a gateway.
ghost use Rattle.std.specs.Prelude.{◌≡◌, ℕ, List, Some, None, IfOk, OnOk, if◌then◌else◌};
ghost use Rattle.ssh_scene.specs.Scene.{lines_of};
ghost use Rattle.ssh_scene_gateway.specs.GatewayScene.{opening_gateway, with_host, TakesWords};
ghost use Rattle.ssh_scene_gateway.specs.GatewayScene.{TakesLine, BringsGateway, gateway_of};
ghost use Rattle.ssh_scene_gateway.specs.GatewayScene.{gateway_seen};

use crate::hosts::{HostLine, HostWord, host_line, host_words};
use crate::targets::ScriptHost;
use ssh_gateway::ListPolicy;
use ssh_scene::{Script, Stage, first_line};
use std::alloc::{AllocError, Global};

/// What a script of a gateway says.
#[derive(Drop)]
pub struct GatewayScript {
    /// What its other lines say, as those of a session.
    pub session: Script,
    /// Which hosts may be reached.
    pub policy: ListPolicy,
    /// The hosts that can be reached, with what each gives.
    pub hosts: Vec<ScriptHost>,
}

impl GatewayScript {
    /// What no line says.
    fn new(alloc: Global) -> Result<GatewayScript, AllocError>
        ensures { IfOk result (λ script. gateway_of script ≡ opening_gateway) }
    {
        Ok(GatewayScript {
            session: Script::new(alloc)?,
            policy: ListPolicy::new(alloc),
            hosts: Vec::new(alloc),
        })
    }

    /// Takes in what is said of a host.
    fn set(&mut self, line: HostLine) -> Result<(), AllocError>
        ensures { OnOk result (with_host line (gateway_of self.old) ≡ gateway_of self.new) }
    {
        match line {
            HostLine::Allow(host, port) => self.policy.allow(host, port).or(Err(AllocError)),
            HostLine::Target(host) => {
                self.hosts.push(host)?;
                Ok(())
            }
        }
    }

    /// Takes in a line that begins with this word; false where it is bad, or stands behind an
    /// input.
    fn read_host(&mut self, alloc: Global, word: HostWord, rest: &str) -> Result<bool, AllocError>
        ensures { IfOk result (λ done. (text : List ℕ) → TakesWords (Some (word, rest.now))
            (gateway_of self.old) text (if done then Some (gateway_of self.new) else None)) }
    {
        let Some(line) = host_line(alloc, word, rest)? else {
            return Ok(false);
        };
        if self.session.stage != Stage::Settings {
            drop(line);
            return Ok(false);
        }
        self.set(line)?;
        Ok(true)
    }

    /// Takes in the next line; false where it is bad, or may not stand here.
    fn read(&mut self, alloc: Global, line: &[u8]) -> Result<bool, AllocError>
        ensures { IfOk result (λ done. TakesLine (gateway_of self.old) line.now
            (if done then Some (gateway_of self.new) else None)) }
    {
        match host_words(line) {
            Some((word, rest)) => self.read_host(alloc, word, rest),
            None => self.session.read(alloc, line),
        }
    }
}

/// What the lines say together, or the number of the first one that is bad.
pub fn read_gateway(alloc: Global, text: &[u8]) -> Result<Result<GatewayScript, u64>, AllocError>
    ensures { IfOk result (λ read. BringsGateway (lines_of text.now) (gateway_seen read)) }
{
    let mut script = GatewayScript::new(alloc)?;
    let mut rest = text;
    let mut done: u64 = 0;
    while let Some((line, more)) = first_line(rest) {
        done += 1;
        if !script.read(alloc, line)? {
            return Ok(Err(done));
        }
        rest = more;
    }
    Ok(Ok(script))
}
