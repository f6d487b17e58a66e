// What the lines of a script say together.
ghost use Rattle.std.specs.Prelude.{◌≡◌, ◌<◌, ◌+◌, ◌∷◌, [], length, Some, None, if◌then◌else◌};
ghost use Rattle.std.specs.Prelude.{IfOk, OnOk, IfSome, MatchOption};
ghost use Rattle.ssh_scene.specs.declared.lines.Setting.TheVariants as setting;
ghost use Rattle.ssh_link.specs.declared.frame.InputKind.TheVariants as kind;
ghost use Rattle.ssh_scene.specs.Scene.{scene_of, seen, opening_scene, set, with_input};
ghost use Rattle.ssh_scene.specs.Scene.{with_ticket, after_input, taken, with_line, lines_of};
ghost use Rattle.ssh_scene.specs.Scene.{TakesIn, Gives};

use crate::answers::{Answers, DataVerdict, ForwardVerdict, OpenVerdict, RequestVerdict, Standing};
use crate::grammar::read_line;
use crate::lines::{InputLine, Line, Setting};
use crate::script::{Script, Stage};
use bytes::Bytes;
use ssh_handler::Config;
use ssh_keys::{AcceptedSignature, TableVerifier};
use ssh_link::{Command, Input, InputKind, OpenAnswer};
use std::alloc::{AllocError, Global};

impl Script {
    /// What no line says.
    pub fn new(alloc: Global) -> Result<Script, AllocError>
        ensures { IfOk result (λ script. scene_of script ≡ opening_scene) }
    {
        Ok(Script {
            session_id: Bytes::copy_from_slice(alloc, &[])?,
            max_inputs: 1_000_000,
            config: Config::standard(),
            verifier: TableVerifier::new(alloc),
            answers: Answers {
                none: Vec::new(alloc),
                password: Vec::new(alloc),
                offered: Vec::new(alloc),
                publickey: Vec::new(alloc),
                certificate: Vec::new(alloc),
                interactive: Vec::new(alloc),
                failing_banners: 0,
                banner: None,
                standing: Standing {
                    opens: OpenVerdict::Accept,
                    incoming: DataVerdict::Silent,
                    requests: RequestVerdict::Success,
                    forwards: ForwardVerdict::No,
                },
            },
            tickets: 0,
            inputs: Vec::new(alloc),
            moment: 0,
            stage: Stage::Settings,
        })
    }

    /// Takes in a setting; false where it is out of range.
    fn set(&mut self, setting: Setting) -> Result<bool, AllocError>
        ensures { IfOk result (λ done. set setting (scene_of self.old)
            ≡ (if done then Some (scene_of self.new) else None)) }
    {
        match setting {
            Setting::Session(id) => {
                if id.len() > 0xffff_ffff {
                    return Ok(false);
                }
                self.session_id = id;
            }
            Setting::Inputs(count) => self.max_inputs = count,
            Setting::Window(size) => self.config.window_size = size,
            Setting::Packet(size) => self.config.maximum_packet_size = size,
            Setting::Reject(time) => self.config.auth_rejection_time = time,
            Setting::RejectInitial(time) => self.config.auth_rejection_time_initial = Some(time),
            Setting::Attempts(count) => self.config.max_auth_attempts = count as usize,
            Setting::Keepalive(count) => self.config.keepalive_max = count as usize,
            Setting::RekeyWrite(bytes) => self.config.limits.rekey_write_limit = bytes,
            Setting::RekeyRead(bytes) => self.config.limits.rekey_read_limit = bytes,
            Setting::Sign(accepted) => self.accept(accepted)?,
            Setting::AnswerNone(verdict) => self.answers.none.push(verdict)?,
            Setting::AnswerPassword(verdict) => self.answers.password.push(verdict)?,
            Setting::AnswerOffered(verdict) => self.answers.offered.push(verdict)?,
            Setting::AnswerPublickey(verdict) => self.answers.publickey.push(verdict)?,
            Setting::AnswerCertificate(verdict) => self.answers.certificate.push(verdict)?,
            Setting::AnswerInteractive(verdict) => self.answers.interactive.push(verdict)?,
            Setting::FailBanner => {
                let more = self.answers.failing_banners.checked_add(1);
                self.answers.failing_banners = more.ok_or(AllocError)?;
            }
            Setting::Banner(text) => self.answers.banner = Some(text),
            Setting::AnswerOpen(verdict) => self.answers.standing.opens = verdict,
            Setting::AnswerData(verdict) => self.answers.standing.incoming = verdict,
            Setting::AnswerRequest(verdict) => self.answers.standing.requests = verdict,
            Setting::AnswerForward(verdict) => self.answers.standing.forwards = verdict,
        }
        Ok(true)
    }

    /// The verifier accepts one more signature.
    fn accept(&mut self, accepted: AcceptedSignature) -> Result<(), AllocError>
        ensures { OnOk result (set (setting.Sign accepted) (scene_of self.old)
            ≡ Some (scene_of self.new)) }
    {
        let AcceptedSignature {
            key,
            algorithm,
            message,
            signature,
        } = accepted;
        match self.verifier.add(key, algorithm, message, signature) {
            Ok(()) => Ok(()),
            Err(_) => Err(AllocError),
        }
    }

    /// An input of this kind comes at the moment in force.
    fn push(&mut self, kind: InputKind) -> Result<(), AllocError>
        ensures { OnOk result (with_input kind (scene_of self.old) ≡ scene_of self.new) }
    {
        self.inputs.push(Input {
            moment: self.moment,
            kind,
        })?;
        Ok(())
    }

    /// The ticket of one more command, or of one more answer to an open.
    fn next_ticket(&mut self) -> Result<u64, AllocError>
        ensures ticket { IfOk result (λ ticket. ticket ≡ self.old.tickets + 1) }
        ensures counted { OnOk result (with_ticket (scene_of self.old) ≡ scene_of self.new) }
    {
        let Some(ticket) = self.tickets.checked_add(1) else {
            return Err(AllocError);
        };
        self.tickets = ticket;
        Ok(ticket)
    }

    /// A command from outside comes, with the next ticket.
    fn push_command(&mut self, command: Command) -> Result<(), AllocError>
        ensures { OnOk result (with_input (kind.Command (self.old.tickets + 1) command)
            (with_ticket (scene_of self.old)) ≡ scene_of self.new) }
    {
        let ticket = self.next_ticket()?;
        self.push(InputKind::Command(ticket, command))
    }

    /// An answer to an open comes from outside, with the next ticket.
    fn push_reply(&mut self, answer: OpenAnswer) -> Result<(), AllocError>
        ensures { OnOk result (with_input (kind.OpenReply (self.old.tickets + 1) answer)
            (with_ticket (scene_of self.old)) ≡ scene_of self.new) }
    {
        let ticket = self.next_ticket()?;
        self.push(InputKind::OpenReply(ticket, answer))
    }

    /// Takes in an input line of a peer that is there.
    pub(crate) fn take_live(&mut self, line: InputLine) -> Result<(), AllocError>
        ensures { OnOk result (after_input line (scene_of self.old) ≡ scene_of self.new) }
    {
        self.stage = Stage::Inputs;
        match line {
            InputLine::At(moment) => {
                self.moment = moment;
                Ok(())
            }
            InputLine::Recv(bytes) => self.push(InputKind::Payload(bytes)),
            InputLine::Command(command) => self.push_command(command),
            InputLine::Reply(answer) => self.push_reply(answer),
            InputLine::KeepaliveTick => self.push(InputKind::KeepaliveTick),
            InputLine::InactivityTick => self.push(InputKind::InactivityTick),
            InputLine::RekeyTick => self.push(InputKind::RekeyTick),
            InputLine::End => {
                self.stage = Stage::Ended;
                Ok(())
            }
        }
    }

    /// Takes in an input line.
    fn take(&mut self, line: InputLine) -> Result<(), AllocError>
        ensures { OnOk result (taken self.old.stage line (scene_of self.old) ≡ scene_of self.new) }
    {
        if self.stage == Stage::Ended {
            // What comes after the peer is gone is not taken.
            drop(line);
            return Ok(());
        }
        self.take_live(line)
    }

    /// Takes in one more line; false where it may not stand here.
    fn add(&mut self, line: Line) -> Result<bool, AllocError>
        ensures { IfOk result (λ done. with_line (scene_of self.old) (Some line)
            ≡ (if done then Some (scene_of self.new) else None)) }
    {
        match line {
            Line::Passed => Ok(true),
            Line::Setting(setting) => {
                if self.stage != Stage::Settings {
                    return Ok(false);
                }
                self.set(setting)
            }
            Line::Input(input) => {
                self.take(input)?;
                Ok(true)
            }
        }
    }
}

impl Script {
    /// Takes in the next line, as its bytes are; false where it is bad, or may not stand here.
    pub fn read(&mut self, alloc: Global, line: &[u8]) -> Result<bool, AllocError>
        ensures { IfOk result (λ done. TakesIn (scene_of self.old) line.now
            (if done then Some (scene_of self.new) else None)) }
    {
        match read_line(alloc, line)? {
            Some(line) => self.add(line),
            None => Ok(false),
        }
    }
}

/// The first line, without its newline, and the bytes after it.
pub fn first_line(text: &[u8]) -> Option<(&[u8], &[u8])>
    ensures cut { MatchOption result (text.now ≡ []) (λ pair. lines_of text.now ≡ pair.0.now
        ∷ lines_of pair.1.now) }
    ensures less { IfSome result (λ pair. length pair.1.now < length text.now) }
{
    if text.is_empty() {
        return None;
    }
    for i in 0..text.len() {
        if text[i] == b'\n' {
            return Some((&text[..i], &text[i + 1..]));
        }
    }
    Some((text, &text[text.len()..]))
}

/// What the lines say together, or the number of the first bad one.
pub fn read_script(alloc: Global, text: &[u8]) -> Result<Result<Script, u64>, AllocError>
    ensures { IfOk result (λ read. Gives 0 opening_scene (lines_of text.now) (seen read)) }
{
    let mut script = Script::new(alloc)?;
    let mut rest = text;
    let mut done: u64 = 0;
    while let Some((line, more)) = first_line(rest) {
        done += 1;
        let Some(line) = read_line(alloc, line)? else {
            return Ok(Err(done));
        };
        if !script.add(line)? {
            return Ok(Err(done));
        }
        rest = more;
    }
    Ok(Ok(script))
}
