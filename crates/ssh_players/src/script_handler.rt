// A handler that answers by a script.
ghost use Rattle.std.specs.Prelude.{◌≡◌, ℕ, [], Ok, false, drop, IfOk};
ghost use Rattle.ssh_scene.specs.Queues.{queues_in};
ghost use Rattle.ssh_players.specs.Played.{open_answer, queues_from, first_verdict, verdict_answer};
ghost use Rattle.ssh_players.specs.Played.{verdict_on, after_admission, banner_answer, left_after};
ghost use Rattle.ssh_scene.specs.declared.answers.InteractiveVerdict.TheVariants.{Plain};

use crate::queue::place_after;
use ssh_auth::{Admission, Auth, Question};
use ssh_handler::RecordError;
use ssh_link::{ChannelOpenHandle, OpenAnswer};
use ssh_scene::{Answers, InteractiveVerdict, OpenVerdict, Verdict};
use ssh_wire::{Text, WireError};
use std::alloc::Global;
use thiserror::Error;

/// The error that a script's handler answers where the script says `fail`.
#[derive(Clone, Copy, Debug, PartialEq, Eq, Error)]
#[error("the script says fail")]
pub struct ScriptError;

/// How many answers of each list were given.
#[derive(Clone, Copy)]
pub(crate) struct Places {
    /// To requests of method none.
    pub(crate) none: usize,
    /// To requests of method password.
    pub(crate) password: usize,
    /// To offers of keys.
    pub(crate) offered: usize,
    /// To requests that are signed by a key.
    pub(crate) publickey: usize,
    /// To requests that are signed by the key of a certificate.
    pub(crate) certificate: usize,
    /// To users of keyboard-interactive.
    pub(crate) interactive: usize,
}

/// Answers the k-th request of a kind by the k-th verdict on that kind. Later offers of keys are
/// accepted, and all other later requests are refused. The first banner callbacks fail, as many as
/// the script says, and the later ones give the script's banner, where it has one. Opens, data,
/// requests on a channel and forwards are answered as the script says, and windows stay as large as
/// they are.
#[derive(Drop)]
pub struct ScriptHandler {
    pub(crate) alloc: Global,
    /// What it answers by.
    pub answers: Answers,
    /// What it was asked, in order.
    pub asked: Vec<Question>,
    /// How many answers of each list were given.
    pub(crate) next: Places,
    /// How many banner callbacks still fail.
    pub(crate) banners_left: u64,
    /// Whether a question was not kept, or its answer not made, for want of memory.
    pub lost: bool,
    ghost left: { left_after (queues_in answers) asked.items
        ≡ queues_from answers next banners_left },
}

impl ScriptHandler {
    /// A handler that was not called yet.
    pub fn new(alloc: Global, answers: Answers) -> ScriptHandler
        ensures answers { result.answers ≡ answers }
        ensures asked { result.asked.items ≡ [] }
        ensures lost { result.lost ≡ false }
    {
        let banners_left = answers.failing_banners;
        ScriptHandler {
            alloc,
            answers,
            asked: Vec::new(alloc),
            next: Places {
                none: 0,
                password: 0,
                offered: 0,
                publickey: 0,
                certificate: 0,
                interactive: 0,
            },
            banners_left,
            lost: false,
        }
    }
}

// The verdict of this number, and this one after the last.
fn verdict_at<V: Copy>(verdicts: &Vec<V>, next: usize, default: V) -> V
    ensures { result ≡ first_verdict default (drop next verdicts.now.items) }
{
    match verdicts.get(next) {
        Some(verdict) => *verdict,
        None => default,
    }
}

// The same of verdicts that any request could have.
fn plain_at(verdicts: &Vec<Verdict>, next: usize, default: Verdict) -> InteractiveVerdict
    ensures { result ≡ Plain (first_verdict default (drop next verdicts.now.items)) }
{
    InteractiveVerdict::Plain(verdict_at(verdicts, next, default))
}

pub(crate) fn answer_of(verdict: Verdict) -> Result<Auth, RecordError<ScriptError>>
    ensures { result ≡ verdict_answer verdict }
{
    match verdict {
        Verdict::Accept => Ok(Auth::Accept),
        Verdict::Reject => Ok(Auth::reject()),
        Verdict::Fail => Err(RecordError::Inner(ScriptError)),
    }
}

// The same banner, where there is one.
pub(crate) fn copied(banner: &Option<Text>) -> Result<Option<Text>, WireError>
    ensures { IfOk result (λ copied. copied ≡ banner.now) }
{
    match banner {
        Some(text) => Ok(Some(text.copy()?)),
        None => Ok(None),
    }
}

// This banner, once no more banner callbacks fail.
pub(crate) fn banner_of(
    banners_left: u64,
    banner: Option<Text>,
) -> Result<Option<Text>, RecordError<ScriptError>>
    ensures { result ≡ banner_answer banners_left banner }
{
    if banners_left == 0 {
        Ok(banner)
    } else {
        Err(RecordError::Inner(ScriptError))
    }
}

// The answer to an open, or none where it is to be answered later.
pub(crate) fn open_answer_of(verdict: OpenVerdict, reply: ChannelOpenHandle) -> Option<OpenAnswer>
    ensures { result ≡ open_answer verdict reply }
{
    match verdict {
        OpenVerdict::Accept => Some(reply.accept()),
        OpenVerdict::Reject => Some(reply.reject_default()),
        OpenVerdict::Hold => {
            let _number = reply.into_channel();
            None
        }
    }
}

// What a user who asks to be let in is answered by.
pub(crate) fn verdict_of(
    answers: &Answers,
    next: Places,
    admission: &Admission,
) -> InteractiveVerdict
    ensures { (banners : ℕ) → result ≡ verdict_on (queues_from answers.now next banners)
        admission.now }
{
    let refusal = InteractiveVerdict::Plain(Verdict::Reject);
    match admission {
        Admission::None { .. } => plain_at(&answers.none, next.none, Verdict::Reject),
        Admission::Password { .. } => plain_at(&answers.password, next.password, Verdict::Reject),
        Admission::PublickeyOffered { .. } => {
            plain_at(&answers.offered, next.offered, Verdict::Accept)
        }
        Admission::Publickey { .. } => {
            plain_at(&answers.publickey, next.publickey, Verdict::Reject)
        }
        Admission::OpensshCertificate { .. } => {
            plain_at(&answers.certificate, next.certificate, Verdict::Reject)
        }
        Admission::KeyboardInteractive { .. } => {
            verdict_at(&answers.interactive, next.interactive, refusal)
        }
    }
}

// How many answers of each list were given after it.
pub(crate) fn places_after(answers: &Answers, next: Places, admission: &Admission) -> Places
    ensures { (banners : ℕ) → queues_from answers.now result banners
        ≡ after_admission (queues_from answers.now next banners) admission.now }
{
    match admission {
        Admission::None { .. } => Places {
            none: place_after(&answers.none, next.none),
            ..next
        },
        Admission::Password { .. } => Places {
            password: place_after(&answers.password, next.password),
            ..next
        },
        Admission::PublickeyOffered { .. } => Places {
            offered: place_after(&answers.offered, next.offered),
            ..next
        },
        Admission::Publickey { .. } => Places {
            publickey: place_after(&answers.publickey, next.publickey),
            ..next
        },
        Admission::OpensshCertificate { .. } => Places {
            certificate: place_after(&answers.certificate, next.certificate),
            ..next
        },
        Admission::KeyboardInteractive { .. } => Places {
            interactive: place_after(&answers.interactive, next.interactive),
            ..next
        },
    }
}
