// What holds of every run. Each law is a statement of specs/, which its function proves.
ghost use Rattle.ssh_run_laws.specs.Laws.{ChannelsAccept, NextAccepts};
ghost use Rattle.ssh_run_laws.specs.Standing.{AnsweredOpensStand, ChannelsStand, OpensAreNew};
ghost use Rattle.ssh_run_laws.specs.Standing.{OpensStillWait, OpensWait};
ghost use Rattle.ssh_run_laws.specs.Traces.{TracesHold, TracesTell};
ghost use Rattle.ssh_run_laws.specs.Users.{UserStays, UserIsFirst};

use ssh_keys::Verifier;

/// A law, without code. After each input of a run the channel of each number, or the last one that
/// had it, accepted the data of the commands that were accepted there since it was opened, in order,
/// whether they came from outside or were recorded in callbacks; and at each moment since then the
/// data frames on its number hold the first of these bytes, each in the message of its kind (RFC
/// 4254 section 5.2). So it is in one more input, as far as it came (`next`).
pub fn channels_accept_data<V: Verifier, E, F>(verifier: &V)
    ensures finished { ChannelsAccept E F (V.accepts verifier.now) }
    ensures next { NextAccepts E F (V.accepts verifier.now) }
{}

/// A law, without code. A channel to which both sides agreed, and of which no CLOSE was accepted,
/// stands with its bytes and its EOF as they were, as long as no data, no EOF and no CLOSE of it are
/// accepted and the peer does not close it (RFC 4254 section 5.3).
pub fn channels_stand<V: Verifier, E, F>(verifier: &V)
    ensures { ChannelsStand E F (V.accepts verifier.now) }
{}

/// A law, without code. An open of the peer's that the handler was asked about waits until an answer
/// of it is accepted, from outside or out of a callback, and meanwhile no other open is asked about
/// under its number (RFC 4254 section 5.1).
pub fn opens_wait<V: Verifier, E, F>(verifier: &V)
    ensures asked { OpensWait E F (V.accepts verifier.now) }
    ensures still { OpensStillWait E F (V.accepts verifier.now) }
    ensures new { OpensAreNew E F (V.accepts verifier.now) }
{}

/// A law, without code. An answer from outside that accepts an open which waits is accepted, and
/// after its input the channel stands: both sides agreed to it, and no EOF and no CLOSE of it were
/// accepted (RFC 4254 section 5.1).
pub fn answered_opens_stand<V: Verifier, E, F>(verifier: &V)
    ensures { AnsweredOpensStand E F (V.accepts verifier.now) }
{}

/// A law, without code. Where no callback recorded data for a number, the trace alone tells what the
/// channel of that number accepted: the data of the commands there that it answers by `Accepted`, of
/// which the last ones are those since the channel was opened; and at each moment since then the data
/// frames on the number hold the first of these, whatever follows in the trace (RFC 4254 section
/// 5.2).
pub fn traces_tell<V: Verifier, E, F>(verifier: &V)
    ensures accepted { TracesTell E F (V.accepts verifier.now) }
    ensures sent { TracesHold E F (V.accepts verifier.now) }
{}

/// A law, without code. The user who was let in is the one of the first call of the handler that
/// accepted one, and stays so: requests of authentication after that are ignored (RFC 4252 section
/// 5.1). Nobody was let in where no call did it.
pub fn users_stay<V: Verifier, E, F>(verifier: &V)
    ensures first { UserIsFirst E F (V.accepts verifier.now) }
    ensures stays { UserStays E F (V.accepts verifier.now) }
{}
