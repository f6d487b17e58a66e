// The law on what was asked in calls.
ghost use Rattle.std.specs.Prelude.{◌≡◌, ◌++◌, List};
ghost use Rattle.std.specs.List.{filter};
ghost use Rattle.ssh_auth.specs.declared.call.Call.{Call};
ghost use Rattle.ssh_handler.specs.OwnCalls.{questions, own_calls, is_own};

/// A law, without code. What was asked in calls and in others behind them was asked in the ones and
/// then in the others (`questions`), and so it is with those that are no calls of authentication
/// (`own_calls`); in these was asked what a session's own callbacks are asked (`own_questions`).
#[tactic(auto, using(crate::proofs::OwnCalls::questions_join, crate::proofs::OwnCalls::own_join, crate::proofs::OwnCalls::own_asked))]
pub fn calls_join<E>()
    ensures questions { (calls more : List (Call E)) →
        questions (calls ++ more) ≡ questions calls ++ questions more }
    ensures own_calls { (calls more : List (Call E)) →
        own_calls (calls ++ more) ≡ own_calls calls ++ own_calls more }
    ensures own_questions { (calls : List (Call E)) →
        questions (own_calls calls) ≡ filter is_own (questions calls) }
{}
