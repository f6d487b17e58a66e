// What holds of the calls that one seat made. Each law is a statement of specs/, which its function
// proves.
ghost use Rattle.ssh_hub.specs.Fits.{AnswersFit, AllAnswersFit};
ghost use Rattle.ssh_hub.specs.SeatLaws.{OwnTakesInOrder, EndsAreNamed, ReservedCallByCall};
ghost use Rattle.ssh_hub.specs.SeatLaws.{PutsSpendWhole, MeetingIsNoCall, LearningIsNoCall};
ghost use Rattle.ssh_hub.specs.SeatLaws.{OthersStay};

/// What an answer says of its call: no more is reserved than was wanted, what was handed in and is
/// not kept comes back as it was, and nothing is taken that was not asked for.
pub fn answers_fit_their_calls()
    ensures { AnswersFit }
{}

/// The same of all calls that a seat made.
pub fn all_answers_fit()
    ensures { AllAnswersFit }
{}

/// The commands that one seat took stand among those that were put, in their order.
pub fn own_takes_in_order()
    ensures { OwnTakesInOrder }
{}

/// Where an answer says that the hub ended at a place, a call at this place ended it.
pub fn ends_are_named()
    ensures { EndsAreNamed }
{}

/// What a seat has reserved after a call is what this call makes of what it had reserved.
pub fn reserved_call_by_call()
    ensures { ReservedCallByCall }
{}

/// A put of data that spends no more than its seat has reserved of the channel spends it whole.
pub fn puts_spend_whole()
    ensures { PutsSpendWhole }
{}

/// A seat that met another made no call in this.
pub fn meeting_is_no_call()
    ensures { MeetingIsNoCall }
{}

/// A seat that has only seen more made no call in this.
pub fn learning_is_no_call()
    ensures { LearningIsNoCall }
{}

/// In the history of a seat that met another, the calls of the other begin with those that it had
/// made.
pub fn others_stay()
    ensures { OthersStay }
{}
