//! Laws of requests and histories.
ghost use Rattle.s7_plant.specs.Histories.{KeptIsTheSame, KeptHistoriesAreTheSame, GoesOn};
ghost use Rattle.s7_plant.specs.Journals.{CallsLeadTheSame};

/// A law: what a history keeps of a request has the same answer as the request and changes a state in the same way. A
/// history of what is kept leads to the same state as the history of what was asked.
pub fn kept_requests_are_the_same()
    ensures requests { KeptIsTheSame }
    ensures histories { KeptHistoriesAreTheSame }
{}

/// A law: one more request acts on the state that the requests before it left.
pub fn replay_goes_on()
    ensures { GoesOn }
{}

/// A law: a journal's entries lead to one state, whether they are read as entries or as calls of a history.
pub fn calls_lead_the_same()
    ensures { CallsLeadTheSame }
{}
