ghost use Rattle.spec_pattern.specs.Existence.{CallsHaveOutcomes};
ghost use Rattle.spec_pattern.specs.FirstRefusals.{RefusalsComeFirst};
ghost use Rattle.spec_pattern.specs.NamesExample.{TwoNamesLeaveItOpen};
ghost use Rattle.spec_pattern.specs.OwnSteps.{CallsStepAtOwnEnds};
ghost use Rattle.spec_pattern.specs.PeersLaw.{CallsKeepPeers, EndsStay, NamesStayOne};
ghost use Rattle.spec_pattern.specs.WholeLaws.{ASendHasOneOutcome, AReceiveHasOneOutcome};
ghost use Rattle.spec_pattern.specs.WholeLaws.{AChangeHasOneOutcome, APumpHasOneOutcome};
ghost use Rattle.spec_pattern.specs.WholeLaws.{PumpedCallsHaveOneOutcome};
ghost use Rattle.spec_pattern.specs.Whole.{SocketsStayWhole};

/// Two outcomes of one send are equal where each goes on from the same steps by exact looks: the
/// steps, the answer and the state after, of each kind of socket.
pub fn a_send_has_one_outcome()
    ensures { ASendHasOneOutcome }
{}

/// Two outcomes of one receive are equal, with the messages that it drops; a ROUTER's, where no peer
/// has two names.
pub fn a_receive_has_one_outcome()
    ensures { AReceiveHasOneOutcome }
{}

/// Where a peer had two names, one receive would have two outcomes that differ.
pub fn two_names_leave_the_answer_open()
    ensures { TwoNamesLeaveItOpen }
{}

/// Two outcomes of one subscription, or of one cancel, are equal.
pub fn a_change_has_one_outcome()
    ensures { AChangeHasOneOutcome }
{}

/// Two outcomes of what a publisher hears, or a subscriber tells, before a call are equal.
pub fn a_pump_has_one_outcome()
    ensures { APumpHasOneOutcome }
{}

/// Two outcomes of a call, with what was heard or told before it, are equal.
pub fn a_pumped_call_has_one_outcome()
    ensures { PumpedCallsHaveOneOutcome }
{}

/// Of each kind of socket: a refusal that comes first in their order is the answer, without a step,
/// and each other refusal is judged by the peers, where none comes first.
pub fn refusals_come_first()
    ensures { RefusalsComeFirst }
{}

/// A call of a socket keeps its kind and its peers: each turn list after it is a permutation of the
/// one before, and whoever asked, or is asked, is one of the peers.
pub fn calls_keep_the_peers()
    ensures { CallsKeepPeers }
{}

/// A call writes none but the socket's ends that can be written, reads none but those in its turns,
/// and writes no delimiter.
pub fn calls_step_at_own_ends()
    ensures { CallsStepAtOwnEnds }
{}

/// The ends that a socket may write are among those that it keeps, and it keeps no further one after a
/// call.
pub fn no_end_is_made_by_a_call()
    ensures { EndsStay }
{}

/// No peer of a ROUTER gets a second name: not by a call, and not where a peer comes or goes.
pub fn a_peer_has_one_name()
    ensures { NamesStayOne }
{}

/// Whatever steps are past, each call of a socket has an outcome that goes on from them: with the laws
/// above, exactly one.
pub fn each_call_has_an_outcome()
    ensures { CallsHaveOutcomes }
{}

/// A socket stays whole in each call, where a further peer comes, and where one goes: a REQ owes no
/// reply, a REP awaits none, and each peer of a ROUTER has one name.
pub fn a_socket_stays_whole()
    ensures { SocketsStayWhole }
{}
