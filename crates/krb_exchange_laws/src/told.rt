//! Laws of what is told. Each is the contract of a function that does nothing.

ghost use Rattle.krb_exchange_laws.specs.Laws.{FlowsAreApart, NoLaterPacketIsNamed, RepliesAnswerTheOtherWay, RequestsAreToldOnce, SameOctetsDecide, WindowIsBounded};

/// The window never has more than 65536 sendings, whatever the events.
pub fn window_is_bounded()
    ensures { WindowIsBounded }
{}

/// No packet is named that comes after that of the event, if the packets of the events never go
/// back.
pub fn no_later_packet_is_named()
    ensures { NoLaterPacketIsNamed }
{}

/// A reply answers an open request of the flow the other way round, which it fits. A direction that
/// begins has no answer to requests of its own that were open. Nothing else answers.
pub fn replies_answer_the_other_way()
    ensures { RepliesAnswerTheOtherWay }
{}

/// In each flow, at most as many replies and requests that are unanswered name a packet as it has
/// requests.
pub fn requests_are_told_once()
    ensures { RequestsAreToldOnce }
{}

/// What is told depends on octets only through whether they are those of another request.
pub fn same_octets_decide()
    ensures { SameOctetsDecide }
{}

/// While the window is not full, which requests the replies of a flow answer does not depend on the
/// events of other flows.
pub fn flows_are_apart()
    ensures { FlowsAreApart }
{}
