//! The law of services apart: organizations that are served by several services behind a front.
ghost use Rattle.serve.specs.Apart.{ReplaysAnswerInTurn, ServicesApartAreOne, ServedApartAreOne, StrangersHaveBadTokens, FrontsByPathAnswerOtherwise};

/// Services behind a front that chooses by the organization that is named, each with the records of its own
/// organizations and no others: the replies, and the records afterwards, are those of one service with all
/// organizations. A front that chooses by the path gives other replies (`paths`).
pub fn services_apart_are_one()
    ensures replays { ReplaysAnswerInTurn }
    ensures asks { ServicesApartAreOne }
    ensures exchanges { ServedApartAreOne }
    ensures strangers { StrangersHaveBadTokens }
    ensures paths { FrontsByPathAnswerOtherwise }
{}
