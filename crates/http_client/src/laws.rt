//! What holds of all bytes, as the contract of a call that does nothing.
ghost use Rattle.http_client.specs.Responses.{AnswersAreOneWay};

/// All bytes of a connection so far are one thing alone: a whole answer, with one status, one Location and one body, or
/// a part of one, or malformed, or too large.
///
/// Source: own rule.
pub fn answers_are_one_way()
    ensures { AnswersAreOneWay }
{}
