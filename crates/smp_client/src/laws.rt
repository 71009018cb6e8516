//! What is so of every request. The calls do nothing: each stands for a law.

ghost use Rattle.smp_client.specs.Laws.{AnswersAreReplies, NineWaits, StrangersEndWaits, FewStrangersWait};

/// A request is answered by a reply to it alone, whose data is an answer of the kind that was asked for.
pub fn answers_are_replies()
    ensures { AnswersAreReplies }
{}

/// A packet is sent at most nine times: again after each of the first eight waits, while the ninth ends the request.
pub fn nine_waits_end_a_request()
    ensures { NineWaits }
{}

/// 64 packets that are no answers end a wait as a quiet one ends, and fewer do not.
pub fn strangers_end_a_wait()
    ensures all { StrangersEndWaits }
    ensures fewer { FewStrangersWait }
{}
