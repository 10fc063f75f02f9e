//! Laws of sessions, for proofs.
ghost use Rattle.rq_session.specs.Laws.{EachReply, EachMayAgain, EachRequest, EachLoss, LostAnswersNothing, NotTaken, OneAnswerEach};
ghost use Rattle.rq_session.specs.Tells.{EachAnswer, EachAsk, EachKeeps, EachWait, EachEnd, EachStage, OneReply, OneFirst, OneLoss};

/// At each reply: a call names the session's own transaction, and a begin is asked for only where there is none. A wait
/// is for the commit of that transaction, as it was told just now, or for the one that was awaited before. The
/// transaction stays until its own commit is told and awaited, the end of its abort is told and answered, or the
/// session ends. Only a begin that was answered gives one. A request under way stays under way, or gets its one answer,
/// or the session ends. A call is made again only where memory was wanting in an operation or an abort under way, or
/// latches or frames for an undo. Committed is answered only at the receipt of that commit.
pub fn each_reply()
    ensures { EachReply }
{}

/// Where a call may be made again, it is.
pub fn each_may_again()
    ensures { EachMayAgain }
{}

/// At each request that is taken: its one call, for the session's own transaction, or its refusal. A begin is refused
/// (17) exactly where there is a transaction, each other request but LastTag and ClientTag (4) exactly where there is
/// none. The transaction stays as it was.
pub fn each_request()
    ensures { EachRequest }
{}

/// While a request is under way, and once the session has ended, no further one is taken. Nothing is called and
/// answered then, and the session stays where it is.
pub fn not_taken()
    ensures { NotTaken }
{}

/// What is answered was told. At each stage an answer is given exactly where the call that was asked for last was told
/// what the answer says. A refusal is answered by the same refusal, a message by that message, and a commit by the
/// receipt of it. (So of a session whose connection is not lost.)
pub fn each_answer()
    ensures { EachAnswer }
{}

/// A call is made exactly where what was told asks for it. An operation that was started is stepped until all of it is
/// written, and then finished. An abort finishes what was left under way, starts, undoes each operation in turn, and
/// ends. Also where the connection is lost.
pub fn each_ask()
    ensures { EachAsk }
{}

/// A commit is awaited exactly where it was told and is that of the session's own transaction. It is awaited from then
/// on until its receipt or the store's failure is told.
pub fn each_wait()
    ensures { EachWait }
{}

/// A session ends exactly in these cases. It is told what no call of that kind is answered. It is told something when
/// it asked for nothing. Its connection is lost, and its abort is done or was refused for good.
pub fn each_end()
    ensures { EachEnd }
{}

/// At each reply the session's transaction stands as it was told, and a refusal leaves it as it is. The session waits
/// for the reply to the call that it asks for, and for the same request.
pub fn each_stage()
    ensures { EachStage }
{}

/// Once the connection is lost, the session's transaction, as it is, is aborted by calls of its own. The first of these
/// is the call under way, or what an abort begins with. Where there is no transaction the session ends.
pub fn each_loss()
    ensures { EachLoss }
{}

/// A session whose connection is lost answers nothing.
pub fn lost_answers_nothing()
    ensures { LostAnswersNothing }
{}

/// The laws of single turns leave one session. It keeps them at each reply. What keeps them at a reply, at a request or
/// at the connection's loss is what the session does there, and where it stands then.
pub fn one_session()
    ensures keeps { EachKeeps }
    ensures reply { OneReply }
    ensures request { OneFirst }
    ensures loss { OneLoss }
{}

/// Over a whole session a request is taken only when the one before it is answered, and has at most one answer. Up to
/// the loss of the connection or the session's end, each request but the one under way is answered. So the answers are
/// in the requests' order.
pub fn one_answer_each()
    ensures { OneAnswerEach }
{}
