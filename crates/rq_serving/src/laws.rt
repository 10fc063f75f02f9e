//! Laws of sessions over a store, for proofs.
ghost use Rattle.rq_serving.specs.Carried.{CallsAreOwn};

/// Of all that is called for a session, as it is carried on. Each call names no transaction but the one that the
/// session has then. A begin comes only where the session has none. What it is to do next keeps both. Where that is to
/// wait, it is for the commit that the session awaits.
pub fn calls_are_own()
    ensures { CallsAreOwn }
{}
