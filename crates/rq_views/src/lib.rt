//! What the operations of a log do to the chains of its senders and the marks of its clients, apart from any code: plans
//! of slot writes, legal logs, the view of each chain and of each client's marks, and what the holders of a chain's ends
//! add to what is committed.
//!
//! The definitions stand in specs/, the theorems are the contracts of the functions here.
#![tactic(auto)]

ghost use Rattle.rq_views.specs.Laws.{Laws};

/// What holds of every legal log: each field is a theorem.
pub fn laws()
    ensures { Laws }
{}
