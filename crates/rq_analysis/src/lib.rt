//! The analysis pass: what a log leaves to undo, and whether a record may stand behind it.
//!
//! Tables are kept record by record: of operations without an end, of what transactions without an end finished
//! and did not take back, of the greatest number of their operations, of transactions that have ended. A record is judged by them. The definitions stand in specs/.
#![tactic(auto)]

mod checking;
mod choices;
mod dues;
mod ended;
mod growing;
mod numbers;
mod open_work;

ghost use Rattle.rq_analysis.specs.Laws.{Laws};

pub use checking::follows;
pub use choices::next_end;
pub use dues::{KeptUndo, PendingUndo, PendingUndos};
pub use ended::EndedTransactions;
pub use growing::{make_room, operation_of, tells_deed, tells_write};
pub use numbers::LastOperations;
pub use open_work::{NextUndo, OpenWork, UndoableWrite, sub};

/// What undoing makes of a log and of a store, and what records may follow: each field is a theorem.
pub fn laws()
    ensures { Laws }
{}
