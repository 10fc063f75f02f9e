//! What holds of every history with legal replies, and of every log that keeps its rules.
ghost use Rattle.std.specs.Prelude.{◌≡◌, ◌∷◌, ◌++◌, ℕ, List, take, length};
ghost use Rattle.rq_model.specs.declared.txn.Txn.{Txn};
ghost use Rattle.rq_model.specs.declared.record.Record.{Record};
ghost use Rattle.rq_model.specs.declared.record.Record.TheVariants.{Commit};
ghost use Rattle.rq_model.specs.Vocabulary.{last_or, same_txn};
ghost use Rattle.rq_model.specs.Groups.{group, Survives, commits_left};
ghost use Rattle.rq_model.specs.Content.{content, with_own, deeds};
ghost use Rattle.rq_model.specs.Commits.{committed_of};
ghost use Rattle.rq_model.specs.Rules.{KeepsRules};
ghost use Rattle.rq_model.specs.Ledger.{ledger, group_in};
ghost use Rattle.rq_model.specs.History.{Entry, marks};
ghost use Rattle.rq_model.specs.History.Entry.{Told_client};
ghost use Rattle.rq_model.specs.Promises.{AcknowledgedStay, CheckpointCrashGoesOn, CrashGoesOn, FifoThroughout, GrowthGoesOn, MigrationsStay, NothingBehindClose, ReceiptsAreExact, ReplayGoesOn, RestartGoesOn, ShutCrashGoesOn, StillStoreRefuses};
ghost use Rattle.rq_model.specs.Legal.{IsLegal};
ghost use Rattle.rq_model.specs.Tests.{Size};
ghost use Rattle.rq_model.specs.Worked.{AreWorked};
ghost use Rattle.rq_model.specs.WorkedLogs.{LogsAreWorked};
ghost use Rattle.rq_model.specs.WorkedMarks.{MarksAreWorked};
ghost use Rattle.rq_model.specs.WorkedRefusals.{RefusalsAreWorked};

/// Over every history with legal replies, at every place of it: what committed transactions received from a sender is a
/// beginning of what they sent for it, in order, each once; nothing that is committed was sent after a committed close.
pub fn first_in_first_out()
    ensures { (size : Size) (history : List Entry) → IsLegal size history → FifoThroughout history }
{}

/// The commits that a force, a checkpoint, a migration, `Grew` or a restart has followed stay in every history that goes on from there.
pub fn forced_stay()
    ensures { (size : Size) (newer history : List Entry) → IsLegal size (newer ++ history) → Survives newer history }
{}

/// A commit that was acknowledged by a receipt is in the commit list of every history that goes on from there.
pub fn acknowledged_stay()
    ensures { (size : Size) → AcknowledgedStay size }
{}

/// For the number that a commit answered a receipt is given exactly where a force has answered since, and the store was
/// not opened again.
pub fn receipts_are_exact()
    ensures { (size : Size) → ReceiptsAreExact size }
{}

/// A migration that was answered stays: from the next crash on the store has the clients of its tag pages.
pub fn migrations_stay()
    ensures { (size : Size) → MigrationsStay size }
{}

/// Nothing is sent to a group that a committed transaction has closed.
pub fn nothing_behind_close()
    ensures { (size : Size) → NothingBehindClose size }
{}

/// A replay from the ledger of a legal history is a longer legal history, whose entries are what was asked and
/// answered.
pub fn replay_goes_on()
    ensures { (size : Size) → ReplayGoesOn size }
{}

/// A crash that leaves the first records of the log, with all that are forced and the one that began the incarnation,
/// is the next entry of a legal history where these keep the rules, and the commits and the content of what is left are
/// those of the history.
pub fn crash_goes_on()
    ensures { (size : Size) → CrashGoesOn size }
{}

/// A crash in a checkpoint or a migration, or behind one that a device refused, may leave the record that stands for all. It is
/// the next entry of a legal history. The commits and the content that this log tells are those of the history.
pub fn checkpoint_crash_goes_on()
    ensures { (size : Size) → CheckpointCrashGoesOn size }
{}

/// A crash that leaves the tag pages of a migration, where it may, is the next entry of a legal history too. Its log is that of an
/// answered migration, or has one record for all. The commits and the content that it tells are those of the history.
pub fn growth_goes_on()
    ensures { (size : Size) → GrowthGoesOn size }
{}

/// A crash of a store that is not open, as in a restart that was stopped, is the next entry of a legal history too: it
/// leaves what was left before, with some of what that restart has added.
pub fn shut_crash_goes_on()
    ensures { (size : Size) → ShutCrashGoesOn size }
{}

/// A store that does not run may refuse every call as `Failed`.
pub fn still_store_refuses()
    ensures { (size : Size) → StillStoreRefuses size }
{}

/// A restart over what a crash left, and what the restart itself added, is the next entry of a legal history.
pub fn restart_goes_on()
    ensures { (size : Size) → RestartGoesOn size }
{}

/// What the ledger of a legal history shows of a group is what the filters of the history say.
pub fn shown_is_committed()
    ensures { (size : Size) (history : List Entry) (s : ℕ) → IsLegal size history
        → group history s ≡ group_in (ledger history).committed s }
{}

/// What was told of a client is how many marks of it committed transactions made, and the tag of the last one, 0 where
/// there is none.
pub fn told_marks_are_committed()
    ensures { (size : Size) (history : List Entry) (client count tag : ℕ) → IsLegal size (Told_client client count tag ∷ history)
        → (count ≡ length (marks history client)) × (tag ≡ last_or 0 (marks history client)) }
{}

/// A Commit record adds to the content what its own transaction did, and changes nothing else.
pub fn commit_adds_its_own()
    ensures { (s : ℕ) (t : Txn) (log : List Record) → KeepsRules (Commit t ∷ log)
        → content (Commit t ∷ log) s ≡ with_own s (deeds (λ u. same_txn u t) log) (content log s) }
{}

/// The content of what a cut leaves of a log is that of the beginning of its commit list.
pub fn cut_leaves_a_beginning()
    ensures { (s : ℕ) (newer older : List Record) → KeepsRules (newer ++ older)
        → content older s ≡ group_in (take (commits_left older) (committed_of (newer ++ older))) s }
{}

/// Worked histories, each legal or refused as it should be, and what goes on with them.
pub fn histories_are_judged()
    ensures { AreWorked }
{}

/// Where refusals may come that no other worked history has, and where they may not.
pub fn refusals_are_judged()
    ensures { RefusalsAreWorked }
{}

/// Worked histories with marks of clients, each legal or refused as it should be.
pub fn marks_are_judged()
    ensures { MarksAreWorked }
{}

/// Worked logs: which keep the rules, what they come to, and what those come to that don't.
pub fn logs_are_judged()
    ensures { LogsAreWorked }
{}
