//! Migrations: a store without clients gets some.
ghost use Rattle.std.specs.Prelude.{◌≡◌, ◌≢◌, ◌↔◌, ◌*◌, IfErr, IfNone, IfOk, IfSome, OnErr, [], false, true};
ghost use Rattle.rq_model.specs.History.Call.{Migrate};
ghost use Rattle.rq_model.specs.History.Entry.{Grew, Migrated};
ghost use Rattle.rq_model.specs.Growth.{IsOfMigration, records_grown};
ghost use Rattle.rq_model.specs.Ledger.Phase.{Shut};
ghost use Rattle.rq_model.specs.Tests.{bad_tags};
ghost use Rattle.rq_reference.specs.Plain.{May, MayBeRefused, next};
ghost use Rattle.rq_model.specs.declared.refusal.Refusal.TheVariants.{NoMemory};

use crate::Reference;
use crate::rows::State;
use rq_model::refusal::Refusal;
use rq_model::txn::Lsn;

// How many clients a tag page is for.
const CLIENTS: u32 = 15;

// How many tag pages a store may have.
const TAGS_LIMIT: u32 = 1024;

impl Reference {
    /// Gives a store without clients 15 for each of so many pages. One record then stands in the place of all others: its LSN is
    /// the answer. Every commit is then durable. It answers nothing more before it is opened again.
    ///
    /// # Errors
    /// `Failed`; `BadTags` where the pages are not 1 to 1,024, or the store has clients; `NotQuiet`, `LogFull`.
    pub fn migrate(&mut self, pages: u32) -> Result<Lsn, Refusal>
        ensures ok { IfOk result (λ lsn. May self.old (Migrated pages lsn)) }
        ensures step { IfOk result (λ lsn. self.new ≡ next (Migrated pages lsn) self.old) }
        ensures refused { IfErr result (λ r. MayBeRefused self.old (Migrate pages) r) }
        ensures same { OnErr result (self.new ≡ self.old) }
        ensures memory { IfErr result (λ r. r ≢ NoMemory) }
    {
        if !self.is_running() {
            return Err(Refusal::Failed);
        }
        if self.clients_with(pages).is_none() {
            return Err(Refusal::BadTags);
        }
        if !self.is_quiet() {
            return Err(Refusal::NotQuiet);
        }
        if self.is_log_full(1) {
            return Err(Refusal::LogFull);
        }
        self.records += 1;
        self.forced = self.records;
        self.durable = self.committed.len();
        self.state = State::Stopped(pages);
        Ok(self.records)
    }

    /// Whether a crash may leave so many tag pages: those of the migration that was answered, or of one that the crash cuts off.
    pub fn may_grow(&self, pages: u32) -> bool
        ensures { (result ≡ true) ↔ May self.now (Grew pages (records_grown self.now.growth self.now.ledger)) }
    {
        if !self.is_of_migration(pages) {
            return false;
        }
        if self.clients_with(pages).is_none() {
            return false;
        }
        self.is_quiet()
    }

    /// A crash that leaves so many tag pages, and the record of their migration: the store has clients then.
    pub fn grow(&mut self, pages: u32)
        requires { May self.old (Grew pages (records_grown self.old.growth self.old.ledger)) }
        ensures { self.new ≡ next (Grew pages (records_grown self.old.growth self.old.ledger)) self.old }
    {
        if let Some(clients) = self.clients_with(pages) {
            self.clients = clients;
            self.records = self.records_grown(pages);
            self.forced = self.records;
            self.durable = self.committed.len();
            self.state = State::Shut;
        }
    }

    // How many records stand where so many tag pages do.
    fn records_grown(&self, pages: u32) -> u64
        requires { IsOfMigration self.now.growth self.now.ledger pages }
        ensures { result ≡ records_grown self.now.growth self.now.ledger }
    {
        match self.state {
            State::Running => self.records + 1,
            State::Stopped(_) => self.records,
            State::Shut => self.records,
        }
    }

    // Whether so many tag pages are of a migration.
    fn is_of_migration(&self, pages: u32) -> bool
        ensures told { (result ≡ true) ↔ IsOfMigration self.now.growth self.now.ledger pages }
        ensures open { (result ≡ true) → self.now.ledger.phase ≡ Shut → ⊥ }
    {
        match self.state {
            State::Running => !self.is_log_full(1),
            State::Stopped(asked) => pages == asked,
            State::Shut => false,
        }
    }

    // How many clients the store has with so many tag pages; none where it cannot get them.
    fn clients_with(&self, pages: u32) -> Option<u32>
        ensures some { IfSome result (λ clients. (clients ≡ 15 * pages) × (bad_tags self.now.size pages ≡ false)) }
        ensures none { IfNone result (bad_tags self.now.size pages ≡ true) }
    {
        if self.clients > 0 || pages == 0 || pages > TAGS_LIMIT {
            return None;
        }
        Some(CLIENTS * pages)
    }
}
