//! Whether the answers that a pass was given are those of its entries.
ghost use Rattle.std.specs.Prelude.{◌≡◌, ◌↔◌, ◌≤◌, ◌<◌, IsTrue, Some, length, drop, slice_get};
ghost use Rattle.rq_shared.specs.Entries.{entries, entry_of};
ghost use Rattle.rq_shared.specs.Tied.{own, left_entries, stamps, stamp_of};
ghost use Rattle.rq_shared.specs.declared.kept.AuditEntry.{AuditEntry};

use crate::kept::{AuditEntry, Stamped, is_no_memory};
use crate::same::{same_event, same_reply};

/// Whether the entries of this pass, in order, are the stamps that were not answered `NoMemory`.
pub fn tied(audit: &[AuditEntry], pass: u64, given: &[Stamped]) -> bool
    ensures { IsTrue result ↔ (own pass (entries audit.now) ≡ left_entries (stamps given.now)) }
{
    let mut at = 0;
    for stamp in given {
        if is_no_memory(stamp.reply()) {
            continue;
        }
        at = next_of(audit, at, pass);
        if at == audit.len() {
            return false;
        }
        if !is_of(&audit[at], stamp) {
            return false;
        }
        at += 1;
    }
    next_of(audit, at, pass) == audit.len()
}

// The first place from here on with an entry of this pass, or the length.
fn next_of(audit: &[AuditEntry], from: usize, pass: u64) -> usize
    requires { from ≤ length audit.now }
    ensures within { result ≤ length audit.now }
    ensures skipped { own pass (entries (drop from audit.now)) ≡ own pass (entries (drop result audit.now)) }
    ensures found { result < length audit.now → (e : AuditEntry) × (slice_get audit.now result ≡ Some e)
        × (e.pass ≡ pass) }
{
    for i in from..audit.len() {
        if audit[i].pass() == pass {
            return i;
        }
    }
    audit.len()
}

// Whether the entry says what the stamp says.
fn is_of(entry: &AuditEntry, stamp: &Stamped) -> bool
    ensures { IsTrue result ↔ (entry_of entry.now ≡ stamp_of stamp.now) }
{
    entry.pass() == stamp.pass()
        && same_event(entry.event(), stamp.event())
        && same_reply(entry.reply(), stamp.reply())
}
