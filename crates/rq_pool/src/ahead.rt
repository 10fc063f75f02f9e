//! The number of a page: the greatest of its LSN and of what its slots count. It tells which pages have another number than
//! their LSN.
ghost use Rattle.std.specs.Prelude.{◌≡◌, ◌≢◌, ◌≤◌, ◌+◌, ℕ, IfErr, OnOk};
ghost use Rattle.rq_pool.specs.Numbered.{IsNumberOf, number_in, number_on};

use rq_model::refusal::Refusal;
use rq_page::layout::{Layout, SLOTS};
use rq_page::page::Page;

/// A page with a slot that counts more than its LSN. No store has written one.
#[derive(Clone, Copy)]
pub struct Ahead {
    /// Which page.
    pub page: u32,
    /// Its number, which is the greatest that a slot of it counts.
    pub number: u64,
}

/// Notes a page, with its number, where that is greater than its LSN.
///
/// # Errors
/// `NoMemory`.
pub(crate) fn note_ahead(
    ahead: &mut Vec<Ahead>,
    layout: &Layout,
    number: u32,
    page: &Page,
) -> Result<(), Refusal>
    requires { number_in ahead.old.items number ≡ 0 }
    ensures here { OnOk result
        (IsNumberOf layout.now number page.now (number_on ahead.new.items number page.now)) }
    ensures others { OnOk result ((p : ℕ) → p ≢ number → number_in ahead.new.items p ≡ number_in ahead.old.items p) }
    ensures err { IfErr result (λ e. e ≡ Refusal.NoMemory) }
{
    let greatest = greatest_number(layout, number, page);
    if greatest <= page.lsn() {
        return Ok(());
    }
    let more = Ahead {
        page: number,
        number: greatest,
    };
    match ahead.push(more) {
        Ok(()) => Ok(()),
        Err(_) => Err(Refusal::NoMemory),
    }
}

// The greatest of a page's LSN and of what its slots count.
fn greatest_number(layout: &Layout, number: u32, page: &Page) -> u64
    ensures { IsNumberOf layout.now number page.now result }
{
    let mut greatest = page.lsn();
    for slot in 1..SLOTS as u8 + 1 {
        greatest = greatest.max(layout.count(number, page.slot(slot)));
    }
    greatest
}
