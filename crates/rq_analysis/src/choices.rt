//! Which of the lost transactions ends next.
ghost use Rattle.std.specs.Prelude.{◌≡◌};
ghost use Rattle.rq_analysis.specs.Choices.{least_free, lesser_in};
ghost use Rattle.rq_analysis.specs.Pages.{txn_less};

use crate::dues::PendingUndos;
use rq_model::txn::Txn;

/// Of these transactions the one of the least number of which nothing is to be taken back. Numbers rise by incarnation, then by
/// count.
pub fn next_end(lost: &[Txn], dues: &PendingUndos) -> Option<Txn>
    ensures { result ≡ least_free dues.now lost.now }
{
    let mut place = lost.len();
    let mut least = None;
    while place > 0 {
        place -= 1;
        let txn = lost[place];
        if !dues.owes(txn) {
            least = Some(lesser(txn, least));
        }
    }
    least
}

fn lesser(txn: Txn, least: Option<Txn>) -> Txn
    ensures { result ≡ lesser_in txn least }
{
    match least {
        None => txn,
        Some(other) => { if is_before(other, txn) { other } else { txn } }
    }
}

// Whether one transaction's number is less than another's.
pub(crate) fn is_before(one: Txn, other: Txn) -> bool
    ensures { result ≡ txn_less one other }
{
    one.incarnation < other.incarnation
        || one.incarnation == other.incarnation && one.count < other.count
}
