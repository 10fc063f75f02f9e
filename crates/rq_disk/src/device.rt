//! What callers may know of a device of pages and of a device of a log. They may know what reads give, and what a crash
//! now may leave. They may also know what a crash at some moment since an earlier one may have left.
//!
//! Callers are generic in both, and reach everything through the ghost members. A call that errs has done nothing, or
//! the device has stopped in it, its work done or not. So each clause on what a crash leaves stands on every answer.
ghost use Rattle.std.specs.Prelude.{◌≡◌, ◌≢◌, ◌⊎◌, ◌≤◌, ◌-◌, ◌++◌, List, ℕ, length, take, drop, min, IfOk, OnOk, OnErr, IsErr};
ghost use Rattle.rq_disk.specs.Device.{Images, PageAsk, LogAsk, Leaves, Holds, Written, NoMore, Appended, CutOff, Replaced, IsCutBetween, Only, Elapses, ElapsesThrough, FailureIsCounted, Stays};
ghost use Rattle.rq_disk.specs.Records.{AreRecords};

use thiserror::Error;

/// The bytes of a page.
pub const PAGE: usize = 4096;

/// The device could not do what was asked. Its count of failures tells that it was the device.
#[derive(Clone, Copy, Debug, PartialEq, Eq, Error)]
#[error("the device failed")]
pub struct DeviceFailed;

/// A device of pages, numbered from 0. A page is written whole; what was written is durable once synced.
pub trait PageDevice {
    /// The image that a read of a page gives.
    ghost seen: { Self → Images };

    /// Each answer so far was that of an honest device.
    ghost honest: { Self → Type 0 };

    /// The images that a crash at this moment may leave of a page. Each page has its own by itself.
    ghost may_be: { Self → ℕ → List ℕ → Type 0 };

    /// It has stopped: no call does anything any more.
    ghost stopped: { Self → Type 0 };

    /// The moment, as a number that never falls.
    ghost moment: { Self → ℕ };

    /// What a crash at some moment from that one on may have left.
    ghost left_since: { Self → ℕ → Images → Type 0 };

    /// How often a call has failed, modulo 2^64.
    ghost faults: { Self → ℕ };

    /// What excuses a call that was asked this and has erred, by the device before and after it. An implementation that
    /// leaves this out may err for no reason.
    ghost excuse: { PageAsk → Self → Self → Type 0 } = { λ _ _ _. Unit {0} };

    /// How often a call has failed, modulo 2^64. Only a call that errs counts, and it counts one.
    fn failures(&self) -> u64
        ensures { result ≡ faults self.now };

    /// Reads a page.
    fn read(&mut self, page: u32, into: &mut [u8; PAGE]) -> Result<(), DeviceFailed>
        ensures image { OnOk result (honest self.new → into.new ≡ seen self.old page) }
        ensures seen { seen self.new ≡ seen self.old }
        ensures crash { NoMore (may_be self.old) (may_be self.new) }
        ensures time { Elapses (moment self.old) (moment self.new) (left_since self.old) (left_since self.new)
            (Leaves (may_be self.new)) }
        ensures honest { honest self.new → honest self.old }
        ensures failed { honest self.new → OnErr result
            (stopped self.new ⊎ Stays (seen self.old) (seen self.new) (Leaves (may_be self.old))
            (Leaves (may_be self.new))) }
        ensures still { honest self.new → stopped self.old → IsErr result × stopped self.new ×
            Stays (seen self.old) (seen self.new) (Leaves (may_be self.old)) (Leaves (may_be self.new)) }
        ensures cause { FailureIsCounted (faults self.old) (faults self.new) result }
        ensures excused { OnErr result (excuse (PageAsk.Reads page) self.old self.new) };

    /// Writes a page. The image is durable only after a sync.
    fn write(&mut self, page: u32, image: &[u8; PAGE]) -> Result<(), DeviceFailed>
        ensures others { (p : ℕ) → p ≢ page → seen self.new p ≡ seen self.old p }
        ensures written { OnOk result (Holds (seen self.old) page image.now (seen self.new)) }
        ensures crash { Written page image.now (may_be self.old) (may_be self.new) }
        ensures time { Elapses (moment self.old) (moment self.new) (left_since self.old) (left_since self.new)
            (Leaves (may_be self.new)) }
        ensures honest { honest self.new → honest self.old }
        ensures failed { honest self.new → OnErr result
            (stopped self.new ⊎ Stays (seen self.old) (seen self.new) (Leaves (may_be self.old))
            (Leaves (may_be self.new))) }
        ensures still { honest self.new → stopped self.old → IsErr result × stopped self.new ×
            Stays (seen self.old) (seen self.new) (Leaves (may_be self.old)) (Leaves (may_be self.new)) }
        ensures cause { FailureIsCounted (faults self.old) (faults self.new) result }
        ensures excused { OnErr result (excuse (PageAsk.Writes page image.now) self.old self.new) };

    /// Makes everything written so far durable.
    fn sync(&mut self) -> Result<(), DeviceFailed>
        ensures durable { OnOk result ((p : ℕ) → Only (seen self.old p) (may_be self.new p)) }
        ensures seen { seen self.new ≡ seen self.old }
        ensures crash { NoMore (may_be self.old) (may_be self.new) }
        ensures time { Elapses (moment self.old) (moment self.new) (left_since self.old) (left_since self.new)
            (Leaves (may_be self.new)) }
        ensures honest { honest self.new → honest self.old }
        ensures failed { honest self.new → OnErr result
            (stopped self.new ⊎ Stays (seen self.old) (seen self.new) (Leaves (may_be self.old))
            (Leaves (may_be self.new))) }
        ensures still { honest self.new → stopped self.old → IsErr result × stopped self.new ×
            Stays (seen self.old) (seen self.new) (Leaves (may_be self.old)) (Leaves (may_be self.new)) }
        ensures cause { FailureIsCounted (faults self.old) (faults self.new) result }
        ensures excused { OnErr result (excuse PageAsk.Syncs self.old self.new) };

    /// A crash may leave what reads give.
    ghost seen_may_be: { (d : Self) (p : ℕ) → may_be d p (seen d p) };

    /// This moment is one of those since an earlier one.
    ghost counts_now: { (d : Self) (t : ℕ) (c : Images) → t ≤ moment d → Leaves (may_be d) c → left_since d t c };

    /// Since this moment there is no other.
    ghost only_now: { (d : Self) (c : Images) → left_since d (moment d) c → Leaves (may_be d) c };
}

/// A device of a log: bytes that grow at the end, whole records at a time, and may be cut off there, or be replaced. What was
/// appended is durable once forced. A record is a big-endian `u32` length and that many bytes.
pub trait LogDevice {
    /// The bytes that reads give.
    ghost seen: { Self → List ℕ };

    /// Each answer so far was that of an honest device.
    ghost honest: { Self → Type 0 };

    /// The bytes that a crash at this moment may leave.
    ghost may_leave: { Self → List ℕ → Type 0 };

    /// It has stopped: no call does anything any more.
    ghost stopped: { Self → Type 0 };

    /// The moment, as a number that never falls.
    ghost moment: { Self → ℕ };

    /// What a crash at some moment from that one on may have left.
    ghost left_since: { Self → ℕ → List ℕ → Type 0 };

    /// How often a call has failed, modulo 2^64.
    ghost faults: { Self → ℕ };

    /// What excuses a call that was asked this and has erred, by the device before and after it. An implementation that
    /// leaves this out may err for no reason.
    ghost excuse: { LogAsk → Self → Self → Type 0 } = { λ _ _ _. Unit {0} };

    /// How often a call has failed, modulo 2^64. Only a call that errs counts, and it counts one.
    fn failures(&self) -> u64
        ensures { result ≡ faults self.now };

    /// Reads from the byte `at` on, as many bytes as there are and fit, and answers how many.
    fn read(&mut self, at: u64, into: &mut [u8]) -> Result<usize, DeviceFailed>
        ensures within { IfOk result (λ n. n ≤ length into.old) }
        ensures count { IfOk result (λ n. honest self.new → n ≡ min (length into.old) (length (seen self.old) - at)) }
        ensures bytes { IfOk result (λ n. honest self.new
            → into.new ≡ take n (drop at (seen self.old)) ++ drop n into.old) }
        ensures seen { seen self.new ≡ seen self.old }
        ensures crash { (c : List ℕ) → may_leave self.new c → may_leave self.old c }
        ensures time { Elapses (moment self.old) (moment self.new) (left_since self.old) (left_since self.new)
            (may_leave self.new) }
        ensures honest { honest self.new → honest self.old }
        ensures failed { honest self.new → OnErr result
            (stopped self.new ⊎ Stays (seen self.old) (seen self.new) (may_leave self.old) (may_leave self.new)) }
        ensures still { honest self.new → stopped self.old → IsErr result × stopped self.new ×
            Stays (seen self.old) (seen self.new) (may_leave self.old) (may_leave self.new) }
        ensures cause { FailureIsCounted (faults self.old) (faults self.new) result }
        ensures excused { OnErr result (excuse (LogAsk.Reads at) self.old self.new) };

    /// Appends whole records. They are durable only after a force; a crash before it leaves the first few of their bytes.
    fn append(&mut self, bytes: &[u8]) -> Result<(), DeviceFailed>
        requires { (n : ℕ) × AreRecords n bytes.now }
        ensures added { OnOk result (seen self.new ≡ seen self.old ++ bytes.now) }
        ensures crash { Appended (seen self.old) bytes.now (may_leave self.old) (may_leave self.new) }
        ensures time { Elapses (moment self.old) (moment self.new) (left_since self.old) (left_since self.new)
            (may_leave self.new) }
        ensures honest { honest self.new → honest self.old }
        ensures failed { honest self.new → OnErr result
            (stopped self.new ⊎ Stays (seen self.old) (seen self.new) (may_leave self.old) (may_leave self.new)) }
        ensures still { honest self.new → stopped self.old → IsErr result × stopped self.new ×
            Stays (seen self.old) (seen self.new) (may_leave self.old) (may_leave self.new) }
        ensures cause { FailureIsCounted (faults self.old) (faults self.new) result }
        ensures excused { OnErr result (excuse (LogAsk.Appends bytes.now) self.old self.new) };

    /// Makes everything appended so far durable.
    fn force(&mut self) -> Result<(), DeviceFailed>
        ensures durable { OnOk result (Only (seen self.old) (may_leave self.new)) }
        ensures seen { seen self.new ≡ seen self.old }
        ensures crash { (c : List ℕ) → may_leave self.new c → may_leave self.old c }
        ensures time { Elapses (moment self.old) (moment self.new) (left_since self.old) (left_since self.new)
            (may_leave self.new) }
        ensures honest { honest self.new → honest self.old }
        ensures failed { honest self.new → OnErr result
            (stopped self.new ⊎ Stays (seen self.old) (seen self.new) (may_leave self.old) (may_leave self.new)) }
        ensures still { honest self.new → stopped self.old → IsErr result × stopped self.new ×
            Stays (seen self.old) (seen self.new) (may_leave self.old) (may_leave self.new) }
        ensures cause { FailureIsCounted (faults self.old) (faults self.new) result }
        ensures excused { OnErr result (excuse LogAsk.Forces self.old self.new) };

    /// Cuts off what is behind the first `len` bytes, and makes these durable. If these bytes were durable before, a crash in it
    /// leaves at least them.
    fn cut(&mut self, len: u64) -> Result<(), DeviceFailed>
        ensures left { OnOk result (seen self.new ≡ take len (seen self.old)) }
        ensures durable { OnOk result (Only (take len (seen self.old)) (may_leave self.new)) }
        ensures crash { CutOff (seen self.old) len (may_leave self.old) (may_leave self.new) }
        ensures time { ElapsesThrough (moment self.old) (moment self.new) (left_since self.old) (left_since self.new)
            (may_leave self.new) (IsCutBetween (seen self.old) len) }
        ensures honest { honest self.new → honest self.old }
        ensures failed { honest self.new → OnErr result
            (stopped self.new ⊎ Stays (seen self.old) (seen self.new) (may_leave self.old) (may_leave self.new)) }
        ensures still { honest self.new → stopped self.old → IsErr result × stopped self.new ×
            Stays (seen self.old) (seen self.new) (may_leave self.old) (may_leave self.new) }
        ensures cause { FailureIsCounted (faults self.old) (faults self.new) result }
        ensures excused { OnErr result (excuse (LogAsk.Cuts len) self.old self.new) };

    /// Puts whole records in the place of all that is there, and makes them durable. A crash in it leaves what it might have left
    /// before, or exactly these.
    fn replace(&mut self, bytes: &[u8]) -> Result<(), DeviceFailed>
        requires { (n : ℕ) × AreRecords n bytes.now }
        ensures left { OnOk result (seen self.new ≡ bytes.now) }
        ensures durable { OnOk result (Only bytes.now (may_leave self.new)) }
        ensures crash { Replaced bytes.now (may_leave self.old) (may_leave self.new) }
        ensures time { Elapses (moment self.old) (moment self.new) (left_since self.old) (left_since self.new)
            (may_leave self.new) }
        ensures honest { honest self.new → honest self.old }
        ensures failed { honest self.new → OnErr result
            (stopped self.new ⊎ Stays (seen self.old) (seen self.new) (may_leave self.old) (may_leave self.new)) }
        ensures still { honest self.new → stopped self.old → IsErr result × stopped self.new ×
            Stays (seen self.old) (seen self.new) (may_leave self.old) (may_leave self.new) }
        ensures cause { FailureIsCounted (faults self.old) (faults self.new) result }
        ensures excused { OnErr result (excuse (LogAsk.Replaces bytes.now) self.old self.new) };

    /// A crash may leave what reads give.
    ghost seen_may_be_left: { (d : Self) → may_leave d (seen d) };

    /// This moment is one of those since an earlier one.
    ghost counts_now: { (d : Self) (t : ℕ) (c : List ℕ) → t ≤ moment d → may_leave d c → left_since d t c };

    /// Since this moment there is no other.
    ghost only_now: { (d : Self) (c : List ℕ) → left_since d (moment d) c → may_leave d c };
}
