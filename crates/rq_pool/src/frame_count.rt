//! How many frames a pool may have.
ghost use Rattle.std.specs.Prelude.{◌≡◌, ◌≤◌, ◌↔◌, IfSome, IsSome};

/// How many frames a pool has, beside that of the superblock.
#[derive(Clone, Copy, PartialEq, Eq)]
pub struct FrameCount {
    pub count: u32,
    ghost few: { 8 ≤ count },
    ghost most: { count ≤ 67585 },
}

impl FrameCount {
    /// The fewest that a pool may have.
    pub const FEWEST: u32 = 8;

    /// The most: as many as the greatest store has pages.
    pub const MOST: u32 = 67_585;

    /// So many; none where that is out of range.
    pub fn new(count: u32) -> Option<FrameCount>
        ensures known { IsSome result ↔ ((8 ≤ count) × (count ≤ 67585)) }
        ensures count { IfSome result (λ frames. frames.count ≡ count) }
    {
        if count < FrameCount::FEWEST || count > FrameCount::MOST {
            return None;
        }
        Some(FrameCount { count })
    }

    /// As many as a pool may have.
    pub fn most() -> FrameCount
        ensures { result.count ≡ 67585 }
    {
        FrameCount {
            count: FrameCount::MOST,
        }
    }
}
