//! Which image of each page outlives a crash.
ghost use Rattle.std.specs.Prelude.{◌≡◌, ◌==◌, ℕ, if◌then◌else◌};
ghost use Rattle.rq_disk.specs.Memory.{reaches};

/// Which image of each page outlives a crash.
#[derive(Drop)]
pub enum PageChoice {
    /// Of each page the image at the last sync.
    Synced,
    /// Of each page the newest image.
    Newest,
    /// Of each page, by number, the image at this place. Place 0 is the image at the last sync, and those written since
    /// follow in order. A place that is too large is the newest, and so is one that is missing.
    Places(Vec<u64>),
}

impl PageChoice {
    ghost use Rattle.rq_disk.specs.Choice.{place_of, place_after};

    // Whether the next image that was written of a page is at most at its place. Counts it.
    pub(crate) fn takes(&mut self, page: u32) -> bool
        ensures takes { result ≡ reaches (place_of self.old page) 0 }
        ensures left { (p : ℕ) → place_of self.new p ≡
            (if p == page then place_after (place_of self.old p) 1 else place_of self.old p) }
    {
        match self {
            PageChoice::Synced => false,
            PageChoice::Newest => true,
            PageChoice::Places(places) => match places.get_mut(page as usize) {
                Some(place) => {
                    if *place == 0 {
                        return false;
                    }
                    *place -= 1;
                    true
                }
                None => true,
            },
        }
    }
}
