//! What holds of the words that a restart's contract uses.
ghost use Rattle.rq_restart.specs.Ended.{EndedIsSettled};
ghost use Rattle.rq_restart.specs.Places.{PlacesAreOpen, UndosHavePlaces};
ghost use Rattle.rq_restart.specs.Once.{OneLogEach, OneSizeEach, ReadWithItsEarlier};

/// Of every whole log: what a restart asks of it as it is read, before it opens it, is that no transaction is lost.
pub fn ended_is_settled()
    ensures { EndedIsSettled }
{}

/// Bytes are the spelling of what stands of one log at most.
pub fn one_log()
    ensures { OneLogEach }
{}

/// A log is what is read of it, with what stood before its Base in the place of the marks.
pub fn read_with_its_earlier()
    ensures { ReadWithItsEarlier }
{}

/// A superblock tells one size.
pub fn one_size()
    ensures { OneSizeEach }
{}

/// Of every log: places are kept of the PageOps of operations that have no end in it, and of the OpEnds of transactions that have
/// none. No others are kept, and they stand by rising LSN.
pub fn places_are_open()
    ensures { PlacesAreOpen }
{}

/// Of every log: a record whose place is kept tells each write that is not undone, and each deed that is to be taken back.
pub fn undos_have_places()
    ensures { UndosHavePlaces }
{}
