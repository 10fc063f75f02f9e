//! Laws of frames, for proofs.
ghost use Rattle.rq_wire.specs.Faults.{FaultsAreTold, MoreIsAwaited};
ghost use Rattle.rq_wire.specs.Stream.{SpelledIsRead, ReadIsSpelled, FrontsAreSpelled, OneAnswer, NoneBeginsAnother, FramesCount};

/// The frame of a request is read as that request, whatever stands behind it.
pub fn spelled_is_read()
    ensures { SpelledIsRead }
{}

/// What is read as a request is that request's frame.
pub fn read_is_spelled()
    ensures { ReadIsSpelled }
{}

/// Requests stand at the front of some bytes exactly where their frames do, one after the other.
pub fn fronts_are_spelled()
    ensures { FrontsAreSpelled }
{}

/// A fault is told exactly where there is one. A length of 0 or over 512 is a fault as soon as its two bytes are there.
/// A kind that is no request's is one as soon as its byte is there. All that the length counts is one as soon as it is
/// there, where it is no request's frame.
pub fn faults_are_told()
    ensures { FaultsAreTold }
{}

/// More bytes are waited for exactly where there is neither a fault nor a request's frame.
pub fn more_is_awaited()
    ensures { MoreIsAwaited }
{}

/// Bytes have one list of requests, and a fault or none: these do not depend on how the bytes were cut.
pub fn one_answer()
    ensures { OneAnswer }
{}

/// No frame begins another, and a frame tells its kind and its fields.
pub fn none_begins_another()
    ensures { NoneBeginsAnother }
{}

/// The length with which a frame begins counts the bytes after it.
pub fn frames_count()
    ensures { FramesCount }
{}
