//! Laws of spellings, for proofs.
ghost use Rattle.rq_record.specs.Spelling.{EachHasItsSpelling, BeginsWithItsLength, ShowsItsLength, SpellingsAreBounded};
ghost use Rattle.rq_record.specs.Sizes.{EachHasItsLength};
ghost use Rattle.rq_record.specs.Deeds.{EachDeedHasItsSpelling, DeedsAreTold};

/// No spelling begins another, and no two records have one spelling.
pub fn one_spelling()
    ensures { EachHasItsSpelling }
{}

/// A spelling is one whole record by the length in its first four bytes, which count the bytes after
/// them. It has 13 to 546 bytes.
pub fn framed()
    ensures whole { BeginsWithItsLength }
    ensures front { ShowsItsLength }
    ensures bounded { SpellingsAreBounded }
{}

/// The spelling of each record that a program holds is as long as its kind says.
pub fn lengths()
    ensures { EachHasItsLength }
{}

/// No two deeds have one spelling.
pub fn one_deed()
    ensures { EachDeedHasItsSpelling }
{}

/// The spelling of a deed tells that deed.
pub fn deeds_are_told()
    ensures { DeedsAreTold }
{}
