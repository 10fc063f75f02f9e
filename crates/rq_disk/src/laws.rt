//! Laws of devices in files, and worked cases.
ghost use Rattle.rq_disk.specs.PageFile.{PageFilesLeave};
ghost use Rattle.rq_disk.specs.WorkedFiles.{FilesAreJudged};

/// Calls of a file: those of an honest one and those of none, what a crash may leave, and what ends a device.
pub fn files_are_judged()
    ensures { FilesAreJudged }
{}

/// What a crash may leave of a page in a file. It is exactly the image at the last sync that made all durable, and each
/// image that was written since. An image that was to be written in a call that failed is one of these.
pub fn page_files_leave()
    ensures { PageFilesLeave }
{}
