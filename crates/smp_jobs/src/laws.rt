//! What is so of every job. The calls do nothing: each stands for a law.

ghost use Rattle.smp_jobs.specs.Laws.{FirstIsNext, MarksAreAnswered, UploadsAreTagged, SavesAreAnswered, FilesAreWhole};

/// What a job asks for first is what it does next before any answer.
pub fn the_first_request_is_next()
    ensures { FirstIsNext }
{}

/// An upload that marks its image is done by an answer to the mark alone.
pub fn marks_are_answered()
    ensures { MarksAreAnswered }
{}

/// Every part of an upload carries the SHA-256 of its file, and is for the image of its job.
pub fn uploads_are_tagged()
    ensures { UploadsAreTagged }
{}

/// A job that writes settings is done after more answers than it has settings: the last is the one to the save.
pub fn saves_are_answered()
    ensures { SavesAreAnswered }
{}

/// A job that gets a file is done with as many bytes as the device told that the file has.
pub fn files_are_whole()
    ensures { FilesAreWhole }
{}
