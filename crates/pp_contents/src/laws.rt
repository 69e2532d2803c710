//! What holds of the contents of pages whatever is called.

ghost use Rattle.pp_contents.specs.Told.{HonestTellsWhatItKeeps};
ghost use Rattle.pp_contents.specs.ContentLaws.{EmptyAgree, CallsKeepContents, AnswersSetContents, FlushesKeepContents};
ghost use Rattle.pp_contents.specs.ContentLaws.{FlushAnswersKeepContents, SubmitsKeepContents, RenewalsKeepContents, WritersSetContents};
ghost use Rattle.pp_contents.specs.ContentLaws.{ContentsAreSeen, LoadedAreTold};

use pp_device::Device;

/// What the calls of a vault, with what the device did for them, leave of the contents of pages. The content of a page is
/// the body of its image: with the guard that has it latched X, else with the errand that writes it back as a victim, else
/// in its frame where it is ready, else as the device last told it.
///
/// A reading sets the content of its page to the body that came, and a writer that changes its image sets that of its page.
/// Nothing else changes a content. What a guard of a page that is latched shows is its content, and a page that is being
/// read has the content that the device told. All this holds where the vault and its hands agree with what the device told.
/// They do at the start, where nothing is cached and no errand is out, and each call keeps it so, a renewal among them: the
/// next life begins with all contents.
pub fn contents_are_kept()
    ensures empty { EmptyAgree }
    ensures calls { CallsKeepContents }
    ensures answers { AnswersSetContents }
    ensures flushes { FlushesKeepContents }
    ensures flush_answers { FlushAnswersKeepContents }
    ensures submits { SubmitsKeepContents }
    ensures renewals { RenewalsKeepContents }
    ensures writers { WritersSetContents }
    ensures seen { ContentsAreSeen }
    ensures loaded { LoadedAreTold }
{}

/// A device that keeps every byte tells what it keeps.
pub fn honest_devices_tell_what_they_keep<D: Device>()
    ensures { HonestTellsWhatItKeeps D.read_gives D.write_leaves }
{}
