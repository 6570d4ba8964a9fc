//! Laws of what is shown, each as the contract of a call that does nothing.

ghost use Rattle.report_laws.specs.Shown.{ShowsWhatIsLow, ShowsByLowParts, ShowsNothingElse, ShowsWhatItStandsFor, ShowsLowSections, ShowsWhoIsLive};

/// Of every valid configuration: what is shown of a class depends only on what is at or below it; it is what a state shows for
/// which the machine of words stands; and the section is open exactly where a process of the class is live.
pub fn shown_laws()
    ensures low { ShowsWhatIsLow }
    ensures low_parts { ShowsByLowParts }
    ensures nothing_else { ShowsNothingElse }
    ensures state { ShowsWhatItStandsFor }
    ensures low_sections { ShowsLowSections }
    ensures live { ShowsWhoIsLive }
{}
