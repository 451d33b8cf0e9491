//! The laws of the definitions that contracts cite: each function here is a theorem, and does nothing.
ghost use Rattle.odata_url.specs.Laws.{StandsForOctets, PlainStandsForItself, EscapingIsUndone, NamesAnOption, ReadsBack, ReadsTargets, ReadingOrFault};
ghost use Rattle.odata_url.specs.Worked.{WorkedTargets};

/// A text stands for the octets that it is a percent-encoding of (RFC 3986, section 2.1), and for no others.
pub fn stands_for_octets()
    ensures { StandsForOctets }
{}

/// A text without `%` stands for itself.
pub fn plain_stands_for_itself()
    ensures { PlainStandsForItself }
{}

/// A text of which every byte is escaped stands for those bytes.
pub fn escaping_is_undone()
    ensures { EscapingIsUndone }
{}

/// A name means an option exactly if it is the option's in some ASCII case, with or without `$` in front.
pub fn names_an_option()
    ensures { NamesAnOption }
{}

/// A target that has a segment, UTF-8 texts and no option twice, written out and read, is itself: so every such target can be asked for,
/// whatever separators its texts hold.
pub fn reads_back()
    ensures { ReadsBack }
{}

/// What is read of a target has a segment, UTF-8 texts and no option twice.
pub fn reads_targets()
    ensures { ReadsTargets }
{}

/// A target says something or has a first fault. Out of memory is no such fault: only a call that was refused memory reports it.
pub fn reading_or_fault()
    ensures { ReadingOrFault }
{}

/// States names of options and targets with what they say, worked out by hand.
pub fn worked_targets()
    ensures { WorkedTargets }
{}
