//! What holds of all patterns. The functions do nothing: each stands for the law that its contract states.

ghost use Rattle.link_glob.specs.Laws.{EscapingKeepsNames, EscapingIsExact, HasOnePattern, GnuIsMachO};
ghost use Rattle.link_glob.specs.Laws.{KindExamples, UnescapingExamples, ReadingExamples, MatchingExamples};

/// A name whose special bytes are escaped is a pattern of that name alone.
pub fn escaping_law()
    ensures kept { EscapingKeepsNames }
    ensures exact { EscapingIsExact }
{}

/// A text spells one pattern at most, and a GNU pattern is a Mach-O pattern too.
pub fn grammar_law()
    ensures one_pattern { HasOnePattern }
    ensures both { GnuIsMachO }
{}

/// Worked examples of what patterns mean.
pub fn examples_law()
    ensures kinds { KindExamples }
    ensures unescaping { UnescapingExamples }
    ensures reading { ReadingExamples }
    ensures matching { MatchingExamples }
{}
