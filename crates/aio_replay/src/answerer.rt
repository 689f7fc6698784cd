//! What answers the lines of an input, one after the other.

ghost use Rattle.std.specs.Prelude.{◌≡◌, ◌+◌, ◌-◌, ◌^◌, ◌<◌, ◌≤◌, ◌++◌, ℕ, OnErr, OnOk};

use aio_base::Reason;
use std::alloc::AllocError;

/// Why a line is not answered.
#[derive(Clone, Copy)]
pub enum Unanswered {
    /// The line is refused.
    Refused(Reason),
    /// Memory ran out.
    OutOfMemory,
}

/// What answers lines, and the text of those that it answered, which is not written yet. Both lie
/// together, so that what a line runs is handed one reference.
#[derive(Drop)]
pub struct Gathered<A> {
    pub answerer: A,
    pub text: Vec<u8>,
}

impl<A: Drop> Gathered<A> {
    /// What answered the lines.
    pub fn into_answerer(self) -> A
        ensures { result ≡ self.answerer }
    {
        self.answerer
    }
}

/// What answers the lines of an input one after the other, with a state of its own, as a driver of lines
/// asks for it. Lines are given without their line feeds.
pub trait Answerer {
    ghost use Rattle.aio_replay.specs.Answering.{AnswerRules, AnswersHeader, AnswersLine, IsReady};
    ghost use Rattle.aio_replay.specs.Language.{LanguageRules};

    /// The language of the lines, and how a value stands for its states.
    ghost rules: { AnswerRules Self };

    /// Answers the first line, where it is a header: puts its text at the end of the text that is
    /// gathered. Any other first line is refused, and changes nothing. Where memory runs out, the text is
    /// as it was.
    fn open(gathered: &mut Gathered<Self>, line: &[u8]) -> Result<(), Unanswered>
        ensures opens { AnswersHeader rules line.now result gathered.old.answerer
            gathered.new.answerer gathered.old.text.items gathered.new.text.items }
        ensures within { OnOk result ((number : ℕ) → rules.within number gathered.old.answerer
            → rules.within number gathered.new.answerer) };

    /// How many lines the input has at most, its header among them, by what that said.
    fn line_limit(&self) -> u64
        ensures limit { (s : rules.State) → rules.stands self.now s
            → result ≡ rules.language.limit s }
        ensures some { 1 ≤ result }
        ensures most { result ≤ rules.most }
        ensures few { rules.most < 2 ^ 64 - 1 };

    /// Why a line of more than 256 bytes is refused.
    fn long_line(&self) -> Reason
        ensures { result ≡ rules.language.long };

    /// Answers a line: puts its text at the end of the text that is gathered. A line that is refused
    /// changes nothing. Where memory runs out, the text is as it was.
    fn answer(gathered: &mut Gathered<Self>, line: &[u8]) -> Result<(), Unanswered>
        requires ready { IsReady rules gathered.old.answerer }
        ensures answers { AnswersLine rules line.now result gathered.old.answerer
            gathered.new.answerer gathered.old.text.items gathered.new.text.items }
        ensures within { OnOk result ((number : ℕ) → rules.within number gathered.old.answerer
            → rules.within (number + 1) gathered.new.answerer) };

    /// Why the lines may not end here, where they may not: the last of them is refused so.
    fn unended(&self) -> Option<Reason>
        ensures { (s : rules.State) → rules.stands self.now s
            → result ≡ rules.language.unended s };

    /// Puts the text that was held back until the lines end at the end of `text`. `AllocError` where
    /// memory runs out; then the text is as it was.
    fn put_held(&self, text: &mut Vec<u8>) -> Result<(), AllocError>
        ensures held { OnOk result ((s : rules.State) → rules.stands self.now s
            → text.new.items ≡ text.old.items ++ rules.language.held s) }
        ensures kept { OnErr result (text.new.items ≡ text.old.items) };

    ghost language_rules: { LanguageRules rules.language };
}
