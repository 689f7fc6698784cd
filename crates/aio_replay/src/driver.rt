//! The driver of lines: they are read and answered one by one, and their text is gathered in a block.

ghost use Rattle.std.specs.Prelude.{◌≡◌, ℕ, ◌+◌, ◌-◌, ◌<◌, ◌≤◌, ◌≢◌, [], List, Option};
ghost use Rattle.std.specs.Prelude.{drop, length, vec_len, IfErr, OnOk, OnErr, false, true};
ghost use Rattle.aio_bytes.specs.Held.{HasNoLineFeed};
ghost use Rattle.aio_bytes.specs.Sinks.{RefusedBy, Writes, is_failed};
ghost use Rattle.aio_bytes.specs.Unread.{FindsNext, Unread};
ghost use Rattle.aio_replay.specs.Driving.{ends_with, Causes, is_read_fault, is_write_fault};
ghost use Rattle.aio_replay.specs.Driving.{stops_with, write_stop, StopsBy, IfStopped};
ghost use Rattle.aio_replay.specs.Driving.{SendsOrStops, ReadsMore, ReadsOnce};
ghost use Rattle.aio_replay.specs.Steps.{Closes, LacksMemory};

use crate::answerer::{Answerer, Gathered, Unanswered};
use crate::ends::{Cause, End, Stop};
use aio_base::Reason;
use aio_bytes::{BLOCK, LineReader, Next, Sink, SinkRefusal, Source, flush};
use std::alloc::{AllocError, Global};

/// Room for the text that fills a block, of one line.
const LINE_ROOM: usize = 32_768;

/// Lines in the middle of their input: the reader of them, what answers them, and the text that is not
/// written yet.
#[derive(Drop)]
pub struct Driver<A> {
    pub reader: LineReader,
    pub gathered: Gathered<A>,
}

impl<A: Answerer + Drop> Driver<A> {
    ghost use Rattle.std.specs.Prelude.{◌⊎◌, IfOk, List, None, Option, Some};
    ghost use Rattle.aio_replay.specs.Driving.{ends_with, Causes, goes_on_with};
    ghost use Rattle.aio_replay.specs.Driving.{is_read_fault, is_write_fault};
    ghost use Rattle.aio_replay.specs.Driving.{BlockWent, StopsBy, IfStopped, EndsSo};
    ghost use Rattle.aio_replay.specs.Language.{lines_in};
    ghost use Rattle.aio_base.specs.Trace.{lines_of};
    ghost use Rattle.aio_replay.specs.Steps.{Standing, LineTaken, StandsOrEnds};
    ghost use Rattle.aio_replay.specs.Steps.{Closes, Finishes, IfEnded, Opens, end_before};

    /// A driver that has read nothing, over what answers the lines. `AllocError` where there is no memory
    /// for its parts.
    pub fn new(alloc: Global, answerer: A) -> Result<Driver<A>, AllocError>
        ensures ahead { IfOk result (λ d. d.reader.ahead ≡ []) }
        ensures text { IfOk result (λ d. d.gathered.text.items ≡ []) }
        ensures answerer { IfOk result (λ d. d.gathered.answerer ≡ answerer) }
    {
        let Ok(reader) = LineReader::new(alloc) else {
            return Err(AllocError);
        };
        let Ok(text) = Vec::with_capacity(alloc, BLOCK + LINE_ROOM) else {
            return Err(AllocError);
        };
        Ok(Driver {
            reader,
            gathered: Gathered { answerer, text },
        })
    }

    /// What answered the lines.
    pub fn into_answerer(self) -> A
        ensures { result ≡ self.gathered.answerer }
    {
        self.gathered.into_answerer()
    }

    /// Answers the lines of an input, from its header to its end.
    pub fn drive<S: Source, K: Sink>(&mut self, input: &mut S, out: &mut K) -> End
        requires opens { Opens A.rules self.old.reader.ahead self.old.gathered.text.items
            self.old.gathered.answerer }
        requires within { A.rules.within 2 self.old.gathered.answerer }
        ensures ends { (all : List ℕ) → S.remaining input.old ≡ Some all
            → EndsSo A.rules result all (S.remaining input.new)
            (K.contents out.old) (K.contents out.new) self.new.gathered.answerer }
        ensures read_cause { Causes S.fault_count S.is_sure
            input.old input.new (ends_with is_read_fault result) }
        ensures write_cause { Causes K.fault_count K.is_sure
            out.old out.new (ends_with is_write_fault result) }
        ensures refused { IfStopped result (StopsBy K.write_step out.new) }
    {
        match self.header(input, out) {
            None => self.body(input, out),
            Some(end) => end,
        }
    }

    /// Reads the header, which is the first line.
    fn header<S: Source, K: Sink>(&mut self, input: &mut S, out: &mut K) -> Option<End>
        requires opens { Opens A.rules self.old.reader.ahead self.old.gathered.text.items
            self.old.gathered.answerer }
        requires within { A.rules.within 2 self.old.gathered.answerer }
        ensures goes_on { (all : List ℕ) → S.remaining input.old ≡ Some all
            → StandsOrEnds A.rules result all (S.remaining input.new)
            (K.contents out.old) (K.contents out.new)
            2 self.new.reader.ahead self.new.gathered.text.items self.new.gathered.answerer }
        ensures bound { length self.new.reader.ahead ≤ 257 }
        ensures within { result ≡ None → A.rules.within 2 self.new.gathered.answerer }
        ensures read_cause { Causes S.fault_count S.is_sure
            input.old input.new (goes_on_with is_read_fault result) }
        ensures write_cause { Causes K.fault_count K.is_sure
            out.old out.new (goes_on_with is_write_fault result) }
        ensures refused { IfEnded result (StopsBy K.write_step out.new) }
    {
        let next = match next_line(&mut self.reader, &mut self.gathered.text, input, out) {
            Ok(next) => next,
            Err(stop) => return Some(End::Stopped(stop)),
        };
        match next {
            Next::Line => match A::open(&mut self.gathered, self.reader.line()) {
                Ok(()) => None,
                Err(Unanswered::Refused(reason)) => Some(self.refuse_first(out, reason)),
                Err(Unanswered::OutOfMemory) => Some(lacks_memory(&mut self.gathered.text, out)),
            },
            Next::Long => Some(self.refuse_first(out, Reason::Header)),
            Next::End => Some(self.refuse_first(out, Reason::Header)),
        }
    }

    /// Refuses the first line. What is held back stays unwritten, since nothing was opened.
    fn refuse_first<K: Sink>(&mut self, out: &mut K, reason: Reason) -> End
        ensures closes { Closes result (End.Refused 1 reason) (K.contents out.old)
            (K.contents out.new) self.old.gathered.text.items }
        ensures answerer { self.new.gathered.answerer ≡ self.old.gathered.answerer }
        ensures reader { self.new.reader ≡ self.old.reader }
        ensures reads { ends_with is_read_fault result ≡ false }
        ensures cause { Causes K.fault_count K.is_sure
            out.old out.new (ends_with is_write_fault result) }
        ensures refused { IfStopped result (StopsBy K.write_step out.new) }
    {
        close(
            &mut self.gathered.text,
            out,
            End::Refused { line: 1, reason },
        )
    }

    /// Answers the lines behind the header, to the end of the input. It stands apart from its one caller,
    /// so that what answers a line stands in its loop.
    #[inline(never)]
    fn body<S: Source, K: Sink>(&mut self, input: &mut S, out: &mut K) -> End
        requires bound { length self.old.reader.ahead ≤ 257 }
        requires within { A.rules.within 2 self.old.gathered.answerer }
        ensures ends { (all : List ℕ) (first : Option (List ℕ))
            → Standing A.rules all (S.remaining input.old) first (K.contents out.old)
            2 self.old.reader.ahead self.old.gathered.text.items self.old.gathered.answerer
            → EndsSo A.rules result all (S.remaining input.new) first (K.contents out.new)
            self.new.gathered.answerer }
        ensures read_cause { Causes S.fault_count S.is_sure
            input.old input.new (ends_with is_read_fault result) }
        ensures write_cause { Causes K.fault_count K.is_sure
            out.old out.new (ends_with is_write_fault result) }
        ensures refused { IfStopped result (StopsBy K.write_step out.new) }
    {
        for line in 2..self.gathered.answerer.line_limit() + 1 {
            match self.drive_line(line, input, out) {
                None => {}
                Some(end) => return end,
            }
        }
        self.after_last(input, out)
    }

    /// Reads and answers the line of this number, where there is one.
    #[inline(always)]
    fn drive_line<S: Source, K: Sink>(
        &mut self,
        line: u64,
        input: &mut S,
        out: &mut K,
    ) -> Option<End>
        requires behind { 2 ≤ line }
        requires limit { line ≤ A.rules.most }
        requires bound { length self.old.reader.ahead ≤ 257 }
        requires within { A.rules.within line self.old.gathered.answerer }
        ensures goes_on { (all : List ℕ) (first : Option (List ℕ))
            → line ≤ lines_in A.rules.language (lines_of all)
            → Standing A.rules all (S.remaining input.old) first (K.contents out.old)
            line self.old.reader.ahead self.old.gathered.text.items self.old.gathered.answerer
            → StandsOrEnds A.rules result all (S.remaining input.new) first (K.contents out.new)
            (line + 1) self.new.reader.ahead self.new.gathered.text.items self.new.gathered.answerer }
        ensures bound { length self.new.reader.ahead ≤ 257 }
        ensures within { result ≡ None → A.rules.within (line + 1) self.new.gathered.answerer }
        ensures block { result ≡ None → vec_len self.new.gathered.text < 65536 }
        ensures read_cause { Causes S.fault_count S.is_sure
            input.old input.new (goes_on_with is_read_fault result) }
        ensures write_cause { Causes K.fault_count K.is_sure
            out.old out.new (goes_on_with is_write_fault result) }
        ensures refused { IfEnded result (StopsBy K.write_step out.new) }
    {
        let next = match next_line(&mut self.reader, &mut self.gathered.text, input, out) {
            Ok(next) => next,
            Err(stop) => return Some(End::Stopped(stop)),
        };
        match next {
            Next::Line => self.answer_line(line, out),
            Next::Long => {
                let reason = self.gathered.answerer.long_line();
                Some(self.refuse(out, line, reason))
            }
            Next::End => Some(self.end(out, line)),
        }
    }

    /// Looks for a line past the last that an input may have, and refuses it.
    fn after_last<S: Source, K: Sink>(&mut self, input: &mut S, out: &mut K) -> End
        requires bound { length self.old.reader.ahead ≤ 257 }
        ensures ends { (all : List ℕ) (first : Option (List ℕ))
            → Standing A.rules all (S.remaining input.old) first (K.contents out.old)
            (lines_in A.rules.language (lines_of all) + 1) self.old.reader.ahead self.old.gathered.text.items
            self.old.gathered.answerer
            → EndsSo A.rules result all (S.remaining input.new) first (K.contents out.new)
            self.new.gathered.answerer }
        ensures read_cause { Causes S.fault_count S.is_sure
            input.old input.new (ends_with is_read_fault result) }
        ensures write_cause { Causes K.fault_count K.is_sure
            out.old out.new (ends_with is_write_fault result) }
        ensures refused { IfStopped result (StopsBy K.write_step out.new) }
    {
        let line = self.gathered.answerer.line_limit() + 1;
        let next = match next_line(&mut self.reader, &mut self.gathered.text, input, out) {
            Ok(next) => next,
            Err(stop) => return End::Stopped(stop),
        };
        match next {
            Next::Line => self.refuse(out, line, Reason::Lines),
            Next::Long => self.refuse(out, line, Reason::Lines),
            Next::End => self.end(out, line),
        }
    }

    /// Answers the line that was found, which has this number. The text is written where it fills a
    /// block, and else kept. Where memory runs out, the text of the lines before is written as far as
    /// the output takes it.
    #[inline(always)]
    fn answer_line<K: Sink>(&mut self, line: u64, out: &mut K) -> Option<End>
        requires limit { line ≤ A.rules.most }
        requires within { A.rules.within line self.old.gathered.answerer }
        ensures goes_on { (input : List ℕ) (told first : Option (List ℕ))
            → line ≤ lines_in A.rules.language (lines_of input)
            → LineTaken A.rules input told first (K.contents out.old) line
            self.old.reader.line self.old.reader.ahead self.old.gathered.text.items self.old.gathered.answerer
            → StandsOrEnds A.rules result input told first (K.contents out.new)
            (line + 1) self.new.reader.ahead self.new.gathered.text.items self.new.gathered.answerer }
        ensures within { result ≡ None → A.rules.within (line + 1) self.new.gathered.answerer }
        ensures block { result ≡ None → vec_len self.new.gathered.text < 65536 }
        ensures gathers { result ≡ None → (out.new ≡ out.old)
            ⊎ BlockWent (K.contents out.old) (K.contents out.new) }
        ensures reader { self.new.reader ≡ self.old.reader }
        ensures reads { goes_on_with is_read_fault result ≡ false }
        ensures cause { Causes K.fault_count K.is_sure
            out.old out.new (goes_on_with is_write_fault result) }
        ensures refused { IfEnded result (StopsBy K.write_step out.new) }
    {
        match A::answer(&mut self.gathered, self.reader.line()) {
            Ok(()) => {}
            Err(Unanswered::Refused(reason)) => return Some(self.refuse(out, line, reason)),
            Err(Unanswered::OutOfMemory) => return Some(lacks_memory(&mut self.gathered.text, out)),
        }
        if self.gathered.text.len() < BLOCK {
            return None;
        }
        match flush(&mut self.gathered.text, out) {
            Ok(()) => None,
            Err(refusal) => Some(End::Stopped(refused_by(refusal))),
        }
    }

    /// Ends with the input, before the line of this number; or refuses the last line, where the lines
    /// may not end there.
    fn end<K: Sink>(&mut self, out: &mut K, line: u64) -> End
        requires { 1 ≤ line }
        ensures finishes { (s : A.rules.State) → A.rules.stands self.old.gathered.answerer s
            → Finishes A.rules s result (end_before line (A.rules.language.unended s))
            (K.contents out.old) (K.contents out.new) self.old.gathered.text.items }
        ensures answerer { self.new.gathered.answerer ≡ self.old.gathered.answerer }
        ensures reader { self.new.reader ≡ self.old.reader }
        ensures reads { ends_with is_read_fault result ≡ false }
        ensures cause { Causes K.fault_count K.is_sure
            out.old out.new (ends_with is_write_fault result) }
        ensures refused { IfStopped result (StopsBy K.write_step out.new) }
    {
        match self.gathered.answerer.unended() {
            None => self.finish(out, End::Done),
            Some(reason) => self.refuse(out, line - 1, reason),
        }
    }

    /// Refuses a line after the text is written.
    fn refuse<K: Sink>(&mut self, out: &mut K, line: u64, reason: Reason) -> End
        ensures finishes { (s : A.rules.State) → A.rules.stands self.old.gathered.answerer s
            → Finishes A.rules s result (End.Refused line reason)
            (K.contents out.old) (K.contents out.new) self.old.gathered.text.items }
        ensures answerer { self.new.gathered.answerer ≡ self.old.gathered.answerer }
        ensures reader { self.new.reader ≡ self.old.reader }
        ensures reads { ends_with is_read_fault result ≡ false }
        ensures cause { Causes K.fault_count K.is_sure
            out.old out.new (ends_with is_write_fault result) }
        ensures refused { IfStopped result (StopsBy K.write_step out.new) }
    {
        self.finish(out, End::Refused { line, reason })
    }

    /// Puts what is held back at the end of the text, writes that, and ends so; or with what stopped
    /// that.
    fn finish<K: Sink>(&mut self, out: &mut K, end: End) -> End
        ensures finishes { (s : A.rules.State) → A.rules.stands self.old.gathered.answerer s
            → Finishes A.rules s result end
            (K.contents out.old) (K.contents out.new) self.old.gathered.text.items }
        ensures answerer { self.new.gathered.answerer ≡ self.old.gathered.answerer }
        ensures reader { self.new.reader ≡ self.old.reader }
        ensures reads { ends_with is_read_fault end ≡ false
            → ends_with is_read_fault result ≡ false }
        ensures cause { ends_with is_write_fault end ≡ false → Causes K.fault_count K.is_sure
            out.old out.new (ends_with is_write_fault result) }
        ensures refused { IfStopped end (λ stop. ⊥)
            → IfStopped result (StopsBy K.write_step out.new) }
    {
        match self.gathered.answerer.put_held(&mut self.gathered.text) {
            Ok(()) => close(&mut self.gathered.text, out, end),
            Err(_) => lacks_memory(&mut self.gathered.text, out),
        }
    }
}

/// Ends where memory ran out: what is left of the text is written as far as the output takes it.
fn lacks_memory<K: Sink>(text: &mut Vec<u8>, out: &mut K) -> End
    ensures lacks { LacksMemory result (K.contents out.old) (K.contents out.new)
        text.old.items }
    ensures reads { ends_with is_read_fault result ≡ false }
    ensures cause { Causes K.fault_count K.is_sure
        out.old out.new (ends_with is_write_fault result) }
    ensures refused { IfStopped result (StopsBy K.write_step out.new) }
{
    let sent = flush(text, out);
    let cause = Cause::Memory;
    End::Stopped(Stop { cause, sent })
}

/// Writes what is left of the text, and ends so; or with what stopped that.
fn close<K: Sink>(text: &mut Vec<u8>, out: &mut K, end: End) -> End
    ensures closes { Closes result end (K.contents out.old) (K.contents out.new) text.old.items }
    ensures reads { ends_with is_read_fault end ≡ false
        → ends_with is_read_fault result ≡ false }
    ensures cause { ends_with is_write_fault end ≡ false → Causes K.fault_count K.is_sure
        out.old out.new (ends_with is_write_fault result) }
    ensures refused { IfStopped end (λ stop. ⊥)
        → IfStopped result (StopsBy K.write_step out.new) }
{
    match flush(text, out) {
        Ok(()) => end,
        Err(refusal) => End::Stopped(refused_by(refusal)),
    }
}

/// The stop of an output that refused answers.
fn refused_by(refusal: SinkRefusal) -> Stop
    ensures { result ≡ write_stop refusal }
{
    Stop {
        cause: Cause::Write,
        sent: Err(refusal),
    }
}

/// Reads more of the input. Where the input has no byte in hand, so that the read may have to wait, the
/// text is written before, and else it is left as it is. The input is read by one call, which asks for as many bytes as there is
/// room for, and not at all where the output refuses answers. Answers how many bytes came; 0 is the
/// end of the input. Where the input fails, what was answered before is written as far as the output
/// takes it.
fn read_more<S: Source, K: Sink>(
    reader: &mut LineReader,
    text: &mut Vec<u8>,
    input: &mut S,
    out: &mut K,
) -> Result<usize, Stop>
    requires { length reader.old.ahead < 257 }
    ensures read { ReadsMore result (S.remaining input.old) (S.remaining input.new)
        reader.old.ahead reader.new.ahead }
    ensures bound { length reader.new.ahead ≤ 257 }
    ensures sends { SendsOrStops result (K.contents out.old) (K.contents out.new)
        text.old.items text.new.items }
    ensures sent_before_waiting { S.in_hand input.old ≡ 0
        → OnOk result (text.new.items ≡ []) }
    ensures gathers { 0 < S.in_hand input.old
        → OnOk result ((text.new.items ≡ text.old.items) × (out.new ≡ out.old)) }
    ensures call { ReadsOnce S.read_step input.old (257 - length reader.old.ahead) result
        (drop (length reader.old.ahead) reader.new.ahead) input.new }
    ensures refused { IfErr result (StopsBy K.write_step out.new) }
    ensures read_cause { Causes S.fault_count S.is_sure
        input.old input.new (stops_with is_read_fault result) }
    ensures write_cause { Causes K.fault_count K.is_sure
        out.old out.new (stops_with is_write_fault result) }
{
    if input.in_hand() == 0 {
        match flush(text, out) {
            Ok(()) => {}
            Err(refusal) => return Err(refused_by(refusal)),
        }
    }
    match reader.read(input) {
        Ok(count) => Ok(count),
        Err(_) => {
            let sent = flush(text, out);
            let cause = Cause::Read;
            Err(Stop { cause, sent })
        }
    }
}

/// Finds the next line of the input, or its end. The common case, a line that lies ahead, is apart from
/// those in which more is read.
#[inline]
fn next_line<S: Source, K: Sink>(
    reader: &mut LineReader,
    text: &mut Vec<u8>,
    input: &mut S,
    out: &mut K,
) -> Result<Next, Stop>
    ensures found { (unread : List ℕ) → Unread (S.remaining input.old) reader.old.ahead unread
        → FindsNext result (S.remaining input.new) reader.new.line reader.new.ahead unread }
    ensures bound { length reader.new.ahead ≤ 257 }
    ensures sends { SendsOrStops result (K.contents out.old) (K.contents out.new)
        text.old.items text.new.items }
    ensures read_cause { Causes S.fault_count S.is_sure
        input.old input.new (stops_with is_read_fault result) }
    ensures write_cause { Causes K.fault_count K.is_sure
        out.old out.new (stops_with is_write_fault result) }
    ensures refused { IfErr result (StopsBy K.write_step out.new) }
{
    if reader.find_line() {
        return Ok(Next::Line);
    }
    read_line(reader, text, input, out)
}

/// Finds the next line of the input, or its end, where no whole line lies ahead: more is read until there
/// is one.
#[inline(never)]
fn read_line<S: Source, K: Sink>(
    reader: &mut LineReader,
    text: &mut Vec<u8>,
    input: &mut S,
    out: &mut K,
) -> Result<Next, Stop>
    requires bound { length reader.old.ahead ≤ 257 }
    requires no_line { HasNoLineFeed reader.old.ahead }
    ensures found { (unread : List ℕ) → Unread (S.remaining input.old) reader.old.ahead unread
        → FindsNext result (S.remaining input.new) reader.new.line reader.new.ahead unread }
    ensures bound { length reader.new.ahead ≤ 257 }
    ensures sends { SendsOrStops result (K.contents out.old) (K.contents out.new)
        text.old.items text.new.items }
    ensures read_cause { Causes S.fault_count S.is_sure
        input.old input.new (stops_with is_read_fault result) }
    ensures write_cause { Causes K.fault_count K.is_sure
        out.old out.new (stops_with is_write_fault result) }
    ensures refused { IfErr result (StopsBy K.write_step out.new) }
{
    if reader.is_full() {
        reader.take_rest();
        return Ok(Next::Long);
    }
    loop {
        match read_more(reader, text, input, out) {
            Ok(0) => return Ok(reader.last()),
            Ok(_) => {}
            Err(stop) => return Err(stop),
        }
        match reader.next_ahead() {
            Some(next) => return Ok(next),
            None => {}
        }
    }
}
