//! A transducer of formats: it is fed a byte, a block or the end, and returns or puts what that settles.
ghost use Rattle.std.specs.Prelude.{◌≡◌, ◌+◌, ◌*◌, ◌<◌, ◌≤◌, ℕ, List, [], ◌∷◌, ◌++◌, length, min, take, IfOk, MatchResult, OnOk};
ghost use Rattle.pf_values.specs.declared.limits.TheConstants.{MAX_TEXT_LEN};
ghost use Rattle.pf_values.specs.meaning.Items.{Item, Reads};
ghost use Rattle.pf_values.specs.meaning.Text.{Text};
ghost use Rattle.pf_text.specs.History.{offset_of};
ghost use Rattle.pf_canon.specs.Answers.{most_len};
ghost use Rattle.pf_canon.specs.declared.limits.TheConstants.{MAX_DIRECTIVE_LEN};
ghost use Rattle.pf_text.specs.Walks.{IsWalk};
ghost use Rattle.pf_canon.specs.Making.{IsWritten, PutsItems};
ghost use Rattle.pf_canon.specs.Output.{output_text};
ghost use Rattle.pf_canon.specs.Transducer.{SettlesEnd, IsThrough, PutsBytes, RefusesBlock, TakesBlock, Settles, TakesByte, SettlesDirective, byte_output_text, data_model_of, more_of, scanner_of, held_silents_of};

use crate::items::{put_items, run_end};
use crate::languages::Profile;
use crate::output::{SettledText, StepOutput, settle};
use crate::sink::Sink;
use pf_text::{Canonical, Percents, Refusal, Scanner, Spelling, Step, Walk};
use pf_values::{Directive, Model};

/// A data model, the scanner's state inside the current item, and the number of `%.0s` not yet
/// written: literal bytes that follow them are written first.
#[derive(Clone, Copy, Debug)]
pub(crate) struct Transducer {
    model: Model,
    scanner: Scanner,
    silents: u64,
}

impl Transducer {
    /// A transducer that took nothing.
    pub(crate) fn new(model: Model) -> Transducer
        ensures { IsThrough model result [] [] [] }
    {
        Transducer {
            model,
            scanner: Scanner::new(),
            silents: 0,
        }
    }

    /// Takes a block of a text, and puts what it settles: whole items in one go, and byte by byte an item that
    /// begins before it, ends after it, or is rejected. `Err` if a byte is rejected: then what comes
    /// before it was put.
    pub(crate) fn put<S: Sink>(&mut self, block: &[u8], sink: &mut S) -> Result<(), Refusal>
        ensures { (more : Text) × S.given sink.old sink.new more
            × ((model : Model) (t out : Text) (items : List Item) → IsThrough model self.old t items out
            → TakesBlock model t (out ++ more) block.now result self.new) }
    {
        let mut at = 0;
        while at < block.len() {
            at += self.put_front(&block[at..], sink);
            match self.put_item(&block[at..], sink) {
                Ok(len) => at += len,
                Err(refusal) => return Err(refusal),
            }
        }
        Ok(())
    }

    // Takes whole items at the front of a text, and puts what they settle. Returns how many bytes they have: 0
    // inside an item.
    #[inline(always)]
    fn put_front<S: Sink>(&mut self, text: &[u8], sink: &mut S) -> usize
        ensures put { PutsBytes S.given sink.old sink.new self.old self.new (take result text.now) }
        ensures within { result ≤ length text.now }
    {
        if !self.scanner.may_pass(text.len()) {
            return 0;
        }
        let len = self.put_items(Walk::new(text), sink);
        self.scanner.pass_items(len);
        len
    }

    // Puts what the items settle at the front of a walk's text: after a silent directive that waits, literal
    // bytes and `%%` alone. Returns where they end.
    #[inline(always)]
    fn put_items<S: Sink>(&mut self, walk: Walk<'_>, sink: &mut S) -> usize
        requires { IsWalk walk }
        ensures put { PutsItems S.given (IsWritten (data_model_of self.old)) sink.old sink.new
            (take result walk.entry.text.now) (held_silents_of self.old) (held_silents_of self.new) }
        ensures reads { (items : List Item) × Reads (take result walk.entry.text.now) items }
        ensures within { result ≤ length walk.entry.text.now }
        ensures model { data_model_of self.new ≡ data_model_of self.old }
        ensures scanner { scanner_of self.new ≡ scanner_of self.old }
    {
        if self.silents > 0 {
            let len = run_end::<Percents>(walk, 0);
            sink.put(&walk.text()[..len]);
            return len;
        }
        let mut rest = walk;
        rest.at = run_end::<(Canonical, Profile)>(walk, 0);
        let (len, held) = put_items::<Profile, _>(self.model, rest, 0, sink);
        self.silents = held;
        len
    }

    // Takes the bytes at the front of a text up to the end of one item, or all if none ends, and puts what that
    // settles. Returns how many these are.
    #[inline(never)]
    fn put_item<S: Sink>(&mut self, text: &[u8], sink: &mut S) -> Result<usize, Refusal>
        ensures put { (more : Text) × S.given sink.old sink.new more
            × ((model : Model) (t out : Text) (items : List Item) → IsThrough model self.old t items out
            → MatchResult result
            (λ len. (now : List Item) × IsThrough model self.new (t ++ take len text.now) now (out ++ more))
            (RefusesBlock model t (out ++ more) text.now)) }
        ensures within { IfOk result (λ len. (min 1 (length text.now) ≤ len) × (len ≤ length text.now)) }
    {
        let mut at = 0;
        while at < text.len() {
            let output = match self.feed(text[at]) {
                Ok(output) => output,
                Err(refusal) => return Err(refusal),
            };
            at += 1;
            match output {
                StepOutput::Nothing => {}
                StepOutput::Literal => {
                    sink.put(&text[at - 1..at]);
                    return Ok(at);
                }
                StepOutput::Output(output) => {
                    output.put(sink);
                    return Ok(at);
                }
            }
        }
        Ok(at)
    }

    /// Takes one more byte, and returns what it settles.
    pub(crate) fn feed(&mut self, byte: u8) -> Result<StepOutput, Refusal>
        ensures fed { (model : Model) (t out : Text) (items : List Item)
            → IsThrough model self.old t items out
            → TakesByte model t items out byte result self.new }
        ensures few { IfOk result (λ output.
            length (byte_output_text output byte) + 4 * held_silents_of self.new
            ≤ 4 * held_silents_of self.old + MAX_DIRECTIVE_LEN) }
        ensures offset { OnOk result (offset_of (scanner_of self.new)
            ≡ offset_of (scanner_of self.old) + 1) }
        ensures below { OnOk result (offset_of (scanner_of self.old) < MAX_TEXT_LEN) }
    {
        match self.scanner.feed(byte) {
            Ok(step) => Ok(self.settle(&step)),
            Err(refusal) => Err(refusal),
        }
    }

    // What a step settles.
    #[inline(always)]
    fn settle(&mut self, step: &Step) -> StepOutput
        ensures model { data_model_of self.new ≡ data_model_of self.old }
        ensures scanner { scanner_of self.new ≡ scanner_of self.old }
        ensures settles { (byte : ℕ) (out : Text) (items : List Item)
            → Settles (data_model_of self.old) step.now byte items out
            (held_silents_of self.old) result (held_silents_of self.new) }
        ensures few { (byte : ℕ)
            → length (byte_output_text result byte) + 4 * held_silents_of self.new
            ≤ 4 * held_silents_of self.old + MAX_DIRECTIVE_LEN }
        ensures one { held_silents_of self.new ≤ held_silents_of self.old + 1 }
        ensures short { (byte : ℕ)
            → length (byte_output_text result byte) + 4 * held_silents_of self.new
            ≤ 4 * held_silents_of self.old + most_len (more_of step.now) }
    {
        match step {
            Step::More => StepOutput::Nothing,
            Step::Byte(_) => StepOutput::Literal,
            Step::Percent => StepOutput::Output(percents()),
            Step::Directive(directive) => StepOutput::Output(self.settle_directive(directive)),
        }
    }

    #[inline(always)]
    fn settle_directive(&mut self, directive: &Directive) -> SettledText
        ensures model { data_model_of self.new ≡ data_model_of self.old }
        ensures scanner { scanner_of self.new ≡ scanner_of self.old }
        ensures settles { (out : Text) (items rest : List Item)
            → SettlesDirective (data_model_of self.old) directive.now items rest out
            (held_silents_of self.old) result (held_silents_of self.new) }
        ensures few { length (output_text result) + 4 * held_silents_of self.new
            ≤ 4 * held_silents_of self.old + MAX_DIRECTIVE_LEN }
        ensures one { held_silents_of self.new ≤ held_silents_of self.old + 1 }
    {
        settle(self.model, directive, &mut self.silents)
    }

    /// Takes the end of the text, and returns what that settles.
    #[inline(always)]
    pub(crate) fn finish(&self) -> Result<SettledText, Refusal>
        ensures ended { (model : Model) (t out : Text) (items : List Item)
            → IsThrough model self.now t items out → SettlesEnd model t items out result }
        ensures few { IfOk result (λ output.
            length (output_text output) ≤ 4 * held_silents_of self.now) }
    {
        match self.scanner.finish() {
            Ok(()) => Ok(SettledText::spelled(self.silents, Spelling::new())),
            Err(refusal) => Err(refusal),
        }
    }
}

// `%%`
fn percents() -> SettledText
    ensures { output_text result ≡ 37 ∷ 37 ∷ [] }
{
    let mut spelling = Spelling::new();
    spelling.push(b'%');
    spelling.push(b'%');
    SettledText::spelled(0, spelling)
}
