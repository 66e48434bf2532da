// Feeding a line buffer: each line that the input ends goes to a handler.
ghost use Rattle.std.specs.Prelude.{◌≡◌, ℕ, ◌≤◌, List, [], ◌∷◌, ◌++◌, length, take, ◌==◌, OnOk};
ghost use Rattle.std.specs.List.{FoldsTo};
ghost use Rattle.lines.specs.Feeding.{fed, kept};
ghost use Rattle.lines.specs.Lines.{all_lines, if_some, lines_of, rest_of};

use crate::buffer::LineBuffer;
use arrayvec::ArrayVec;

// What ends a line.
const LINE_FEED: u8 = b'\n';

// So many bytes of a line are kept, one more than a line may have.
const MOST_KEPT: usize = 81;

// What takes lines. How it then stands is for each kind to say.
pub trait LineHandler {
    type Fault;

    ghost handled: { Self → List ℕ → Self → Type 0 };

    fn handle(&mut self, line: &[u8]) -> Result<(), Self::Fault>
        ensures { OnOk result (handled self.old line.now self.new) };
}

impl LineBuffer {
    // Before any input.
    pub fn new() -> LineBuffer
        ensures { result ≡ rest_of [] }
    {
        LineBuffer {
            bytes: ArrayVec::new(),
        }
    }

    // The bytes of the line so far, never more than 81.
    pub fn line(&self) -> &[u8]
        ensures line { result.now ≡ self.now }
        ensures few { length self.now ≤ 81 }
    {
        self.bytes.as_slice()
    }

    fn is_empty(&self) -> bool
        ensures { result ≡ (length self.now == 0) }
    {
        self.bytes.is_empty()
    }

    // One more byte of the line; what does not fit is not kept.
    fn keep(&mut self, b: u8)
        ensures { self.new ≡ take 81 (self.old ++ b ∷ []) }
    {
        if self.bytes.len() < MOST_KEPT {
            self.bytes.push(b);
        }
    }

    // A new line begins: in place of `clear`, which writes a blank over each byte by itself.
    fn begin_line(&mut self)
        ensures { self.new ≡ [] }
    {
        self.bytes = ArrayVec::new();
    }

    // Feeds a chunk: the lines that it ends go to the handler, in order.
    pub fn feed<H: LineHandler>(&mut self, chunk: &[u8], handler: &mut H) -> Result<(), H::Fault>
        ensures lines { OnOk result (FoldsTo H.handled handler.old (fed self.old chunk.now) handler.new) }
        ensures rest { OnOk result (self.new ≡ kept self.old chunk.now) }
        ensures whole { OnOk result ((bs : List ℕ) → self.old ≡ rest_of bs → (lines_of (bs ++ chunk.now) ≡ lines_of bs ++ fed self.old chunk.now) × (self.new ≡ rest_of (bs ++ chunk.now))) }
    {
        for b in chunk {
            if *b == LINE_FEED {
                handler.handle(self.line())?;
                self.begin_line();
            } else {
                self.keep(*b);
            }
        }
        Ok(())
    }

    // At the end of the input, what follows the last line feed is a line too, if it is not empty. Then the next input may begin.
    pub fn finish<H: LineHandler>(&mut self, handler: &mut H) -> Result<(), H::Fault>
        ensures lines { OnOk result (FoldsTo H.handled handler.old (if_some self.old) handler.new) }
        ensures rest { OnOk result (self.new ≡ rest_of []) }
        ensures whole { OnOk result ((bs : List ℕ) → self.old ≡ rest_of bs → all_lines bs ≡ lines_of bs ++ if_some self.old) }
    {
        if self.is_empty() {
            return Ok(());
        }
        handler.handle(self.line())?;
        self.begin_line();
        Ok(())
    }
}
