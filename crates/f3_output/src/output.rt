//! Writers that know whether they have refused.

ghost use Rattle.std.specs.Prelude.{◌≡◌, [], true, false, OnOk, OnErr};
ghost use Rattle.std.specs.Io.KnownBytes.{Keeps};
ghost use Rattle.f3_output.specs.Output.{writer_of, is_refused, state_of, Wrote, Faulted};

use std::io::Write;

/// A writer, and whether it has refused: it failed, or took none of the bytes that it was given.
#[derive(Drop)]
pub struct Output<W> {
    writer: W,
    refused: bool,
}

/// The writer refused.
#[derive(Clone, Copy, PartialEq, Eq, Debug)]
pub struct Refused;

impl<W: Write> Output<W> {
    /// An output into a writer, which has refused nothing yet.
    pub fn new(writer: W) -> Output<W>
        ensures writer { writer_of result ≡ writer }
        ensures fresh { is_refused result ≡ false }
    {
        Output {
            writer,
            refused: false,
        }
    }

    /// Writes all the bytes; `Refused` where the writer failed or took none of the bytes that were left, which it is
    /// not given again.
    //
    // std says nothing of when a write fails: that `refused` is set only there is read in this body, and tested.
    pub fn write(&mut self, bytes: &[u8]) -> Result<(), Refused>
        ensures all { OnOk result (Wrote (state_of W.contents self.old) (state_of W.contents self.new) bytes.now) }
        ensures front { OnErr result (Faulted (state_of W.contents self.old) (state_of W.contents self.new) bytes.now) }
    {
        let mut rest = bytes;
        while !rest.is_empty() {
            match self.writer.write(rest) {
                Ok(n) if n > 0 => rest = &rest[n..],
                _ => {
                    self.refused = true;
                    return Err(Refused);
                }
            }
        }
        Ok(())
    }

    /// Hands on what the writer keeps back; `Refused` where it fails.
    pub fn flush(&mut self) -> Result<(), Refused>
        ensures all { OnOk result (Wrote (state_of W.contents self.old) (state_of W.contents self.new) []) }
        ensures refused { OnErr result (Faulted (state_of W.contents self.old) (state_of W.contents self.new) []) }
    {
        if self.writer.flush().is_err() {
            self.refused = true;
            return Err(Refused);
        }
        Ok(())
    }

    /// Whether the writer has refused.
    pub fn is_refused(&self) -> bool
        ensures { result ≡ is_refused self.now }
    {
        self.refused
    }

    /// The writer.
    pub fn writer(&self) -> &W
        ensures { result.now ≡ writer_of self.now }
    {
        &self.writer
    }
}
