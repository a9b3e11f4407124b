//! The lines that are read, and what is printed for each.
ghost use Rattle.std.specs.Prelude.{◌≡◌, true, ◌&&◌, IfOk, IfErr, OnOk};
ghost use Rattle.std.specs.IoError.{error_kind};
ghost use Rattle.text.specs.Understood.{is_understood};

use std::alloc::{AllocError, Global};
use std::fmt::Display;
use std::io::{self, BufWriter, ErrorKind, Stdout, Write};
use text::{Lines, Unanswered, done, echo_words};

/// What is read and what is printed.
#[derive(Drop)]
pub struct Console<'a> {
    pub lines: Lines<'a>,
    pub printer: Printer,
}

/// What is printed, and whether every line so far was understood.
#[derive(Drop)]
pub struct Printer {
    pub heap: Global,
    out: BufWriter<Stdout>,
    understood: bool,
}

impl Printer {
    /// Where there is no memory for the buffer, nothing was printed.
    pub fn new(heap: Global, out: Stdout) -> io::Result<Printer>
        ensures no_memory { IfErr result (λ e. error_kind e ≡ ErrorKind.OutOfMemory) }
        ensures understood { IfOk result (λ p. p.understood ≡ true) }
    {
        Ok(Printer {
            heap,
            out: BufWriter::new(heap, out)?,
            understood: true,
        })
    }

    /// Prints a command's line.
    pub fn print(
        &mut self,
        words: &[&[u8]],
        answer: Result<String, Unanswered>,
    ) -> anyhow::Result<()>
        ensures { OnOk result (self.new.understood ≡ (is_understood answer && self.old.understood)) }
    {
        match answer {
            Ok(text) => self.line(words, &text),
            Err(Unanswered::Refused(refusal)) => self.line(words, &refusal),
            Err(Unanswered::NotUnderstood) => {
                self.understood = false;
                self.line(words, &"not understood")
            }
            Err(Unanswered::NoMemory) => Err(AllocError.into()),
        }
    }

    pub fn print_done(&mut self, words: &[&[u8]]) -> anyhow::Result<()>
        ensures { OnOk result (self.new.understood ≡ self.old.understood) }
    {
        let answer = done(self.heap)?;
        self.print(words, Ok(answer))
    }

    /// A command's words, an arrow and what came of it.
    fn line(&mut self, words: &[&[u8]], answer: &impl Display) -> anyhow::Result<()>
        ensures { self.new.understood ≡ self.old.understood }
    {
        self.out.write_all(&echo_words(self.heap, words)?)?;
        writeln!(self.out, "-> {answer}")?;
        Ok(())
    }

    /// Prints what is still held back, and tells whether every line was understood.
    pub fn finish(mut self) -> anyhow::Result<bool>
        ensures { IfOk result (λ b. b ≡ self.understood) }
    {
        self.out.flush()?;
        Ok(self.understood)
    }
}
