// A case while it is made: its files, what was said of the next call, and what is shown so far.
use crate::call::{Called, Sinks, call};
use crate::content::push_times;
use crate::hold::Hold;
use crate::line::{Line, Program, Question};
use crate::show::{last_of, push_line, push_text, rows_of};
use flux_outside::MemFiles;
use std::alloc::Global;
use std::thread::Threads;
use tuple_edge::OutOfMemory;

/// What is shown of an output.
#[derive(Clone, Copy)]
enum Part {
    All,
    Last,
    Rows,
}

/// A case while it is made.
#[derive(Drop)]
pub(crate) struct Stage {
    alloc: Global,
    files: MemFiles,
    // The file whose content is being read.
    name: Option<String>,
    content: Vec<u8>,
    // What was said of the next call.
    keep: Option<String>,
    part: Part,
    sinks: Sinks,
    holds: bool,
    // A text of more lines is shown cut short.
    most_lines: usize,
    shown: Vec<u8>,
}

impl Stage {
    /// A case without files, with the numbers of the calls of files that will fail. Texts of more lines than so many are
    /// shown cut short.
    pub(crate) fn new(alloc: Global, fails: Vec<u64>, most_lines: usize) -> Stage {
        Stage {
            alloc,
            files: MemFiles::new(alloc, fails),
            name: None,
            content: Vec::new(alloc),
            keep: None,
            part: Part::All,
            sinks: Sinks::new(alloc),
            holds: false,
            most_lines,
            shown: Vec::new(alloc),
        }
    }

    /// What is shown.
    pub(crate) fn into_shown(self) -> Vec<u8> {
        self.shown
    }

    /// Takes a line, which is shown as it was written, and says whether it has a form.
    pub(crate) fn take<R: Threads + Sync>(
        &mut self,
        rt: &R,
        written: &str,
        line: Line<'_>,
    ) -> Result<bool, OutOfMemory> {
        if let Line::Content { times, ends, text } = line {
            return self.take_content(times, ends, text);
        }
        if let Line::Nothing = line {
            return Ok(true);
        }
        self.end_file()?;
        match line {
            Line::File(name) => self.name = Some(String::from_str(self.alloc, name)?),
            Line::Call(program, words) => self.take_call(rt, written, program, words)?,
            Line::Keep(name) => self.keep = Some(String::from_str(self.alloc, name)?),
            Line::Last => self.part = Part::Last,
            Line::Rows => self.part = Part::Rows,
            Line::Hold => self.holds = true,
            Line::Out(numbers) => return self.sinks.out.read(numbers),
            Line::Err(numbers) => return self.sinks.err.read(numbers),
            Line::Asks(question, words) => return self.take_question(written, question, words),
            Line::Nothing | Line::Content { .. } => (),
        }
        Ok(true)
    }

    // Takes content for the file that is being read.
    fn take_content(&mut self, times: u32, ends: bool, text: &str) -> Result<bool, OutOfMemory> {
        if self.name.is_none() {
            return Ok(false);
        }
        push_times(times, text, ends, &mut self.content)
    }

    // Ends the file that is being read.
    fn end_file(&mut self) -> Result<(), OutOfMemory> {
        if let Some(name) = self.name.take() {
            self.files.put_file(name.as_str(), self.content.as_slice())?;
            self.content.clear();
        }
        Ok(())
    }

    // Makes a call, and shows it.
    fn take_call<R: Threads + Sync>(
        &mut self,
        rt: &R,
        written: &str,
        program: Program,
        words: &str,
    ) -> Result<(), OutOfMemory> {
        let gate = Hold::new(self.holds);
        let files = &mut self.files;
        let called = call(rt, self.alloc, program, words, files, &self.sinks, &gate)?;
        self.keep_output(called.out.taken())?;
        self.show(written, &called)?;
        self.show_gate(&gate)?;
        self.part = Part::All;
        self.sinks = Sinks::new(self.alloc);
        self.holds = false;
        Ok(())
    }

    // Shows whether a worker that was held up saw the other one.
    fn show_gate(&mut self, gate: &Hold) -> Result<(), OutOfMemory> {
        if self.holds {
            self.show_answer("hold", gate.has_seen())?;
        }
        Ok(())
    }

    // Shows an answer to what was written.
    fn show_answer(&mut self, written: &str, answer: bool) -> Result<(), OutOfMemory> {
        let answer = if answer { "yes" } else { "no" };
        let line = format!(in self.alloc; "{written}: {answer}")?;
        push_line(&mut self.shown, "? ", line.as_bytes())
    }

    // Keeps the output as a file, where that was asked for.
    fn keep_output(&mut self, output: &[u8]) -> Result<(), OutOfMemory> {
        if let Some(name) = self.keep.take() {
            self.files.put_file(name.as_str(), output)?;
        }
        Ok(())
    }

    // Shows a call and what came of it.
    fn show(&mut self, written: &str, called: &Called) -> Result<(), OutOfMemory> {
        match written.strip_prefix("look") {
            Some(words) => push_line(&mut self.shown, "$ flux_look", words.as_bytes())?,
            None => {
                let words = written.strip_prefix("call").unwrap_or(written);
                push_line(&mut self.shown, "$", words.as_bytes())?;
            }
        }
        self.show_output(called.out.taken())?;
        push_text(
            self.alloc,
            &mut self.shown,
            self.most_lines,
            "! ",
            called.err.taken(),
        )?;
        let status = called.status;
        let line = format!(in self.alloc; "{status}")?;
        push_line(&mut self.shown, "= ", line.as_bytes())
    }

    // Shows what was asked for of an output.
    fn show_output(&mut self, output: &[u8]) -> Result<(), OutOfMemory> {
        match self.part {
            Part::All => push_text(self.alloc, &mut self.shown, self.most_lines, "", output),
            Part::Last => push_text(
                self.alloc,
                &mut self.shown,
                self.most_lines,
                "",
                last_of(output),
            ),
            Part::Rows => {
                let rows = rows_of(self.alloc, output)?;
                push_text(
                    self.alloc,
                    &mut self.shown,
                    self.most_lines,
                    "",
                    rows.as_slice(),
                )
            }
        }
    }

    // Answers what is asked of a file, and says whether the question has a form.
    fn take_question(
        &mut self,
        written: &str,
        question: Question,
        words: &str,
    ) -> Result<bool, OutOfMemory> {
        let Some((name, other)) = words.split_once(' ') else {
            return Ok(false);
        };
        self.show_answer(written, self.answer(question, name, other))?;
        Ok(true)
    }

    // The answer to a question of a file.
    fn answer(&self, question: Question, name: &str, other: &str) -> bool {
        let Some(bytes) = self.files.file(name) else {
            return false;
        };
        match question {
            Question::Has => bytes
                .split(|byte| *byte == b'\n')
                .any(|line| line == other.as_bytes()),
            Question::Front => bytes
                .split(|byte| *byte == b'\n')
                .any(|line| line.starts_with(other.as_bytes())),
            Question::Begins => match self.files.file(other) {
                Some(front) => bytes.starts_with(front),
                None => false,
            },
        }
    }
}
