// The lines in which the records of both files begin.
ghost use Rattle.origin_text.specs.Files.{files_in, text_of, texts_of};
ghost use Rattle.std.specs.Prelude.{◌≡◌};
ghost use Rattle.trade_sift.specs.Sifted.{line_of};

use crate::files::InputFiles;
use input_faults::RecordLines;
use std::marker::Model;

// The lines in which the records of both files begin: where records are asked for in rising order, each file is read once. Contracts see
// the texts of the files.
#[derive(Drop)]
pub(crate) struct InputLines<'a> {
    trades: RecordLines<'a>,
    movements: RecordLines<'a>,
}

impl<'a> Model for InputLines<'a> {
    ghost use Rattle.origin_text.specs.Files.{Texts};

    ghost Value = { Texts };

    ghost view = { λ l. record { trades = l.trades; movements = l.movements } };
}

impl<'a> InputLines<'a> {
    // Those of these files.
    pub(crate) fn new(files: &InputFiles<'a>) -> InputLines<'a>
        ensures { result ≡ texts_of (files_in files.now) }
    {
        InputLines {
            trades: RecordLines::new(files.trades.text),
            movements: RecordLines::new(files.movements.text),
        }
    }

    // The line in which the record of this number begins in the file of a source; the header is record 1.
    pub(crate) fn line(&mut self, source: u32, number: u64) -> u64
        ensures line { result ≡ line_of (text_of self.old source) number }
        ensures same { self.new ≡ self.old }
    {
        if source == 0 {
            self.trades.line(number)
        } else {
            self.movements.line(number)
        }
    }
}
