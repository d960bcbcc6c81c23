// The lines of a whole sheet.
ghost use Rattle.std.specs.Prelude.{◌≡◌, ◌++◌, ◌≤◌, ◌<◌, length};
ghost use Rattle.basis.specs.Limits.{most_rows};
ghost use Rattle.bound.specs.Lists.{results_long, word_at};
ghost use Rattle.dashboard.specs.Words.{result_words, line_start, line, ending};
ghost use Rattle.dashboard.specs.Texts.{lines};
ghost use Rattle.page.specs.Pages.{said};

use crate::labels::Labels;
use crate::line::put_ending;
use page::{put, put_bytes, put_number};

// The rows of a sheet that was judged: their labels, and a list of their results.
#[derive(Drop)]
pub(crate) struct Board<'a, L: Labels> {
    pub(crate) labels: L,
    pub(crate) results: &'a [u64],
    pub(crate) rows: usize,
    ghost few: { rows ≤ most_rows },
    ghost labelled: { rows ≤ L.rows labels },
    ghost judged: { results_long rows ≤ length results.now },
}

impl<'a, L: Labels> Board<'a, L> {
    // The row number and the label.
    fn put_head(&self, text: &mut [u8], at: usize, row: usize) -> usize
        requires { row < self.now.rows }
        ensures { (text.new, result) ≡ said (text.old, at) (line_start row (L.label self.now.labels row)) }
    {
        let a = put_number(text, at, row as u64);
        let b = put(text, a, b' ');
        let c = self.labels.put_label(text, b, row);
        put(text, c, b' ')
    }

    // The word of a row's result, and the bound or a dash; the list is the C interface's, whose words are numbers: 0 unreached, 1 bound, 2 none.
    fn put_result(&self, text: &mut [u8], at: usize, row: usize) -> usize
        requires { row < self.now.rows }
        ensures { (text.new, result) ≡ said (text.old, at) (result_words (word_at self.now.results.now row)) }
    {
        match self.results[row * 2] {
            0 => put_bytes(text, at, b"unreached -"),
            1 => {
                let next = put_bytes(text, at, b"bound ");
                put_number(text, next, self.results[row * 2 + 1])
            }
            _ => put_bytes(text, at, b"none -"),
        }
    }

    // The line of a row.
    fn put_line(&self, text: &mut [u8], at: usize, row: usize) -> usize
        requires { row < self.now.rows }
        ensures { (text.new, result) ≡ said (text.old, at) (line row (L.label self.now.labels row) (word_at self.now.results.now row)) }
    {
        let a = self.put_head(text, at, row);
        let b = self.put_result(text, a, row);
        put(text, b, b'\n')
    }

    // A line for each row.
    fn put_lines(&self, text: &mut [u8], at: usize) -> usize
        ensures { (text.new, result) ≡ said (text.old, at) (lines (L.label self.now.labels) (word_at self.now.results.now) self.now.rows) }
    {
        let mut next = at;
        for row in 0..self.rows {
            next = self.put_line(text, next, row);
        }
        next
    }

    // A line for each row, then HOLDS or FAILS.
    pub(crate) fn put(&self, text: &mut [u8], at: usize, holds: bool) -> usize
        ensures { (text.new, result) ≡ said (text.old, at) (lines (L.label self.now.labels) (word_at self.now.results.now) self.now.rows ++ ending holds) }
    {
        let next = self.put_lines(text, at);
        put_ending(text, next, holds)
    }
}
