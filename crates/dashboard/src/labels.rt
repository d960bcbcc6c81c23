// The labels of the rows: those of a sheet's own bytes, or some bytes and the row number.
ghost use Rattle.std.specs.Prelude.{◌≡◌, ◌≤◌, ◌<◌, ℕ, List, length};
ghost use Rattle.basis.specs.Limits.{most_rows};
ghost use Rattle.reader.specs.Lists.{labels_long};
ghost use Rattle.dashboard.specs.Labels.{own_label, numbered};
ghost use Rattle.dashboard.specs.Inside.Ready.{LabelsLie};
ghost use Rattle.page.specs.Pages.{said};

use page::{put_bytes, put_number};

// Labels of the first rows, each of which can be put into a text.
pub(crate) trait Labels {
    // How many rows have one.
    ghost rows: { Self → ℕ };

    // The label of a row.
    ghost label: { Self → ℕ → List ℕ };

    // Puts the label of a row.
    fn put_label(&self, text: &mut [u8], at: usize, row: usize) -> usize
        requires { row < rows self.now }
        ensures { (text.new, result) ≡ said (text.old, at) (label self.now row) };
}

// The labels of a sheet, shown in the bytes themselves; a list says of each of the first rows where its label lies.
#[derive(Clone, Copy)]
pub(crate) struct OwnLabels<'a> {
    pub(crate) bytes: &'a [u8],
    pub(crate) parts: &'a [u64],
    pub(crate) rows: usize,
    ghost few: { rows ≤ most_rows },
    ghost whole: { labels_long rows ≤ length parts.now },
    ghost lie: { LabelsLie bytes.now parts.now rows },
}

impl<'a> OwnLabels<'a> {
    // The label of a row.
    fn cut(&self, row: usize) -> &'a [u8]
        requires { row < self.now.rows }
        ensures { result.now ≡ own_label self.now.bytes.now row }
    {
        let start = self.parts[row * 2] as usize;
        let end = start + self.parts[row * 2 + 1] as usize;
        &self.bytes[start..end]
    }
}

impl<'a> Labels for OwnLabels<'a> {
    ghost rows = { λ it. it.rows };

    ghost label = { λ it. own_label it.bytes.now };

    fn put_label(&self, text: &mut [u8], at: usize, row: usize) -> usize {
        put_bytes(text, at, self.cut(row))
    }
}

// Some bytes, and then the row number.
#[derive(Clone, Copy)]
pub(crate) struct NumberedLabels<'a>(pub(crate) &'a [u8]);

impl<'a> Labels for NumberedLabels<'a> {
    ghost rows = { λ it. most_rows };

    ghost label = { λ it. numbered it.0.now };

    fn put_label(&self, text: &mut [u8], at: usize, row: usize) -> usize {
        let next = put_bytes(text, at, self.0);
        put_number(text, next, row as u64)
    }
}
