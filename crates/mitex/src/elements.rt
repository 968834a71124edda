// Elements side by side, as the walk has them.

ghost use Rattle.std.specs.Prelude.{◌+◌, ◌≤◌, ◌<◌, length};
ghost use Rattle.text.specs.Writing.{cap};
ghost use Rattle.mitex.specs.Walks.{Siblings};

use mitex_loops::Child;
use mitex_syntax::{Children, Span, Spot};

// Some elements side by side: their rows and their text, as parts of the tree file, and the row right before them: the node's own, where
// they are all its children.
#[derive(Clone, Copy)]
pub struct Elements<'a> {
    pub rows: &'a [u8],
    pub text: &'a [u8],
    pub row: usize,
    pub ghost low: { row + 8 + length rows.now ≤ cap },
    pub ghost short: { length text.now < cap },
    pub ghost spelt: { ∥ Siblings rows.now text.now ∥₁ },
}

impl<'a> Elements<'a> {
    ghost use Rattle.std.specs.Prelude.{◌≡◌, ◌-◌, ◌/◌, take, drop, slice_index};
    ghost use Rattle.mitex_syntax.specs.Tree.{Tree, Forest, rows_ofs};
    ghost use Rattle.mitex_syntax.specs.Spells.{Spells, SomeTree};
    ghost use Rattle.mitex_meaning.specs.Parts.{LiesIn, part_rows, part_text, inner_rows};
    ghost use Rattle.mitex_loops.specs.Given.{ChildIs};
    ghost use Rattle.mitex.specs.Walks.{tail_at};

    // As the children of a node.
    pub fn children(self) -> Children<'a, 'a>
        ensures rows { result.rows.now ≡ self.entry.rows.now }
        ensures text { result.text.now ≡ self.entry.text.now }
    {
        Children {
            rows: self.rows,
            text: self.text,
        }
    }

    // Those at a place.
    pub fn part(self, spot: Spot) -> Elements<'a>
        requires inside { LiesIn self.rows.now self.text.now spot }
        requires spelt { Siblings (part_rows spot self.rows.now) (part_text spot self.text.now) }
        ensures rows { result.rows.now ≡ part_rows spot self.entry.rows.now }
        ensures text { result.text.now ≡ part_text spot self.entry.text.now }
        ensures row { result.row ≡ self.entry.row + spot.row / 8 }
    {
        Elements {
            rows: &self.rows[spot.row..spot.end],
            text: &self.text[spot.from..spot.to],
            row: self.row + spot.row / 8,
        }
    }

    // What stands in the node at a place.
    pub fn inside(self, spot: Spot) -> Elements<'a>
        requires inside { LiesIn self.rows.now self.text.now spot }
        requires some_rows { spot.row + 8 ≤ spot.end }
        requires spelt { Siblings (inner_rows spot self.rows.now) (part_text spot self.text.now) }
        ensures rows { result.rows.now ≡ inner_rows spot self.entry.rows.now }
        ensures text { result.text.now ≡ part_text spot self.entry.text.now }
        ensures row { result.row ≡ self.entry.row + 1 + spot.row / 8 }
    {
        Elements {
            rows: &self.rows[spot.row + 8..spot.end],
            text: &self.text[spot.from..spot.to],
            row: self.row + 1 + spot.row / 8,
        }
    }

    // Those behind so many bytes of rows and of text.
    pub fn behind(self, rows: usize, text: usize) -> Elements<'a>
        requires high { rows ≤ length self.rows.now }
        requires begun { text ≤ length self.text.now }
        requires spelt { Siblings (tail_at self.rows.now rows) (tail_at self.text.now text) }
        ensures rows { result.rows.now ≡ tail_at self.entry.rows.now rows }
        ensures text { result.text.now ≡ tail_at self.entry.text.now text }
        ensures row { result.row ≡ self.entry.row + rows / 8 }
    {
        Elements {
            rows: &self.rows[rows..],
            text: &self.text[text..],
            row: self.row + rows / 8,
        }
    }

    // The first of them, which have so many bytes of rows and of text.
    pub fn front(self, span: Span) -> Elements<'a>
        requires high { span.rows ≤ length self.rows.now }
        requires stop { span.text ≤ length self.text.now }
        requires spelt { Siblings (take span.rows self.rows.now) (take span.text self.text.now) }
        ensures rows { result.rows.now ≡ take span.rows self.entry.rows.now }
        ensures text { result.text.now ≡ take span.text self.entry.text.now }
        ensures row { result.row ≡ self.entry.row }
    {
        Elements {
            rows: &self.rows[..span.rows],
            text: &self.text[..span.text],
            row: self.row,
        }
    }

    // What stands in the first of them, a node with so many bytes.
    pub fn inside_first(self, span: Span) -> Elements<'a>
        requires some { 8 ≤ span.rows }
        requires high { span.rows ≤ length self.rows.now }
        requires stop { span.text ≤ length self.text.now }
        requires spelt { Siblings (take (span.rows - 8) (drop 8 self.rows.now)) (take span.text self.text.now) }
        ensures rows { result.rows.now ≡ take (span.rows - 8) (drop 8 self.entry.rows.now) }
        ensures text { result.text.now ≡ take span.text self.entry.text.now }
        ensures row { result.row ≡ self.entry.row + 1 }
    {
        Elements {
            rows: &self.rows[8..span.rows],
            text: &self.text[..span.text],
            row: self.row + 1,
        }
    }

    // The first of them, with so many bytes, and the rows of those behind it, as a loop has it.
    pub fn first_child(self, span: Span) -> Child<'a>
        requires some { 8 ≤ span.rows }
        requires high { span.rows ≤ length self.rows.now }
        requires stop { span.text ≤ length self.text.now }
        requires element { SomeTree (take span.rows self.rows.now) (take span.text self.text.now) }
        ensures child { (t : Tree) (f : Forest) → Spells t (take span.rows self.entry.rows.now) (take span.text self.entry.text.now)
            → tail_at self.entry.rows.now span.rows ≡ rows_ofs f → ChildIs t f result }
        ensures behind { result.behind.now ≡ tail_at self.entry.rows.now span.rows }
        ensures kind { result.kind ≡ slice_index self.entry.rows.now 0 }
    {
        let first = Spot {
            row: 0,
            end: span.rows,
            from: 0,
            to: span.text,
        };
        Child {
            kind: self.rows[0],
            inner: self.children().children_at(first),
            behind: &self.rows[span.rows..],
        }
    }
}
