// A document that is open: what its calls checked.

ghost use Rattle.passes.specs.Passes.{Document};
ghost use Rattle.passes.specs.Unique.{document-unique};

use mitex_meaning::LaTeXMode;
use mitex_spec::Rules;

// What blocks are converted from: the rules, and the rows and the text in which the blocks stand. Each pass says what it asks of them.
#[derive(Clone, Copy)]
pub struct Content<'a> {
    pub rules: Rules<'a, 'a>,
    pub rows: &'a [u8],
    pub text: &'a [u8],
}

// A document past the checks, in its mode: its rules, the rows of its blocks and their text, and how many blocks there are.
#[derive(Clone, Copy)]
pub struct OpenDocument<'a> {
    pub mode: LaTeXMode,
    pub content: Content<'a>,
    pub blocks: usize,
    pub ghost open: { Document content.rules.file.now content.rules.index.now content.rows.now content.text.now blocks } by { document-unique },
}
