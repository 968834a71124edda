// The children of a node, and the typed views of syntax.rs over them.

ghost use Rattle.std.specs.Prelude.{◌≡◌, ◌+◌, ◌-◌, take, drop};
ghost use Rattle.mitex_syntax.specs.Syntax.{ItemBegin};
ghost use Rattle.mitex_syntax.specs.Tree.{Forest};
ghost use Rattle.mitex_syntax.specs.Views.{is_of, is_argument_with, cmd_name, first_tokens, last_tokens, env_name, is_inline, is_valid};
ghost use Rattle.mitex_syntax.specs.Spells.{Begins, SomeForest};
ghost use Rattle.mitex_syntax.specs.Places.{is_wanted, FindsSpot, InText, part_at, SpotIn, FoundIn, TokenIs, TokenIn};
ghost use Rattle.mitex_syntax.specs.Once.{SomeForest-prop};

use super::{
    CLAUSE_COMMAND_NAME, Cursor, ITEM_BEGIN, Spot, TOKEN_BEGIN_MATH, TOKEN_DOLLAR, TOKEN_END_MATH,
    Token, Wanted, extent, hop, is_wanted, number, span_at,
};

// The children of a node: the rows after the node's own, and the text, which begins with theirs.
#[derive(Clone, Copy)]
pub struct Children<'r, 't> {
    pub rows: &'r [u8],
    pub text: &'t [u8],
    pub ghost some: { SomeForest rows.now text.now 0 0 } by { SomeForest-prop rows.now text.now 0 0 },
}

// The first of these elements from a cursor on that is what is looked for; those before the cursor need not be of any.
pub fn find(rows: &[u8], text: &[u8], at: Cursor, wanted: Wanted) -> Option<Spot>
    requires { SomeForest rows.now text.now at.row at.text }
    ensures finds { FindsSpot (is_wanted wanted) rows.now text.now at.row at.text result }
    ensures found { FoundIn rows.now text.now result }
{
    // what is found is told by its place among all the bytes, so the place is counted on, element by element
    let mut i = at.row;
    let mut j = at.text;
    while i < rows.len() {
        let s = span_at(rows, i);
        let end = i + s.rows;
        let to = j + s.text;
        if is_wanted(&rows[i..end], wanted) {
            return Some(Spot {
                row: i,
                end,
                from: j,
                to,
            });
        }
        i = end;
        j = to;
    }
    None
}

// The text at a place; none where nothing was found.
pub fn text_at<'t>(text: &'t [u8], place: Option<Spot>) -> &'t [u8]
    requires { InText text.now place }
    ensures { result.now ≡ part_at place text.now }
{
    match place {
        Some(spot) => &text[spot.from..spot.to],
        None => &[],
    }
}

impl<'r, 't> Children<'r, 't> {
    // The first child from a cursor on that is what is looked for.
    pub fn find(self, at: Cursor, wanted: Wanted) -> Option<Spot>
        requires { SomeForest self.rows.now self.text.now at.row at.text }
        ensures finds { FindsSpot (is_wanted wanted) self.entry.rows.now self.entry.text.now at.row at.text result }
        ensures found { FoundIn self.entry.rows.now self.entry.text.now result }
    {
        find(self.rows, self.text, at, wanted)
    }

    // The first child of a kind.
    pub fn find_kind(self, kind: u8) -> Option<Spot>
        ensures finds { FindsSpot (is_of kind) self.entry.rows.now self.entry.text.now 0 0 result }
        ensures found { FoundIn self.entry.rows.now self.entry.text.now result }
    {
        self.find(Cursor { row: 0, text: 0 }, Wanted::Kind(kind))
    }

    // The first argument whose first node is of a kind; kind 0: the first that has no node, as `is_argument_with` counts kinds.
    pub fn argument_with(self, kind: u8) -> Option<Spot>
        ensures finds { FindsSpot (is_argument_with kind) self.entry.rows.now self.entry.text.now 0 0 result }
        ensures found { FoundIn self.entry.rows.now self.entry.text.now result }
    {
        self.find(Cursor { row: 0, text: 0 }, Wanted::ArgumentWith(kind))
    }

    // The text at a place; none where nothing was found.
    pub fn text_at(self, place: Option<Spot>) -> &'t [u8]
        requires { InText self.text.now place }
        ensures { result.now ≡ part_at place self.entry.text.now }
    {
        text_at(self.text, place)
    }

    // The children of the element at a place.
    pub fn children_at(self, spot: Spot) -> Children<'r, 't>
        requires { SpotIn self.rows.now self.text.now spot }
        ensures rows { result.rows.now ≡ take (spot.end - (spot.row + 8)) (drop (spot.row + 8) self.entry.rows.now) }
        ensures text { result.text.now ≡ take (spot.to - spot.from) (drop spot.from self.entry.text.now) }
    {
        Children {
            rows: &self.rows[spot.row + 8..spot.end],
            text: &self.text[spot.from..spot.to],
        }
    }

    // `CmdItem::name_tok`: the name of a command over these children.
    pub fn name_tok(self) -> &'t [u8]
        ensures { (f : Forest) → Begins f self.entry.rows.now self.entry.text.now → result.now ≡ cmd_name f }
    {
        self.text_at(self.find_kind(CLAUSE_COMMAND_NAME))
    }

    // The first token, following first children only.
    pub fn first_token(self) -> Option<Token<'t>>
        ensures token { (f : Forest) → Begins f self.entry.rows.now self.entry.text.now → TokenIs (first_tokens f) result }
        ensures inside { TokenIn self.entry.text.now result }
    {
        let mut rows = self.rows;
        while !rows.is_empty() {
            let n = number(rows, 0);
            if rows[1] == 1 {
                return Some(Token {
                    kind: rows[0],
                    text: &self.text[..n],
                });
            }
            rows = &rows[8..8 + 8 * n];
        }
        None
    }

    // The last token, following last children only: that of the row that stands last of all, if it is a token's.
    pub fn last_token(self) -> Option<Token<'t>>
        ensures token { (f : Forest) → Begins f self.entry.rows.now self.entry.text.now → TokenIs (last_tokens f) result }
        ensures inside { TokenIn self.entry.text.now result }
    {
        let mut rows = self.rows;
        let mut text = self.text;
        while rows.len() > 8 {
            let s = hop(rows);
            rows = &rows[s.rows..];
            text = &text[s.text..];
        }
        if rows.len() == 8 && rows[1] == 1 {
            return Some(Token {
                kind: rows[0],
                text: &text[..number(rows, 0)],
            });
        }
        None
    }

    // `EnvItem::begin`: where the first ItemBegin stands.
    pub fn begin(self) -> Option<Spot>
        ensures finds { FindsSpot (is_of ItemBegin) self.entry.rows.now self.entry.text.now 0 0 result }
        ensures found { FoundIn self.entry.rows.now self.entry.text.now result }
    {
        self.find_kind(ITEM_BEGIN)
    }

    // `EnvItem::name_tok`: the name of an environment over these children.
    pub fn env_name(self) -> &'t [u8]
        ensures { (f : Forest) → Begins f self.entry.rows.now self.entry.text.now → result.now ≡ env_name f }
    {
        let Some(begin) = self.begin() else {
            return &[];
        };
        match self.children_at(begin).first_token() {
            Some(token) => token.text,
            None => &[],
        }
    }

    // `FormulaItem::is_inline`.
    pub fn is_inline(self) -> bool
        ensures { (f : Forest) → Begins f self.entry.rows.now self.entry.text.now → result ≡ is_inline f }
    {
        let Some(first) = self.first_token() else {
            return false;
        };
        first.is(TOKEN_DOLLAR, b"$") || first.is(TOKEN_BEGIN_MATH, b"\\(")
    }

    // `FormulaItem::is_valid`: whether the formula ends as it began.
    pub fn is_valid(self) -> bool
        ensures { (f : Forest) → Begins f self.entry.rows.now self.entry.text.now → result ≡ is_valid f }
    {
        let (Some(first), Some(last)) = (self.first_token(), self.last_token()) else {
            return false;
        };
        (first.is(TOKEN_DOLLAR, b"$") && last.is(TOKEN_DOLLAR, b"$"))
            || (first.is(TOKEN_DOLLAR, b"$$") && last.is(TOKEN_DOLLAR, b"$$"))
            || (first.is(TOKEN_BEGIN_MATH, b"\\(") && last.is(TOKEN_END_MATH, b"\\)"))
            || (first.is(TOKEN_BEGIN_MATH, b"\\[") && last.is(TOKEN_END_MATH, b"\\]"))
    }
}
