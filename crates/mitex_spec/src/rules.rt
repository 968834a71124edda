// Looking a name up in the rules of a file: `get_cmd` and `get_env`.

ghost use Rattle.std.specs.Prelude.{◌≡◌, List};
ghost use Rattle.std.proofs.Math.Option.Option.{some};
ghost use Rattle.mitex_spec.specs.Rules.{Rule, get, get_cmd, get_env, alias_or};
ghost use Rattle.mitex_spec.specs.RuleFile.{rules_of};
ghost use Rattle.mitex_spec.specs.Index.{rule_no, rank_of, SomeRule, SomeRules};
ghost use Rattle.mitex_spec.specs.Unique.{some_rules-unique};
ghost use Rattle.mitex_spec.specs.LookUp.{alias_of, rule_found, LentIn, AliasIn, Answers};

use crate::{FIRSTS, alias_size, first_byte, name_at, rule_row_at, wide_u32};

// A rule file that was checked, and its index.
#[derive(Clone, Copy)]
pub struct Rules<'f, 'i> {
    pub file: &'f [u8],
    pub index: &'i [u32],
    pub ghost some: { SomeRules file.now index.now } by { some_rules-unique },
}

// What a look-up finds: the class of a rule, and its alias, a part of the rule file, if it has one.
#[derive(Clone, Copy)]
pub struct Found<'a> {
    pub class: u8,
    pub alias: Option<&'a [u8]>,
}

const CMD_MOST: u8 = 2;

impl<'f, 'i> Rules<'f, 'i> {
    // How many names come before a name: by halving those that begin as it does.
    fn rank(self, name: &[u8]) -> usize
        ensures { (rs : List Rule) → rules_of self.entry.file.now ≡ some rs → result ≡ rank_of rs name.now }
    {
        let b = first_byte(name);
        let mut low = wide_u32(self.index[FIRSTS + b]);
        let mut high = wide_u32(self.index[FIRSTS + b + 1]);
        // `partition_point` asks that its closure may be called at any number, and a name may only be read at those of the index.
        while low < high {
            let middle = low + (high - low) / 2;
            if text::precedes(name_at(self.file, self.index, middle), name) {
                low = middle + 1;
            } else {
                high = middle;
            }
        }
        low
    }

    // The rule of a number, found.
    fn rule_at(self, k: usize) -> Found<'f>
        requires { SomeRule self.file.now self.index.now k }
        ensures rule { (rs : List Rule) → rules_of self.entry.file.now ≡ some rs → rule_found (rule_no rs k).name result ≡ rule_no rs k }
        ensures inside { LentIn self.entry.file.now result.alias }
    {
        let row = rule_row_at(self.file, k);
        let text = &self.file[wide_u32(self.index[k]) + text::read_u16(row, 0)..];
        Found {
            class: row[4],
            alias: alias_size(row).map(|size| &text[..size]),
        }
    }

    // The rule of a name.
    pub fn get(self, name: &[u8]) -> Option<Found<'f>>
        ensures answers { Answers self.entry.file.now name.now (λ rs. get rs name.now) result }
        ensures inside { AliasIn self.entry.file.now result }
    {
        let k = self.rank(name);
        if k < text::count_of(self.file) && name_at(self.file, self.index, k) == name {
            Some(self.rule_at(k))
        } else {
            None
        }
    }

    // The rule of a name in the kind of a command.
    pub fn get_cmd(self, name: &[u8]) -> Option<Found<'f>>
        ensures answers { Answers self.entry.file.now name.now (λ rs. get_cmd rs name.now) result }
        ensures inside { AliasIn self.entry.file.now result }
    {
        self.get(name).filter(|found| found.class <= CMD_MOST)
    }

    // The rule of a name in the kind of an environment.
    pub fn get_env(self, name: &[u8]) -> Option<Found<'f>>
        ensures answers { Answers self.entry.file.now name.now (λ rs. get_env rs name.now) result }
        ensures inside { AliasIn self.entry.file.now result }
    {
        self.get(name).filter(|found| found.class > CMD_MOST)
    }
}

// The written name: the alias, or the name itself where there is none.
pub fn written_name<'a>(name: &'a [u8], found: Found<'a>) -> &'a [u8]
    ensures { result.now ≡ alias_or (alias_of found.entry) name.now }
{
    found.alias.unwrap_or(name)
}
