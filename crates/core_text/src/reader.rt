//! Reading parts and items from the left.
ghost use Rattle.std.specs.Prelude.{◌≡◌, ◌+◌, ◌<◌, ◌≤◌, ◌^◌, ◌++◌, length, IfErr, IfOk};
ghost use Rattle.std.specs.Str.{IsCharBoundary, IsUtf8};
ghost use Rattle.cdle_model.specs.CoreReading.{leaf, part_at, form_with, item_at, item_behind};
ghost use Rattle.cdle_model.specs.declared.grammar.Sort.TheVariants.{OfTerm, OfType};
ghost use Rattle.cdle_model.specs.CoreNames.{names_under};
ghost use Rattle.cdle_model.specs.Depth.{depth};
ghost use Rattle.core_tree.specs.Items.{written};
ghost use Rattle.core_text.specs.View.{rest, Advances, Gives, IsAt, IsPlaced};
ghost use Rattle.core_text.specs.Parts.{part_tree, class_of};
ghost use Rattle.core_text.specs.Scope.{binder_name, names, known_names, scope_of};
ghost use Rattle.core_text.specs.declared.binders.Binders.{Outermost};
ghost use Rattle.cdle_model.specs.declared.grammar.Class.TheVariants as class;

use crate::binders::{Binders, find};
use crate::build::build;
use crate::error::CoreTextFault;
use crate::forms::{is_same, pieces_of, sort_of_names, wanted_of};
use crate::part::Part;
use crate::scope::CoreScope;
use crate::token::{Lexeme, next};
use crate::words::{bad, close_of, form_word, name_of, open_of, sort_of, too_deep};
use cdle_model::{Class, Piece, Sort, Text};
use core_tree::{CoreItem, Kind, Term, Ty};
use std::alloc::Global;

/// How many parentheses may open inside an item's own.
const INSIDE_ITEM: usize = 1023;

/// What reading goes by: the text, the earlier items of the file and of other files, and where memory comes from.
#[derive(Clone, Copy)]
pub(crate) struct Reader<'a> {
    pub(crate) alloc: Global,
    pub(crate) bytes: &'a [u8],
    pub(crate) own: &'a CoreScope,
    pub(crate) known: &'a CoreScope,
}

impl<'a> Reader<'a> {
    /// A part that is one word.
    #[tactic(auto, unfolding(cdle_model::specs::CoreReading::leaf))]
    fn leaf(
        &self,
        binders: &Binders<'_>,
        class: Class,
        word: &[u8],
        at: usize,
    ) -> Result<Part, CoreTextFault>
        requires nested { length (names binders.now) ≤ 1024 }
        requires counted { length (known_names self.now.own.now) + length (known_names self.now.known.now) < 2 ^ 32 }
        requires short { at < 2 ^ 32 }
        ensures gives { (ts : _) → Gives (λ x. (part_tree x, ts)) result (leaf at (scope_of binders.now self.now.own.now self.now.known.now) class word.now ts) }
        ensures class { IfOk result (λ x. class_of x ≡ class) }
        ensures shallow { IfOk result (λ x. depth (part_tree x) ≡ 0) }
        ensures placed { IfErr result (IsAt at) }
    {
        let star = word == b"*".as_slice();
        match sort_of_names(class) {
            None => {
                if !star {
                    return Err(bad(at, wanted_of(class)));
                }
                Ok(Part::star(self.alloc, class)?)
            }
            Some(sort) => {
                if star {
                    return Err(bad(at, wanted_of(class)));
                }
                match find(binders, self.own, self.known, word) {
                    None => Err(CoreTextFault::Unbound { at: at as u32 }),
                    Some((found, meaning)) => {
                        if !is_same(sort, found) {
                            return Err(CoreTextFault::WrongClass { at: at as u32 });
                        }
                        Ok(Part::named(self.alloc, class, meaning)?)
                    }
                }
            }
        }
    }

    /// A part of a class, inside which so many parentheses may still open.
    #[cycle(part)]
    #[tactic(auto, unfolding(cdle_model::specs::CoreReading::part_with), using(crate::proofs::Pieces::inside_rules))]
    pub(crate) fn part(
        &self,
        left: usize,
        binders: &Binders<'_>,
        class: Class,
        from: usize,
    ) -> Result<(Part, usize), CoreTextFault>
        requires utf8 { IsUtf8 self.now.bytes.now }
        requires start { IsCharBoundary self.now.bytes.now from }
        requires short { length self.now.bytes.now < 2 ^ 32 }
        requires counted { length (known_names self.now.own.now) + length (known_names self.now.known.now) < 2 ^ 32 }
        requires nested { length (names binders.now) + left ≤ 1024 }
        ensures gives { Gives (λ x. (part_tree x.0, rest self.now.bytes.now x.1)) result
            (part_at (length self.now.bytes.now) left (scope_of binders.now self.now.own.now self.now.known.now) class (rest self.now.bytes.now from)) }
        ensures advances { IfOk result (λ x. Advances self.now.bytes.now from x.1) }
        ensures placed { IfErr result (IsPlaced self.now.bytes.now) }
        ensures class { IfOk result (λ x. class_of x.0 ≡ class) }
        ensures shallow { IfOk result (λ x. depth (part_tree x.0) ≤ left) }
    {
        let token = match next(self.bytes, from) {
            None => return Err(bad(self.bytes.len(), wanted_of(class))),
            Some(token) => token,
        };
        match token.lexeme {
            Lexeme::Word(word) => {
                let part = self.leaf(binders, class, word, token.at)?;
                Ok((part, token.end))
            }
            Lexeme::Closes => Err(bad(token.at, wanted_of(class))),
            Lexeme::Opens => {
                if left == 0 {
                    return Err(too_deep(token.at));
                }
                self.form(left - 1, binders, class, token.end)
            }
        }
    }

    /// A part of a class under the binder that came before it, if one did.
    #[cycle(part)]
    fn under(
        &self,
        left: usize,
        binders: &Binders<'_>,
        binder: Option<(&[u8], Sort)>,
        class: Class,
        from: usize,
    ) -> Result<(Part, usize), CoreTextFault>
        requires utf8 { IsUtf8 self.now.bytes.now }
        requires start { IsCharBoundary self.now.bytes.now from }
        requires short { length self.now.bytes.now < 2 ^ 32 }
        requires counted { length (known_names self.now.own.now) + length (known_names self.now.known.now) < 2 ^ 32 }
        requires nested { length (names binders.now) + left < 1024 }
        ensures gives { Gives (λ x. (part_tree x.0, rest self.now.bytes.now x.1)) result
            (part_at (length self.now.bytes.now) left (names_under (binder_name binder.entry) (scope_of binders.now self.now.own.now self.now.known.now)) class (rest self.now.bytes.now from)) }
        ensures advances { IfOk result (λ x. Advances self.now.bytes.now from x.1) }
        ensures placed { IfErr result (IsPlaced self.now.bytes.now) }
        ensures class { IfOk result (λ x. class_of x.0 ≡ class) }
        ensures shallow { IfOk result (λ x. depth (part_tree x.0) ≤ left) }
    {
        match binder {
            None => self.part(left, binders, class, from),
            Some((name, sort)) => {
                let inner = Binders::Inside(name, sort, &*binders);
                self.part(left, &inner, class, from)
            }
        }
    }

    /// What stands behind a parenthesis, with its closing.
    #[cycle(part)]
    #[tactic(auto, unfolding(cdle_model::specs::CoreReading::form_with), using(crate::proofs::Pieces::shallow_rules))]
    fn form(
        &self,
        left: usize,
        binders: &Binders<'_>,
        class: Class,
        from: usize,
    ) -> Result<(Part, usize), CoreTextFault>
        requires utf8 { IsUtf8 self.now.bytes.now }
        requires start { IsCharBoundary self.now.bytes.now from }
        requires short { length self.now.bytes.now < 2 ^ 32 }
        requires counted { length (known_names self.now.own.now) + length (known_names self.now.known.now) < 2 ^ 32 }
        requires nested { length (names binders.now) + left < 1024 }
        ensures gives { Gives (λ x. (part_tree x.0, rest self.now.bytes.now x.1)) result
            (form_with (part_at (length self.now.bytes.now) left) (length self.now.bytes.now) left (scope_of binders.now self.now.own.now self.now.known.now) class (rest self.now.bytes.now from)) }
        ensures advances { IfOk result (λ x. Advances self.now.bytes.now from x.1) }
        ensures placed { IfErr result (IsPlaced self.now.bytes.now) }
        ensures class { IfOk result (λ x. class_of x.0 ≡ class) }
        ensures shallow { IfOk result (λ x. depth (part_tree x.0) ≤ left + 1) }
    {
        let (form, inside) = form_word(self.bytes, left, class, from)?;
        let mut at = inside;
        let mut parts = Vec::new(self.alloc);
        let mut binder = None;
        let mut pieces = pieces_of(form);
        'pieces: while let Some((first, others)) = pieces.split_first() {
            match *first {
                Piece::Binder(sort) => {
                    let (name, after) = name_of(self.bytes, left, at)?;
                    binder = Some((name, sort));
                    at = after;
                }
                Piece::Part(class) => {
                    let (part, after) = self.part(left, binders, class, at)?;
                    parts.push(part)?;
                    at = after;
                }
                Piece::Under(class) => {
                    let (part, after) = self.under(left, binders, binder, class, at)?;
                    parts.push(part)?;
                    at = after;
                }
            }
            pieces = others;
        }
        let at = close_of(self.bytes, left, at)?;
        Ok((build(self.alloc, form, &parts)?, at))
    }

    /// The kind of an item.
    fn kind_at(&self, from: usize) -> Result<(Kind, usize), CoreTextFault>
        requires utf8 { IsUtf8 self.now.bytes.now }
        requires start { IsCharBoundary self.now.bytes.now from }
        requires short { length self.now.bytes.now < 2 ^ 32 }
        requires counted { length (known_names self.now.own.now) + length (known_names self.now.known.now) < 2 ^ 32 }
        ensures gives { Gives (λ x. (x.0, rest self.now.bytes.now x.1)) result
            (part_at (length self.now.bytes.now) 1023 (scope_of Outermost self.now.own.now self.now.known.now) class.Kind (rest self.now.bytes.now from)) }
        ensures advances { IfOk result (λ x. Advances self.now.bytes.now from x.1) }
        ensures placed { IfErr result (IsPlaced self.now.bytes.now) }
    {
        let (part, at) = self.part(INSIDE_ITEM, &Binders::Outermost, Class::Kind, from)?;
        Ok((part.into_kind(), at))
    }

    /// A type of an item.
    fn type_at(&self, from: usize) -> Result<(Ty, usize), CoreTextFault>
        requires utf8 { IsUtf8 self.now.bytes.now }
        requires start { IsCharBoundary self.now.bytes.now from }
        requires short { length self.now.bytes.now < 2 ^ 32 }
        requires counted { length (known_names self.now.own.now) + length (known_names self.now.known.now) < 2 ^ 32 }
        ensures gives { Gives (λ x. (x.0, rest self.now.bytes.now x.1)) result
            (part_at (length self.now.bytes.now) 1023 (scope_of Outermost self.now.own.now self.now.known.now) class.Ty (rest self.now.bytes.now from)) }
        ensures advances { IfOk result (λ x. Advances self.now.bytes.now from x.1) }
        ensures placed { IfErr result (IsPlaced self.now.bytes.now) }
    {
        let (part, at) = self.part(INSIDE_ITEM, &Binders::Outermost, Class::Ty, from)?;
        Ok((part.into_ty(), at))
    }

    /// The term of an item.
    fn term_at(&self, from: usize) -> Result<(Term, usize), CoreTextFault>
        requires utf8 { IsUtf8 self.now.bytes.now }
        requires start { IsCharBoundary self.now.bytes.now from }
        requires short { length self.now.bytes.now < 2 ^ 32 }
        requires counted { length (known_names self.now.own.now) + length (known_names self.now.known.now) < 2 ^ 32 }
        ensures gives { Gives (λ x. (x.0, rest self.now.bytes.now x.1)) result
            (part_at (length self.now.bytes.now) 1023 (scope_of Outermost self.now.own.now self.now.known.now) class.Term (rest self.now.bytes.now from)) }
        ensures advances { IfOk result (λ x. Advances self.now.bytes.now from x.1) }
        ensures placed { IfErr result (IsPlaced self.now.bytes.now) }
    {
        let (part, at) = self.part(INSIDE_ITEM, &Binders::Outermost, Class::Term, from)?;
        Ok((part.into_term(), at))
    }

    /// The text of a name.
    fn text_of(&self, name: &[u8]) -> Result<Text, CoreTextFault>
        requires { IsUtf8 name.now }
        ensures gives { Gives (λ text. text) result (Rattle.std.specs.Prelude.Ok name.now) }
    {
        match std::str::from_utf8(name) {
            Ok(name) => Ok(Text::new(self.alloc, name)?),
            Err(_) => unreachable!(),
        }
    }

    /// The definition of a term, behind its name.
    fn def(&self, name: &[u8], from: usize) -> Result<(CoreItem, usize), CoreTextFault>
        requires utf8 { IsUtf8 self.now.bytes.now }
        requires start { IsCharBoundary self.now.bytes.now from }
        requires short { length self.now.bytes.now < 2 ^ 32 }
        requires counted { length (known_names self.now.own.now) + length (known_names self.now.known.now) < 2 ^ 32 }
        requires text { IsUtf8 name.now }
        ensures gives { Gives (λ x. (written x.0, rest self.now.bytes.now x.1)) result
            (item_behind (length self.now.bytes.now) (known_names self.now.own.now ++ known_names self.now.known.now) OfTerm name.now (rest self.now.bytes.now from)) }
        ensures advances { IfOk result (λ x. Advances self.now.bytes.now from x.1) }
        ensures placed { IfErr result (IsPlaced self.now.bytes.now) }
    {
        let (ty, at) = self.type_at(from)?;
        let (body, at) = self.term_at(at)?;
        let at = close_of(self.bytes, INSIDE_ITEM, at)?;
        let name = self.text_of(name)?;
        Ok((CoreItem::Def { name, ty, body }, at))
    }

    /// The definition of a type, behind its name.
    fn type_def(&self, name: &[u8], from: usize) -> Result<(CoreItem, usize), CoreTextFault>
        requires utf8 { IsUtf8 self.now.bytes.now }
        requires start { IsCharBoundary self.now.bytes.now from }
        requires short { length self.now.bytes.now < 2 ^ 32 }
        requires counted { length (known_names self.now.own.now) + length (known_names self.now.known.now) < 2 ^ 32 }
        requires text { IsUtf8 name.now }
        ensures gives { Gives (λ x. (written x.0, rest self.now.bytes.now x.1)) result
            (item_behind (length self.now.bytes.now) (known_names self.now.own.now ++ known_names self.now.known.now) OfType name.now (rest self.now.bytes.now from)) }
        ensures advances { IfOk result (λ x. Advances self.now.bytes.now from x.1) }
        ensures placed { IfErr result (IsPlaced self.now.bytes.now) }
    {
        let (kind, at) = self.kind_at(from)?;
        let (body, at) = self.type_at(at)?;
        let at = close_of(self.bytes, INSIDE_ITEM, at)?;
        let name = self.text_of(name)?;
        Ok((CoreItem::TypeDef { name, kind, body }, at))
    }

    /// An item.
    #[tactic(auto, unfolding(cdle_model::specs::CoreReading::item_at))]
    pub(crate) fn item(&self, from: usize) -> Result<(CoreItem, usize), CoreTextFault>
        requires utf8 { IsUtf8 self.now.bytes.now }
        requires start { IsCharBoundary self.now.bytes.now from }
        requires short { length self.now.bytes.now < 2 ^ 32 }
        requires counted { length (known_names self.now.own.now) + length (known_names self.now.known.now) < 2 ^ 32 }
        ensures gives { Gives (λ x. (written x.0, rest self.now.bytes.now x.1)) result
            (item_at (length self.now.bytes.now) (known_names self.now.own.now ++ known_names self.now.known.now) (rest self.now.bytes.now from)) }
        ensures advances { IfOk result (λ x. Advances self.now.bytes.now from x.1) }
        ensures placed { IfErr result (IsPlaced self.now.bytes.now) }
    {
        let at = open_of(self.bytes, from)?;
        let (sort, at) = sort_of(self.bytes, at)?;
        let (name, at) = name_of(self.bytes, INSIDE_ITEM, at)?;
        match sort {
            Sort::OfTerm => self.def(name, at),
            Sort::OfType => self.type_def(name, at),
        }
    }
}
